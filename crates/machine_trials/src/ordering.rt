//! Whether an image is in order, so that it can be made ready.

ghost use Rattle.std.specs.Prelude.{◌≡◌, ◌<◌, ◌≤◌, length, All, IsTrue, IsSomeAnd, Some, slice_get};
ghost use Rattle.mesa_types.specs.Types.{words_of_fields};
ghost use Rattle.code_forms.specs.declared.module_code.CodeKind.TheVariants.{Procedure};
ghost use Rattle.code_forms.specs.declared.module_code.CodeProcedure.{CodeProcedure};
ghost use Rattle.code_forms.specs.declared.module_code.CodeSignal.{CodeSignal};
ghost use Rattle.interface_records.specs.declared.wanted.Wanted.{Wanted};
ghost use Rattle.object_files.specs.declared.image.Instance.{Instance};
ghost use Rattle.machine_rules.specs.LookUps.{code_of};
ghost use Rattle.machine_activations.specs.Links.{IsLike, IsOfInstance};
ghost use Rattle.machine_ready.specs.Order.{code_kind, IsBoundAlike, ImageInOrder};
ghost use Rattle.machine_trials.specs.Fitting.{IsOfCode, LinksFit, TableFits, TablesFit};

use code_forms::{CodeKind, CodeLink, ModuleCode};
use interface_records::Wanted;
use mesa_base::limits::INSTANCES;
use mesa_types::{Item, ItemKind};
use object_files::{Image, Instance, Link};
use typed_answers::fields_words;

fn is_like(link: CodeLink, kind: CodeKind, args: u64, results: u64) -> bool
    ensures { IsTrue result → IsLike link kind args results }
{
    link.kind == kind && link.args == args && link.results == results
}

fn code_kind(kind: ItemKind) -> CodeKind
    ensures { result ≡ code_kind kind }
{
    match kind {
        ItemKind::Procedure => CodeKind::Procedure,
        ItemKind::Signal => CodeKind::Signal,
        ItemKind::Error => CodeKind::Error,
    }
}

// An item whose words 32 bits can't tell is like no link here.
fn is_like_item(link: CodeLink, item: &Item) -> bool
    ensures { IsTrue result → IsLike link (code_kind item.now.kind) (words_of_fields item.now.takes) (words_of_fields item.now.gives) }
{
    let takes = fields_words(item.takes.as_slice());
    let gives = fields_words(item.gives.as_slice());
    takes < u32::MAX
        && gives < u32::MAX
        && is_like(
            link,
            code_kind(item.kind),
            u64::from(takes),
            u64::from(gives),
        )
}

fn is_like_wanted(link: CodeLink, wanted: &[Wanted], number: u32) -> bool
    ensures { IsTrue result → IsSomeAnd (slice_get wanted.now number)
        (λ (w : Wanted). IsLike link (code_kind w.item.kind) (words_of_fields w.item.takes) (words_of_fields w.item.gives)) }
{
    match wanted.get(number as usize) {
        Some(wanted) => is_like_item(link, &wanted.item),
        None => false,
    }
}

fn is_like_procedure(link: CodeLink, code: &ModuleCode, number: u32) -> bool
    ensures { IsTrue result → IsSomeAnd (slice_get code.now.procedures number) (λ (p : CodeProcedure). IsLike link Procedure p.args p.results) }
{
    match code.procedures.get(number as usize) {
        Some(own) => is_like(
            link,
            CodeKind::Procedure,
            u64::from(own.args),
            u64::from(own.results),
        ),
        None => false,
    }
}

fn is_like_signal(link: CodeLink, code: &ModuleCode, number: u32) -> bool
    ensures { IsTrue result → IsSomeAnd (slice_get code.now.signals number) (λ (s : CodeSignal). IsLike link s.kind s.args s.results) }
{
    match code.signals.get(number as usize) {
        Some(own) => is_like(link, own.kind, u64::from(own.args), u64::from(own.results)),
        None => false,
    }
}

fn is_of_code(link: CodeLink, code: &ModuleCode, number: u32) -> bool
    ensures { IsTrue result → IsOfCode link link.kind code.now number }
{
    match link.kind {
        CodeKind::Procedure => 0 < number && is_like_procedure(link, code, number),
        CodeKind::Signal | CodeKind::Error => is_like_signal(link, code, number),
    }
}

fn code_of(image: &Image, instance: usize) -> &ModuleCode
    requires modules { All (λ (i : Instance). i.module < length image.now.modules) image.now.instances }
    requires there { instance < length image.now.instances }
    ensures { code_of image.now instance ≡ Some result.now }
{
    let module = image.instances.as_slice()[instance].module as usize;
    image.modules.as_slice()[module].code.code()
}

fn is_of_instance(image: &Image, link: CodeLink, instance: u32, number: u32) -> bool
    requires modules { All (λ (i : Instance). i.module < length image.now.modules) image.now.instances }
    ensures { IsTrue result → IsOfInstance image.now link link.kind instance number }
{
    if instance as usize >= image.instances.len() {
        return false;
    }
    is_of_code(link, code_of(image, instance as usize), number)
}

fn is_bound_alike(image: &Image, link: CodeLink, bound: Link) -> bool
    requires modules { All (λ (i : Instance). i.module < length image.now.modules) image.now.instances }
    ensures { IsTrue result → IsBoundAlike image.now link bound }
{
    match bound {
        Link::Wanted(number) => is_like_wanted(link, image.wanted.as_slice(), number),
        Link::To { instance, number } => is_of_instance(image, link, instance, number),
    }
}

fn links_fit(image: &Image, links: &[CodeLink], table: &[Link]) -> bool
    requires modules { All (λ (i : Instance). i.module < length image.now.modules) image.now.instances }
    requires long { length links.now ≤ length table.now }
    ensures { IsTrue result → LinksFit image.now links.now table.now (length links.now) }
{
    for number in 0..links.len() {
        if !is_bound_alike(image, links[number], table[number]) {
            return false;
        }
    }
    true
}

fn table_fits(image: &Image, instance: usize) -> bool
    requires modules { All (λ (i : Instance). i.module < length image.now.modules) image.now.instances }
    requires tables { length image.now.links ≡ length image.now.instances }
    requires there { instance < length image.now.instances }
    ensures { IsTrue result → TableFits image.now instance }
{
    let code = code_of(image, instance);
    let table = image.links.as_slice()[instance].as_slice();
    if code.links.len() != table.len() {
        return false;
    }
    links_fit(image, code.links.as_slice(), table)
}

fn tables_fit(image: &Image) -> bool
    requires modules { All (λ (i : Instance). i.module < length image.now.modules) image.now.instances }
    requires tables { length image.now.links ≡ length image.now.instances }
    ensures { IsTrue result → TablesFit image.now (length image.now.instances) }
{
    for instance in 0..image.instances.len() {
        if !table_fits(image, instance) {
            return false;
        }
    }
    true
}

fn modules_are_there(instances: &[Instance], modules: usize) -> bool
    ensures { IsTrue result → All (λ (i : Instance). i.module < modules) instances.now }
{
    for number in 0..instances.len() {
        if instances[number].module as usize >= modules {
            return false;
        }
    }
    true
}

fn are_below(numbers: &[u32], limit: usize) -> bool
    ensures { IsTrue result → All (λ j. j < limit) numbers.now }
{
    for number in numbers {
        if *number as usize >= limit {
            return false;
        }
    }
    true
}

/// Whether the image is in order. One that wants an item of more words than 32 bits can tell counts as out of order.
pub fn is_in_order(image: &Image) -> bool
    ensures { IsTrue result → ImageInOrder image.now }
{
    if image.modules.len() > 65534 || image.instances.len() > INSTANCES {
        return false;
    }
    if image.links.len() != image.instances.len() {
        return false;
    }
    if !modules_are_there(image.instances.as_slice(), image.modules.len()) {
        return false;
    }
    are_below(image.control.as_slice(), image.instances.len()) && tables_fit(image)
}
