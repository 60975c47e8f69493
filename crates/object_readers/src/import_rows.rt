//! The imports of a module.
ghost use Rattle.std.specs.Prelude.{◌≡◌, length};
ghost use Rattle.file_forms.specs.Forms.{list, several, at_least};
ghost use Rattle.file_forms.specs.Reads.{Reads};
ghost use Rattle.object_rules.specs.ModuleForms as form;
ghost use Rattle.object_rules.specs.Numbers.{number_where, last_of};

use file_forms::{FileCursor, Seen, Stopped};
use held_trees::{LetGo, both, pushed};
use interface_readers::face;
use mesa_base::{Field, List, Numbers};
use mesa_types::{Import, Imports, Items};
use std::alloc::Global;

fn last_number(numbers: &Numbers) -> Option<u32>
    ensures { result ≡ last_of numbers.now }
{
    numbers.get(numbers.len().saturating_sub(1)).copied()
}

/// Whether the number is one of so many, above the last one before.
pub(crate) fn is_next(count: usize, before: Option<u32>, number: u32) -> bool
    ensures { result ≡ form.is_next count before number }
{
    match before {
        Some(before) => (number as usize) < count && before < number,
        None => (number as usize) < count,
    }
}

// Number: the interface has no such item, or the number isn't above the one before.
fn next_used(input: &mut FileCursor<'_>, items: &Items, before: &Numbers) -> Result<u32, Stopped>
    ensures { Reads ((number_where 4 (form.is_next (length items.now) (last_of before.now))).read input.old.rest.now) result input.new.rest.now }
{
    let left = input.rest.len();
    let number = input.u32()?;
    if !is_next(items.len(), last_number(before), number) {
        return Err(Stopped::Bad(Field::Number, left));
    }
    Ok(number)
}

fn each_used(
    alloc: Global,
    input: &mut FileCursor<'_>,
    items: &Items,
    count: u32,
) -> Result<Numbers, Stopped>
    ensures { Reads ((several count (λ before. number_where 4 (form.is_next (length items.now) (last_of before)))).read input.old.rest.now) result input.new.rest.now }
{
    let mut all = List::new(alloc);
    'numbers: for _ in 0..count {
        let number = match next_used(input, items, &all) {
            Ok(number) => number,
            Err(why) => return Err(why),
        };
        all.push(number)?;
    }
    Ok(all)
}

fn used(alloc: Global, input: &mut FileCursor<'_>, items: &Items) -> Result<Numbers, Stopped>
    ensures { Reads ((list (at_least 0) (λ before. number_where 4 (form.is_next (length items.now) (last_of before)))).read input.old.rest.now) result input.new.rest.now }
{
    let count = input.count_from(0)?;
    each_used(alloc, input, items, count)
}

#[tactic(auto, unfolding(object_rules::specs::ModuleForms::import_form))]
fn import(alloc: Global, input: &mut FileCursor<'_>, version: u8) -> Result<Import, Stopped>
    ensures { Reads ((form.import_form version).read input.old.rest.now) result input.new.rest.now }
{
    let mut seen = Seen::new(alloc);
    let face = face(alloc, input, version, &mut seen)?;
    let used = used(alloc, input, &face.items);
    let (face, used) = both(face, used)?;
    Ok(Import { face, used })
}

fn each_import(
    alloc: Global,
    input: &mut FileCursor<'_>,
    version: u8,
    count: u32,
) -> Result<Imports, Stopped>
    ensures { Reads ((several count (λ _. form.import_form version)).read input.old.rest.now) result input.new.rest.now }
{
    let mut all = List::new(alloc);
    'imports: for _ in 0..count {
        let import = match import(alloc, input, version) {
            Ok(import) => import,
            Err(why) => {
                all.let_go();
                return Err(why);
            }
        };
        all = pushed(all, import)?;
    }
    Ok(all)
}

/// The imports of a module.
pub(crate) fn imports(
    alloc: Global,
    input: &mut FileCursor<'_>,
    version: u8,
) -> Result<Imports, Stopped>
    ensures { Reads ((list (at_least 0) (λ _. form.import_form version)).read input.old.rest.now) result input.new.rest.now }
{
    let count = input.count_from(0)?;
    each_import(alloc, input, version, count)
}
