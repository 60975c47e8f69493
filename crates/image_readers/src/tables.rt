//! The links of instances.
ghost use Rattle.std.specs.Prelude.{◌≡◌, ◌≢◌, ◌++◌, ◌∷◌, [], ℕ, List as Values, length, map, flat_map, option_map, MatchResult};
ghost use Rattle.std.specs.Option.{option_copied};
ghost use Rattle.file_forms.specs.Forms.{read_each};
ghost use Rattle.file_forms.specs.Reads.{Reads};
ghost use Rattle.file_forms.specs.declared.stopped.Stopped.TheVariants as stop;
ghost use Rattle.image_readers.specs.Tables.{IsLinkedOn, needed_at, next_link};
ghost use Rattle.interface_records.specs.declared.wanted.Wanted.{Wanted as Entry};
ghost use Rattle.object_readers.specs.Rows.{module_part};
ghost use Rattle.object_rules.specs.ImageForms as form;

use crate::elements::{Element, each};
use crate::link_fields::link;
use crate::lookups::module_of;
use file_forms::{FileCursor, Stopped};
use held_objects::{ImageHead, ModuleRows};
use mesa_base::List;
use mesa_types::{Face, Import, Item};
use object_files::{Instances, LinkTable, LinkTables};
use std::alloc::Global;

// The link of an item that is needed, behind those before.
fn put_needed(
    input: &mut FileCursor<'_>,
    head: &ImageHead,
    instances: &Instances,
    face: &Face,
    item: &Item,
    all: &mut LinkTable,
) -> Result<(), Stopped>
    ensures { (needed more : Values Entry) (start : Values ℕ) → IsLinkedOn (map module_part head.now.modules) head.now.wanted instances.now needed all.old (form.needed_of face.now item.now ∷ more) input.old.rest.now start → MatchResult result (λ _. IsLinkedOn (map module_part head.now.modules) head.now.wanted instances.now needed all.new more input.new.rest.now start) (λ why. why ≢ stop.Memory → read_each (next_link (map module_part head.now.modules) head.now.wanted instances.now needed) (length needed) [] start ≡ Err why) }
{
    let link = match link(input, head, instances, face, item) {
        Ok(link) => link,
        Err(why) => return Err(why),
    };
    all.push(link)?;
    Ok(())
}

// The same of an item that may be missing.
fn put_link(
    input: &mut FileCursor<'_>,
    head: &ImageHead,
    instances: &Instances,
    face: &Face,
    item: Option<&Item>,
    all: &mut LinkTable,
) -> Result<(), Stopped>
    ensures { (needed more : Values Entry) (start : Values ℕ) → IsLinkedOn (map module_part head.now.modules) head.now.wanted instances.now needed all.old (needed_at face.now (option_copied item.entry) ++ more) input.old.rest.now start → MatchResult result (λ _. IsLinkedOn (map module_part head.now.modules) head.now.wanted instances.now needed all.new more input.new.rest.now start) (λ why. why ≢ stop.Memory → read_each (next_link (map module_part head.now.modules) head.now.wanted instances.now needed) (length needed) [] start ≡ Err why) }
{
    match item {
        Some(item) => put_needed(input, head, instances, face, item, all),
        None => Ok(()),
    }
}

// The links of the used items of an import, behind those before.
fn put_links(
    input: &mut FileCursor<'_>,
    head: &ImageHead,
    instances: &Instances,
    import: &Import,
    all: &mut LinkTable,
) -> Result<(), Stopped>
    ensures { (needed more : Values Entry) (start : Values ℕ) → IsLinkedOn (map module_part head.now.modules) head.now.wanted instances.now needed all.old (form.needed_by_import import.now ++ more) input.old.rest.now start → MatchResult result (λ _. IsLinkedOn (map module_part head.now.modules) head.now.wanted instances.now needed all.new more input.new.rest.now start) (λ why. why ≢ stop.Memory → read_each (next_link (map module_part head.now.modules) head.now.wanted instances.now needed) (length needed) [] start ≡ Err why) }
{
    let face = &import.face;
    let used = import.used.as_slice();
    'numbers: for number in used {
        let item = face.items.get(*number as usize);
        match put_link(input, head, instances, face, item, all) {
            Ok(()) => {}
            Err(why) => return Err(why),
        }
    }
    Ok(())
}

// The links that a module with these imports needs.
fn links(
    alloc: Global,
    input: &mut FileCursor<'_>,
    head: &ImageHead,
    instances: &Instances,
    imports: &[Import],
) -> Result<LinkTable, Stopped>
    ensures { Reads ((form.link_table (map module_part head.now.modules) head.now.wanted instances.now (flat_map form.needed_by_import imports.now)).read input.old.rest.now) result input.new.rest.now }
{
    let mut all = List::new(alloc);
    'imports: for import in imports {
        match put_links(input, head, instances, import, &mut all) {
            Ok(()) => {}
            Err(why) => return Err(why),
        }
    }
    Ok(all)
}

fn table(
    alloc: Global,
    input: &mut FileCursor<'_>,
    head: &ImageHead,
    instances: &Instances,
    rows: Option<&ModuleRows>,
) -> Result<LinkTable, Stopped>
    ensures { Reads ((form.link_table (map module_part head.now.modules) head.now.wanted instances.now (form.needed_by (option_map module_part (option_copied rows.entry)))).read input.old.rest.now) result input.new.rest.now }
{
    match rows {
        Some(rows) => links(alloc, input, head, instances, rows.imports.as_slice()),
        None => Ok(List::new(alloc)),
    }
}

// The links of the next instance.
#[derive(Drop)]
struct OneTable<'a> {
    head: &'a ImageHead,
    instances: &'a Instances,
}

impl Element for OneTable<'_> {
    ghost use Rattle.std.specs.Prelude.{map};
    ghost use Rattle.image_readers.specs.Tables.{next_table};
    ghost use Rattle.object_readers.specs.Rows.{module_part};

    type Made = LinkTable;

    ghost form = { λ one before. next_table (map module_part one.head.now.modules) one.head.now.wanted one.instances.now before };

    fn read(
        &self,
        alloc: Global,
        input: &mut FileCursor<'_>,
        before: &LinkTables,
    ) -> Result<LinkTable, Stopped> {
        let rows = module_of(&self.head.modules, self.instances, before.len());
        table(alloc, input, self.head, self.instances, rows)
    }
}

/// For each instance the links that its module needs.
#[tactic(auto, unfolding(object_rules::specs::ImageForms::link_tables))]
pub(crate) fn link_tables(
    alloc: Global,
    input: &mut FileCursor<'_>,
    head: &ImageHead,
    instances: &Instances,
) -> Result<LinkTables, Stopped>
    ensures { Reads ((form.link_tables (map module_part head.now.modules) head.now.wanted instances.now).read input.old.rest.now) result input.new.rest.now }
{
    each(alloc, input, &OneTable { head, instances }, instances.len())
}
