//! What an image wants of its loader.
ghost use Rattle.file_forms.specs.Forms.{list, several, at_least};
ghost use Rattle.file_forms.specs.Reads.{Reads};
ghost use Rattle.object_rules.specs.ImageForms as form;

use file_forms::{FileCursor, Stopped};
use held_objects::{let_wanted_go, with_wanted};
use interface_records::{Wanted, Wanteds};
use mesa_base::List;
use object_readers::interface_readers::item;
use std::alloc::Global;

#[tactic(auto, unfolding(object_rules::specs::ImageForms::entry))]
fn entry(alloc: Global, input: &mut FileCursor<'_>, version: u8) -> Result<Wanted, Stopped>
    ensures { Reads ((form.entry version).read input.old.rest.now) result input.new.rest.now }
{
    let face = input.name(alloc)?;
    let stamp = input.stamp()?;
    let item = item(alloc, input, version)?;
    Ok(Wanted { face, stamp, item })
}

fn each_entry(
    alloc: Global,
    input: &mut FileCursor<'_>,
    version: u8,
    count: u32,
) -> Result<Wanteds, Stopped>
    ensures { Reads ((several count (λ _. form.entry version)).read input.old.rest.now) result input.new.rest.now }
{
    let mut all = List::new(alloc);
    'entries: for _ in 0..count {
        let entry = match entry(alloc, input, version) {
            Ok(entry) => entry,
            Err(why) => {
                let_wanted_go(all);
                return Err(why);
            }
        };
        all = with_wanted(all, entry)?;
    }
    Ok(all)
}

/// The items that an image wants.
pub(crate) fn wanted(
    alloc: Global,
    input: &mut FileCursor<'_>,
    version: u8,
) -> Result<Wanteds, Stopped>
    ensures { Reads ((list (at_least 0) (λ _. form.entry version)).read input.old.rest.now) result input.new.rest.now }
{
    let count = input.count_from(0)?;
    each_entry(alloc, input, version, count)
}
