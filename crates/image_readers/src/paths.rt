//! Paths of instances.
ghost use Rattle.std.specs.Prelude.{◌≡◌, ◌++◌, IfOk, OnOk};
ghost use Rattle.file_forms.specs.Forms.{number, ruled, between};
ghost use Rattle.file_forms.specs.Reads.{Reads};
ghost use Rattle.image_readers.specs.Paths.{marked, key_of};
ghost use Rattle.mesa_base.specs.declared.file_fault.Field.TheVariants.{Length};
ghost use Rattle.mesa_base.specs.declared.limits.TheConstants.{CONFIGURATION_DEPTH};
ghost use Rattle.object_rules.specs.ImageForms as form;

use crate::elements::{Element, each};
use file_forms::{FileCursor, Stopped};
use mesa_base::limits::CONFIGURATION_DEPTH;
use mesa_base::{Bytes, Field, List, Name, OutOfMemory, Path};
use std::alloc::Global;

// Length: the path has no name, or too many.
fn depth(input: &mut FileCursor<'_>) -> Result<u8, Stopped>
    ensures { Reads ((ruled (number 1) (between 1 CONFIGURATION_DEPTH) Length).read input.old.rest.now) result input.new.rest.now }
{
    let left = input.rest.len();
    let count = input.u8()?;
    if count < 1 || count as usize > CONFIGURATION_DEPTH {
        return Err(Stopped::Bad(Field::Length, left));
    }
    Ok(count)
}

#[derive(Drop)]
struct OneName;

impl Element for OneName {
    ghost use Rattle.file_forms.specs.Names.{name};

    type Made = Name;

    ghost form = { λ _ _. name };

    fn read(&self, alloc: Global, input: &mut FileCursor<'_>, _: &Path) -> Result<Name, Stopped> {
        input.name(alloc)
    }
}

/// A path.
#[tactic(auto, unfolding(object_rules::specs::ImageForms::path))]
pub(crate) fn path(alloc: Global, input: &mut FileCursor<'_>) -> Result<Path, Stopped>
    ensures { Reads (form.path.read input.old.rest.now) result input.new.rest.now }
{
    let count = depth(input)?;
    each(alloc, input, &OneName, count as usize)
}

fn put_marked(key: &mut Bytes, name: &[u8]) -> Result<(), OutOfMemory>
    ensures { OnOk result (key.new ≡ key.old ++ marked name.now) }
{
    for byte in name {
        key.push(1)?;
        key.push(*byte)?;
    }
    key.push(0)?;
    Ok(())
}

/// What stands for a path in an index.
pub(crate) fn key(alloc: Global, path: &[Name]) -> Result<Bytes, OutOfMemory>
    ensures { IfOk result (λ key. key ≡ key_of path.now) }
{
    let mut key = List::new(alloc);
    for name in path {
        put_marked(&mut key, name.bytes())?;
    }
    Ok(key)
}
