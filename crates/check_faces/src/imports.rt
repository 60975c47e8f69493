//! What a module imports, with those items that its text names.
ghost use Rattle.std.specs.Prelude.{◌≡◌, ◌++◌, map, IfOk, OnOk};
ghost use Rattle.check_directory.specs.Interfaces.{found};
ghost use Rattle.check_faces.specs.Giving as step;
ghost use Rattle.interface_records.specs.PlainTypes.{plain_interface, plain_item};
ghost use Rattle.check_rules.specs.Programs as spec;

use check_scopes::Marks;
use check_state::next;
use held_trees::{both, pushed};
use interface_records::Interface;
use mesa_base::{List, Numbers, OutOfMemory};
use mesa_types::{Import, Imports, Item};
use std::alloc::Global;

/// For each of these interfaces a row of marks, one for each item, none of them set.
pub fn unused(those: &[&Interface], alloc: Global) -> Result<Marks, OutOfMemory>
    ensures { IfOk result (λ marks. marks ≡ spec.unused (found those.now)) }
{
    let mut marks = Marks::new(alloc);
    for interface in those {
        marks.add_row(alloc, interface.face.items.len())?;
    }
    Ok(marks)
}

fn put_if(mark: bool, number: u32, numbers: &mut Numbers) -> Result<(), OutOfMemory>
    ensures { OnOk result (numbers.new ≡ numbers.old ++ step.number_if mark number) }
{
    if mark {
        numbers.push(number)?;
    }
    Ok(())
}

/// The numbers of the items that are marked.
fn marked(items: &[Item], alloc: Global, marks: &[bool]) -> Result<Numbers, OutOfMemory>
    ensures { IfOk result (λ numbers. numbers ≡ spec.marked_from 0 (map plain_item items.now) marks.now) }
{
    let mut numbers = List::new(alloc);
    let mut number = 0u32;
    let mut rest = marks;
    for _item in items {
        let Some((mark, others)) = rest.split_first() else {
            return Ok(numbers);
        };
        put_if(*mark, number, &mut numbers)?;
        number = next(number)?;
        rest = others;
    }
    Ok(numbers)
}

#[tactic(auto, using(crate::proofs::FaceLaws::face_back))]
fn import_of(interface: &Interface, alloc: Global, marks: &[bool]) -> Result<Import, OutOfMemory>
    ensures { IfOk result (λ import. import ≡ step.import (plain_interface interface.now) marks.now) }
{
    let used = marked(interface.face.items.as_slice(), alloc, marks)?;
    let face = interface.face.copy(alloc)?;
    Ok(Import { face, used })
}

/// The imports, each with those of its items that are marked.
pub fn imported(those: &[&Interface], alloc: Global, used: &Marks) -> Result<Imports, OutOfMemory>
    ensures { IfOk result (λ imports. imports ≡ spec.imported (found those.now) used.now) }
{
    let mut imports = List::new(alloc);
    let mut number = 0usize;
    for interface in those {
        let import = import_of(interface, alloc, used.row(number))?;
        imports = pushed(imports, import)?;
        number += 1;
    }
    Ok(imports)
}
