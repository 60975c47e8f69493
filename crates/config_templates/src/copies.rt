//! Copies of names.
ghost use Rattle.std.specs.Prelude.{◌≡◌, IfOk};
ghost use Rattle.config_rules.specs.Components.{names_of};
ghost use Rattle.config_templates.specs.Found.{names_imported, names_exported};

use cmesa_grammar::Heading;
use mesa_base::{Identifier, Identifiers, List, OutOfMemory};
use mesa_types::{Export, Import, Names};
use std::alloc::Global;

/// The names of a list.
pub fn names_in(alloc: Global, list: &[Identifier]) -> Result<Names, OutOfMemory>
    ensures { IfOk result (λ names. names ≡ names_of list.now) }
{
    let mut names = List::new(alloc);
    for one in list {
        names.push(one.name.copy(alloc)?)?;
    }
    Ok(names)
}

/// The names of the interfaces of these imports.
pub fn imported(alloc: Global, imports: &[Import]) -> Result<Names, OutOfMemory>
    ensures { IfOk result (λ names. names ≡ names_imported imports.now) }
{
    let mut names = List::new(alloc);
    for one in imports {
        names.push(one.face.name.copy(alloc)?)?;
    }
    Ok(names)
}

/// The names of the interfaces of these exports.
pub fn exported(alloc: Global, exports: &[Export]) -> Result<Names, OutOfMemory>
    ensures { IfOk result (λ names. names ≡ names_exported exports.now) }
{
    let mut names = List::new(alloc);
    for one in exports {
        names.push(one.face.name.copy(alloc)?)?;
    }
    Ok(names)
}

fn copied(alloc: Global, list: &[Identifier]) -> Result<Identifiers, OutOfMemory>
    ensures { IfOk result (λ copy. copy ≡ list.now) }
{
    let mut copy = List::new(alloc);
    for one in list {
        copy.push(copied_name(alloc, one)?)?;
    }
    Ok(copy)
}

fn copied_name(alloc: Global, name: &Identifier) -> Result<Identifier, OutOfMemory>
    ensures { IfOk result (λ copy. copy ≡ name.now) }
{
    Ok(Identifier {
        name: name.name.copy(alloc)?,
        place: name.place,
    })
}

pub fn heading(alloc: Global, heading: &Heading) -> Result<Heading, OutOfMemory>
    ensures { IfOk result (λ copy. copy ≡ heading.now) }
{
    Ok(Heading {
        name: copied_name(alloc, &heading.name)?,
        imports: copied(alloc, heading.imports.as_slice())?,
        exports: copied(alloc, heading.exports.as_slice())?,
        control: copied(alloc, heading.control.as_slice())?,
    })
}
