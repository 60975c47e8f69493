//! The DIRECTORY, whose items name the interfaces that are given for them.
ghost use Rattle.std.specs.Prelude.{◌≡◌, [], ℕ, List, map, IfOk};
ghost use Rattle.check_directory.specs.Lists.{HasNames};
ghost use Rattle.check_directory.specs.Items as step;
ghost use Rattle.check_state.specs.Gives.{GivesOnly};
ghost use Rattle.check_state.specs.Views as view;
ghost use Rattle.check_rules.specs.Directory as spec;
ghost use Rattle.interface_records.specs.PlainTypes.{plain_interface};

use crate::entries::entries;
use crate::offers::offer;
use check_rules::{Cause, CheckFault};
use check_scopes::Names;
use check_state::{Meaning, next};
use interface_records::Interface;
use mesa_base::{Identifier, OutOfMemory};
use std::alloc::Global;
use syntax_trees::syntax::DirectoryItem;

/// Each name of a USING list is one of the interface, and stands once.
fn used_names(names: &[Identifier], alloc: Global, scope: &Names<Meaning>) -> Result<(), CheckFault>
    ensures { GivesOnly (λ _. tt) (spec.used_names (view.names scope.now) [] names.now) result }
{
    let mut before = Names::new(alloc);
    for name in names {
        if !scope.has(name.name.bytes()) {
            return Err(CheckFault::At(Cause::UnknownName, name.place));
        }
        if before.has(name.name.bytes()) {
            return Err(CheckFault::At(Cause::TwiceDeclared, name.place));
        }
        before.declare(alloc, name.name.bytes(), true)?;
    }
    Ok(())
}

/// The USING list of an item, if it has one, names what its interface has.
fn using(item: &DirectoryItem, alloc: Global, interface: &Interface) -> Result<(), CheckFault>
    ensures { GivesOnly (λ _. tt) (spec.using (spec.first_entry (spec.entries None (plain_interface interface.now))) item.now.used) result }
{
    match &item.used {
        None => Ok(()),
        Some(names) => {
            let scope = entries(interface, alloc, None)?;
            used_names(names.as_slice(), alloc, &scope)
        }
    }
}

/// An item has its interface's name, which none before it has, and names what is in it.
fn fits(
    item: &DirectoryItem,
    alloc: Global,
    interface: &Interface,
    before: &Names<bool>,
) -> Result<(), CheckFault>
    ensures { (so_far : List (List ℕ)) → HasNames before.now so_far → GivesOnly (λ _. tt) (step.fits so_far item.now (plain_interface interface.now)) result }
{
    if item.name.name.bytes() != interface.face.name.bytes() {
        return Err(CheckFault::At(Cause::UnknownName, item.name.place));
    }
    if before.has(item.name.name.bytes()) {
        return Err(CheckFault::At(Cause::TwiceDeclared, item.name.place));
    }
    using(item, alloc, interface)
}

/// Each item of a DIRECTORY names its file's interface, and has a name of its own; an item whose interface is not given is not
/// known by its name.
pub fn directory(
    directory: &[DirectoryItem],
    alloc: Global,
    interfaces: &[Interface],
) -> Result<(), CheckFault>
    ensures { GivesOnly (λ _. tt) (spec.directory [] directory.now (map plain_interface interfaces.now)) result }
{
    let mut before = Names::new(alloc);
    let mut items = directory;
    let mut given = interfaces;
    'items: while let Some((item, items_left)) = items.split_first() {
        let Some((interface, given_left)) = given.split_first() else {
            return Err(CheckFault::At(Cause::UnknownName, item.name.place));
        };
        fits(item, alloc, interface, &before)?;
        before.declare(alloc, item.name.name.bytes(), true)?;
        items = items_left;
        given = given_left;
    }
    Ok(())
}

/// The names of the DIRECTORY, each an interface by the number of its item.
pub fn directory_scope(
    directory: &[DirectoryItem],
    alloc: Global,
) -> Result<Names<Meaning>, OutOfMemory>
    ensures { IfOk result (λ names. view.names names ≡ spec.directory_scope 0 directory.now) }
{
    let mut names = Names::new(alloc);
    let mut number = 0u32;
    for item in directory {
        offer(
            &item.name.name,
            alloc,
            Meaning::Interface(number),
            &mut names,
        )?;
        number = next(number)?;
    }
    Ok(names)
}
