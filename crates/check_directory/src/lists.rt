//! Lists that name items of the DIRECTORY.
ghost use Rattle.std.specs.Prelude.{[], ℕ, List};
ghost use Rattle.check_state.specs.Gives.{GivesOnly};
ghost use Rattle.check_rules.specs.Directory as spec;
ghost use Rattle.check_rules.specs.Parts.{names_of};
ghost use Rattle.check_directory.specs.Lists.{HasNames};

use crate::positions::directory_places;
use check_rules::{Cause, CheckFault};
use check_scopes::Names;
use mesa_base::Identifier;
use std::alloc::Global;
use syntax_trees::syntax::DirectoryItem;

/// Each name is one of the index, and stands once.
fn named_in(names: &[Identifier], alloc: Global, known: &Names<u32>) -> Result<(), CheckFault>
    ensures { (all : List (List ℕ)) → HasNames known.now all → GivesOnly (λ _. tt) (spec.listed all [] names.now) result }
{
    let mut before = Names::new(alloc);
    for name in names {
        if !known.has(name.name.bytes()) {
            return Err(CheckFault::At(Cause::UnknownName, name.place));
        }
        if before.has(name.name.bytes()) {
            return Err(CheckFault::At(Cause::TwiceDeclared, name.place));
        }
        before.declare(alloc, name.name.bytes(), true)?;
    }
    Ok(())
}

/// IMPORTS, EXPORTS and OPEN name items of the DIRECTORY, each at most once.
pub fn listed(
    names: &[Identifier],
    alloc: Global,
    directory: &[DirectoryItem],
) -> Result<(), CheckFault>
    ensures { GivesOnly (λ _. tt) (spec.listed (names_of (spec.names_in directory.now)) [] names.now) result }
{
    let known = directory_places(directory, alloc)?;
    named_in(names, alloc, &known)
}
