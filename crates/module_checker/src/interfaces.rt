//! Interfaces.
ghost use Rattle.std.specs.Prelude.{◌≡◌, Ok, map, IfOk};
ghost use Rattle.check_programs.specs.check_heads.specs.Views as view;
ghost use Rattle.check_state.specs.Gives.{GivesOnly};
ghost use Rattle.check_rules.specs.CheckedModule as spec;
ghost use Rattle.interface_records.specs.PlainTypes.{interface_of, plain_interface};
ghost use Rattle.check_rules.specs.Steps.{and_then};
ghost use Rattle.syntax_trees.specs.PlainSyntax as plain;

use crate::starting::InterfaceStart;
use check_known::check_directory::all_listed;
use check_known::known_of;
use check_programs::check_expressions::Checker;
use check_programs::check_heads::{AllDefined, all_defined};
use check_programs::{Catches, around_body};
use check_rules::{Cause, CheckFault};
use check_state::Around;
use interface_records::Interface;
use mesa_base::{Identifier, Identifiers, OutOfMemory, Stamp};
use mesa_types::Face;
use std::alloc::Global;
use syntax_trees::Module;
use syntax_trees::syntax::{Defined, Labeled, ModuleKind};

/// The interface in which these are defined.
fn interface_with(
    module: &Module,
    alloc: Global,
    stamp: Stamp,
    all: AllDefined,
) -> Result<Interface, OutOfMemory>
    ensures { IfOk result (λ made. made ≡ interface_of (spec.defined_as (plain.syntax module.now) stamp (view.defined all))) }
{
    let AllDefined {
        items,
        constants,
        types,
    } = all;
    let name = module.name.name.copy(alloc)?;
    Ok(Interface {
        face: Face { name, stamp, items },
        constants,
        types,
    })
}

/// An interface with this OPEN and these definitions.
#[tactic(auto, unfolding(check_state::specs::Views::around))]
fn definitions(
    module: &Module,
    alloc: Global,
    stamp: Stamp,
    interfaces: &[Interface],
    opens: &[Identifier],
    all: &[Labeled<Identifiers, Defined>],
) -> Result<Interface, CheckFault>
    ensures { GivesOnly (λ made. made) (and_then (spec.definitions (plain.syntax module.now) stamp (map plain_interface interfaces.now) opens.now (map plain.definition all.now)) (λ i. Ok (interface_of i))) result }
{
    all_listed(module, alloc, interfaces, &[], &[], opens)?;
    let known = known_of(module, alloc, Some(stamp), false, &[], interfaces)?;
    let start = InterfaceStart {
        alloc,
        module,
        stamp,
        interfaces,
        opens,
        definitions: all,
    };
    let around = Around {
        is_outermost: true,
        ..around_body(&known, &[], &[])
    };
    let checker = Checker {
        alloc,
        phrases: Catches { alloc },
    };
    let defined = all_defined(all, &checker, &around, &start);
    let Checker {
        alloc: _,
        phrases: _,
    } = checker;
    Ok(interface_with(module, alloc, stamp, defined?.0)?)
}

/// The interface of a DEFINITIONS module under this stamp, with the interfaces of its DIRECTORY in order. It refuses a program, which
/// has no stamp (StampUnwanted), and else a text by its first fault: of its DIRECTORY and OPEN, and of its definitions in order.
#[tactic(auto, unfolding(check_rules::specs::CheckedModule::checked_definitions))]
pub fn check_definitions(
    alloc: Global,
    module: &Module,
    stamp: Stamp,
    interfaces: &[Interface],
) -> Result<Interface, CheckFault>
    ensures { GivesOnly (λ made. made) (spec.checked_definitions (plain.syntax module.now) stamp interfaces.now) result }
{
    match &module.kind {
        ModuleKind::Program { place, .. } => Err(CheckFault::At(Cause::StampUnwanted, *place)),
        ModuleKind::Interface {
            opens,
            definitions: all,
            ..
        } => definitions(
            module,
            alloc,
            stamp,
            interfaces,
            opens.as_slice(),
            all.as_slice(),
        ),
    }
}
