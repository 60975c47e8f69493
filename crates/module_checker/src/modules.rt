//! Programs.
ghost use Rattle.std.specs.Prelude.{◌≡◌, map, IfOk};
ghost use Rattle.check_programs.specs.check_faces.specs.Offers.{offer};
ghost use Rattle.check_programs.specs.Views as parts;
ghost use Rattle.check_state.specs.Gives.{GivesOnly};
ghost use Rattle.check_rules.specs.CheckedModule as spec;
ghost use Rattle.interface_records.specs.PlainTypes.{plain_interface};
ghost use Rattle.mesa_types.specs.Plain.{plain as plain_module};
ghost use Rattle.syntax_trees.specs.PlainSyntax as plain;
ghost use Rattle.module_checker.specs.Modules as step;

use crate::starting::ProgramStart;
use check_known::check_directory::{all_listed, those_of};
use check_known::known_of;
use check_programs::check_faces::{Offer, exported, imported};
use check_programs::{Whole, program_body};
use check_rules::{Cause, CheckFault};
use check_scopes::Marks;
use check_state::Known;
use held_trees::both;
use interface_records::Interface;
use mesa_base::{Identifier, List, OutOfMemory, Shared, Texts};
use mesa_types::{Exports, Imports, Item, Items, TypedModule};
use std::alloc::Global;
use syntax_trees::Module;
use syntax_trees::syntax::{Inner, ModuleKind};

/// Copies of these heads.
fn copied(heads: &[Shared<Item>], alloc: Global) -> Result<Items, OutOfMemory>
    ensures { IfOk result (λ copy. copy ≡ heads.now) }
{
    let mut copy = List::new(alloc);
    for head in heads {
        copy.push(head.get().copy(alloc)?)?;
    }
    Ok(copy)
}

/// What a module imports, with those of its items that the text names.
fn imports_of(
    imports: &[Identifier],
    alloc: Global,
    module: &Module,
    interfaces: &[Interface],
    used: &Marks,
) -> Result<Imports, OutOfMemory>
    ensures { IfOk result (λ made. made ≡ step.imports_of (plain.syntax module.now) (map plain_interface interfaces.now) imports.now used.now) }
{
    let those = those_of(imports, alloc, module.directory.as_slice(), interfaces)?;
    imported(those.as_slice(), alloc, used)
}

/// What a module exports.
fn exports_of(
    exports: &[Identifier],
    alloc: Global,
    module: &Module,
    interfaces: &[Interface],
    offers: &[Offer],
) -> Result<Exports, CheckFault>
    ensures { GivesOnly (λ made. made) (step.exports_of (plain.syntax module.now) (map plain_interface interfaces.now) exports.now (map offer offers.now)) result }
{
    let those = those_of(exports, alloc, module.directory.as_slice(), interfaces)?;
    exported(offers, alloc, those.as_slice())
}

/// The module of a program that is checked whole.
#[tactic(auto, using(crate::proofs::InterfaceLaws::items_back))]
fn module_of(
    module: &Module,
    alloc: Global,
    interfaces: &[Interface],
    imports: &[Identifier],
    exports: &[Identifier],
    whole: Whole,
    strings: Texts,
) -> Result<TypedModule, CheckFault>
    ensures { GivesOnly plain_module (step.module_of (plain.syntax module.now) (map plain_interface interfaces.now) imports.now exports.now strings (parts.whole whole)) result }
{
    let Whole {
        signals,
        offers,
        procedures,
        body,
        used,
        globals,
    } = whole;
    let trees = (procedures, body);
    let exports = exports_of(exports, alloc, module, interfaces, offers.as_slice());
    let (trees, exports) = both(trees, exports)?;
    let imports = imports_of(imports, alloc, module, interfaces, &used);
    let (trees, imports) = both(trees, imports)?;
    let (trees, signals) = both(trees, copied(signals.as_slice(), alloc))?;
    let (trees, name) = both(trees, module.name.name.copy(alloc))?;
    let (procedures, body) = trees;
    Ok(TypedModule {
        name,
        imports,
        exports,
        globals,
        signals,
        strings,
        procedures,
        body,
    })
}

/// A program checked whole, with the string literals that it keeps.
fn read(
    module: &Module,
    alloc: Global,
    interfaces: &[Interface],
    imports: &[Identifier],
    opens: &[Identifier],
    inner: &Inner,
) -> Result<(Whole, Texts), CheckFault>
    ensures { GivesOnly (λ x. (parts.whole x.0, x.1)) (step.read (plain.syntax module.now) (map plain_interface interfaces.now) imports.now opens.now (plain.inner inner.now)) result }
{
    let known = known_of(module, alloc, None, true, imports, interfaces)?;
    let start = ProgramStart {
        alloc,
        module,
        interfaces,
        imports,
        opens,
        inner,
    };
    let whole = program_body(inner, alloc, &known, module.name.place, &start)?;
    let Known { strings, .. } = known;
    let whole = both(whole, strings.into_texts(alloc))?;
    Ok(whole)
}

/// A program with these lists.
fn program(
    module: &Module,
    alloc: Global,
    interfaces: &[Interface],
    imports: &[Identifier],
    exports: &[Identifier],
    opens: &[Identifier],
    inner: &Inner,
) -> Result<TypedModule, CheckFault>
    ensures { GivesOnly plain_module (spec.program (plain.syntax module.now) (map plain_interface interfaces.now) imports.now exports.now opens.now (plain.inner inner.now)) result }
{
    all_listed(module, alloc, interfaces, imports, exports, opens)?;
    let (whole, strings) = read(module, alloc, interfaces, imports, opens, inner)?;
    module_of(module, alloc, interfaces, imports, exports, whole, strings)
}

/// The typed module of a program, with the interfaces of its DIRECTORY in order. It refuses an interface, which has no stamp
/// (StampMissing), and else a text by its first fault: of its DIRECTORY, IMPORTS, EXPORTS and OPEN, of what stands in it, of what it
/// exports.
#[tactic(auto, unfolding(check_rules::specs::CheckedModule::checked))]
pub fn check(
    alloc: Global,
    module: &Module,
    interfaces: &[Interface],
) -> Result<TypedModule, CheckFault>
    ensures { GivesOnly plain_module (spec.checked (plain.syntax module.now) interfaces.now) result }
{
    match &module.kind {
        ModuleKind::Interface { place, .. } => { Err(CheckFault::At(Cause::StampMissing, *place)) }
        ModuleKind::Program {
            imports,
            exports,
            opens,
            inner,
            ..
        } => program(
            module,
            alloc,
            interfaces,
            imports.as_slice(),
            exports.as_slice(),
            opens.as_slice(),
            inner,
        ),
    }
}
