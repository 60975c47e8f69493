//! Texts of programs.

use crate::reading::{is_unknown, tree_of};
use check_rules::CheckFault;
use check_rules::held_trees::LetGo;
use check_rules::mesa_types::{Item, TypedModule};
use check_rules::syntax_trees::Module;
use module_checker::check;
use std::alloc::Global;
use std::test::Fail;

const TEXT: &[u8] = b"M: PROGRAM = BEGIN n: INTEGER; E: SIGNAL = CODE; \
    Step: PROCEDURE [k: INTEGER] = BEGIN SIGNAL E; END; Step[3]; END.";

/// It declares no procedure Step.
const TEXT_WITHOUT_STEP: &[u8] = b"M: PROGRAM = BEGIN Step[3]; END.";

fn is_named(item: &Item, name: &[u8]) -> bool {
    item.name.bytes() == name
}

/// Whether the module has what the text declares.
fn is_of_the_text(made: &TypedModule) -> bool {
    let signals = made.signals.as_slice();
    let procedures = made.procedures.as_slice();
    made.name.bytes() == b"M".as_slice()
        && made.globals.len() == 1
        && signals.len() == 1
        && procedures.len() == 1
        && is_named(&signals[0], b"E")
        && is_named(&procedures[0].head, b"Step")
}

fn has_module(alloc: Global, tree: &Module) -> bool {
    match check(alloc, tree, &[]) {
        Ok(made) => {
            let is_it = is_of_the_text(&made);
            made.let_go();
            is_it
        }
        Err(_fault) => false,
    }
}

fn is_checked(alloc: Global, text: &[u8]) -> Result<bool, Fail> {
    let tree = tree_of(alloc, text)?;
    let has_module = has_module(alloc, &tree);
    tree.let_go();
    Ok(has_module)
}

fn fault_in(alloc: Global, tree: &Module) -> Option<CheckFault> {
    match check(alloc, tree, &[]) {
        Ok(made) => {
            made.let_go();
            None
        }
        Err(fault) => Some(fault),
    }
}

fn is_refused(alloc: Global, text: &[u8], column: u32) -> Result<bool, Fail> {
    let tree = tree_of(alloc, text)?;
    let fault = fault_in(alloc, &tree);
    tree.let_go();
    Ok(fault.is_some_and(|fault| is_unknown(fault, column)))
}

#[test]
fn programs(rt: HostRuntime) -> Result<(), Fail> {
    let alloc = rt.alloc();
    assert!(rt; is_checked(alloc, TEXT)?);
    assert!(rt; is_refused(alloc, TEXT_WITHOUT_STEP, 20)?);
    Ok(())
}
