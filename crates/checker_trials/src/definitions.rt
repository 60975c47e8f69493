//! Texts of definitions, with the built-in interface for their DIRECTORY.

use crate::reading::{is_unknown, tree_of};
use check_rules::CheckFault;
use check_rules::held_trees::{LetGo, both};
use check_rules::mesa_base::Stamp;
use check_rules::syntax_trees::Module;
use interface_records::{Interface, iodefs};
use module_checker::check_definitions;
use std::alloc::Global;
use std::slice::from_ref;
use std::test::Fail;

const TEXT: &[u8] =
    b"DIRECTORY IODefs: FROM \"IODefs\"; D: DEFINITIONS = BEGIN Few: TYPE = INTEGER [0..9]; most: Few = 7; \
    Step: PROCEDURE [n: Few] RETURNS [Few]; Odd: ERROR; END.";

/// It declares no type Few.
const TEXT_WITHOUT_FEW: &[u8] =
    b"DIRECTORY IODefs: FROM \"IODefs\"; D: DEFINITIONS = BEGIN Step: PROCEDURE [n: Few]; END.";

const STAMP: u64 = 170;

/// Whether the interface has what the text declares, in its order.
fn is_of_the_text(made: &Interface) -> bool {
    let items = made.face.items.as_slice();
    let constants = made.constants.as_slice();
    let types = made.types.as_slice();
    made.face.name.bytes() == b"D".as_slice()
        && made.face.stamp.number() == STAMP
        && items.len() == 2
        && constants.len() == 1
        && types.len() == 1
        && items[0].name.bytes() == b"Step".as_slice()
        && items[1].name.bytes() == b"Odd".as_slice()
        && constants[0].value == 7
        && types[0].name.bytes() == b"Few".as_slice()
}

fn has_interface(alloc: Global, tree: &Module, given: &[Interface]) -> bool {
    match check_definitions(alloc, tree, Stamp::new(STAMP), given) {
        Ok(made) => {
            let is_it = is_of_the_text(&made);
            made.let_go();
            is_it
        }
        Err(_fault) => false,
    }
}

/// The tree of a text, and the built-in interface.
fn read(alloc: Global, text: &[u8]) -> Result<(Module, Interface), Fail> {
    let tree = tree_of(alloc, text)?;
    let (tree, given) = both(tree, iodefs(alloc))?;
    Ok((tree, given))
}

fn is_checked(alloc: Global, text: &[u8]) -> Result<bool, Fail> {
    let (tree, given) = read(alloc, text)?;
    let has_interface = has_interface(alloc, &tree, from_ref(&given));
    (tree, given).let_go();
    Ok(has_interface)
}

fn fault_in(alloc: Global, tree: &Module, given: &[Interface]) -> Option<CheckFault> {
    match check_definitions(alloc, tree, Stamp::new(STAMP), given) {
        Ok(made) => {
            made.let_go();
            None
        }
        Err(fault) => Some(fault),
    }
}

fn is_refused(alloc: Global, text: &[u8], column: u32) -> Result<bool, Fail> {
    let (tree, given) = read(alloc, text)?;
    let fault = fault_in(alloc, &tree, from_ref(&given));
    (tree, given).let_go();
    Ok(fault.is_some_and(|fault| is_unknown(fault, column)))
}

#[test]
fn definitions(rt: HostRuntime) -> Result<(), Fail> {
    let alloc = rt.alloc();
    assert!(rt; is_checked(alloc, TEXT)?);
    assert!(rt; is_refused(alloc, TEXT_WITHOUT_FEW, 77)?);
    Ok(())
}
