//! The trees of texts, and the faults that checking may find in them.

use check_rules::syntax_trees::Module;
use check_rules::{Cause, CheckFault};
use mesa_grammar::module;
use mesa_lexer::tokens;
use std::alloc::Global;
use std::test::Fail;

/// The tree of a text that has one.
pub fn tree_of(alloc: Global, text: &[u8]) -> Result<Module, Fail> {
    let tokens = tokens(alloc, text).ok().ok_or("a lexical fault")?;
    match module(alloc, &tokens) {
        Ok(tree) => Ok(tree),
        Err(_fault) => Err(Fail::new("a syntax fault")),
    }
}

/// Whether a name that stands at this column of the first line is unknown.
pub fn is_unknown(fault: CheckFault, column: u32) -> bool {
    matches!(fault, CheckFault::At(Cause::UnknownName, place) if place.line == 1 && place.column == column)
}
