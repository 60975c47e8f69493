//! A statement with a number, where a phrase belongs to it.
ghost use Rattle.std.specs.Prelude.{◌≡◌, IfOk};
ghost use Rattle.mesa_types.specs.Plain.{stmt};
ghost use Rattle.check_state.specs.Views as view;
ghost use Rattle.check_statements.specs.Rules as rules;

use crate::making::marked;
use check_state::Around;
use held_trees::boxed;
use mesa_base::OutOfMemory;
use mesa_types::TypedStmt;
use std::alloc::Global;

/// What stands around the parts of a statement, where it has a number or none.
pub fn within<'a>(is_numbered: bool, around: &Around<'a>) -> Result<Around<'a>, OutOfMemory>
    ensures { IfOk result (λ inner. view.around inner ≡ rules.within is_numbered (view.around around.now)) }
{
    if is_numbered {
        around.in_statement()
    } else {
        Ok(*around)
    }
}

/// The statement with its number, where it has one.
#[tactic(auto, unfolding(check_state::specs::Views::around))]
pub fn marked_if(
    made: TypedStmt,
    alloc: Global,
    is_numbered: bool,
    around: &Around<'_>,
) -> Result<TypedStmt, OutOfMemory>
    ensures { IfOk result (λ whole. stmt whole ≡ rules.marked_if is_numbered (view.around around.now) (stmt made)) }
{
    if is_numbered {
        Ok(marked(around.marked, boxed(alloc, made)?))
    } else {
        Ok(made)
    }
}
