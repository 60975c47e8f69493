//! The body of a procedure.
ghost use Rattle.std.specs.Prelude.{◌≡◌, IfOk};
ghost use Rattle.check_state.specs.Gives.{Gives};
ghost use Rattle.check_state.specs.Views as words;
ghost use Rattle.check_rules.specs.Around.{body_of};
ghost use Rattle.check_rules.specs.Checking.{block as block_rule};
ghost use Rattle.interface_records.specs.PlainTypes.{plain_item};
ghost use Rattle.check_rules.specs.Programs as spec;
ghost use Rattle.check_rules.specs.Steps.{in_scope};
ghost use Rattle.mesa_types.specs.Plain.{kinds_of, plain_procedure, stmt};
ghost use Rattle.syntax_trees.specs.PlainSyntax as plain;

use crate::found::ProcedureHead;
use crate::frames::{close_frame, few_locals, open_frame};
use check_rules::CheckFault;
use check_scopes::Names;
use check_state::{ArmHere, Around, Known, Meaning, State};
use check_statement_lists::check_declared::{few_operands, first_name};
use check_statements::block;
use held_trees::{both, shared};
use mesa_base::{Identifier, OutOfMemory};
use mesa_types::{FieldType, Fields, Item, TypedBody, TypedProcedure, TypedStmt};
use std::alloc::Global;
use syntax_trees::syntax::Block;

/// What stands around a body.
#[tactic(auto, unfolding(check_state::specs::Views::around))]
pub fn around_body<'a>(
    known: &'a Known,
    takes: &'a [FieldType],
    gives: &'a [FieldType],
) -> Around<'a>
    ensures { words.around result ≡ body_of (words.known known.now) (words.fields takes.now) (words.fields gives.now) }
{
    Around {
        known,
        is_outermost: false,
        constant: None,
        further: None,
        takes,
        gives,
        statement: 0,
        marked: 0,
        labels: None,
        labelled: 0,
        repeated: None,
        arms: 0,
        unwinding: 0,
        arm: ArmHere::NoArm,
    }
}

/// The block of a procedure, in the scope of its parameters and results.
fn body(
    one: &Block,
    alloc: Global,
    around: &Around<'_>,
    state: &mut State,
    scope: Names<Meaning>,
) -> Result<TypedStmt, CheckFault>
    ensures { Gives stmt (in_scope (words.names scope) (block_rule (words.around around.now) (plain.block one.now)) (words.state state.old)) result (words.state state.new) }
{
    let coming = state.enter(alloc, scope)?;
    let does = block(one, alloc, around, state)?;
    state.leave(coming);
    Ok(does)
}

fn made(
    head: &Item,
    alloc: Global,
    variables: Fields,
    does: TypedStmt,
) -> Result<TypedProcedure, OutOfMemory>
    ensures { IfOk result (λ made. plain_procedure made ≡ record { head = head.now; body = record { variables = kinds_of variables; does = stmt does } }) }
{
    let (does, head) = both(does, head.copy(alloc))?;
    let does = shared(alloc, does)?;
    Ok(TypedProcedure {
        head,
        body: TypedBody { variables, does },
    })
}

/// A procedure with this head. The operands of its head count as those of a statement, and are looked at behind its body.
#[tactic(auto, using(crate::proofs::ItemLaws::item_back), unfolding(check_rules::specs::Programs::procedure))]
pub fn procedure(
    names: &[Identifier],
    head: ProcedureHead,
    one: &Block,
    known: &Known,
    alloc: Global,
    state: &mut State,
) -> Result<TypedProcedure, CheckFault>
    ensures { Gives plain_procedure (spec.procedure (words.known known.now) names.now (plain_item head.item) (words.names head.scope) head.operands (plain.block one.now) (words.state state.old)) result (words.state state.new) }
{
    let ProcedureHead {
        item,
        scope,
        operands,
    } = head;
    let head = item.get();
    let (takes, gives) = (head.takes.as_slice(), head.gives.as_slice());
    let outside = open_frame(alloc, state);
    let does = body(one, alloc, &around_body(known, takes, gives), state, scope)?;
    let place = first_name(names);
    let (does, ()) = both(does, few_locals(state, takes, gives, place))?;
    let (does, ()) = both(does, few_operands(0, operands, place))?;
    let variables = close_frame(state, outside).fields.into_list(alloc);
    let (does, variables) = both(does, variables)?;
    Ok(made(head, alloc, variables, does)?)
}
