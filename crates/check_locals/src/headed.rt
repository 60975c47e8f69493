//! What a declaration leaves behind when its head is read.
ghost use Rattle.interface_records.specs.PlainTypes.{plain};
ghost use Rattle.check_rules.specs.Statements as rule;
ghost use Rattle.check_state.specs.Gives.{Gives};
ghost use Rattle.check_state.specs.Views as words;
ghost use Rattle.check_locals.specs.Views as view;

use check_rules::CheckFault;
use check_scopes::Names;
use check_simple_statements::check_declared::declare_variables;
use check_state::{Around, Meaning, State};
use held_trees::{InList, LetGo, both};
use mesa_base::{Identifier, List};
use mesa_types::{Homes, TypeTree};
use std::alloc::Global;
use std::mem::drop;

/// What a declaration leaves for the place at which its initial value is given.
#[derive(Drop)]
pub enum Headed {
    Nothing,
    /// Its variables.
    Variables {
        homes: Homes,
        kind: TypeTree,
        /// The names that its initial value sees.
        seen: Names<Meaning>,
        /// The words of operands of its type.
        words: u64,
    },
}

impl LetGo for Headed {
    fn let_go(self) {
        drop(self);
    }
}

impl InList for Headed {
    fn let_list_go(list: List<Headed>) {
        drop(list);
    }
}

/// Variables of a type that has been read, visible from here on.
#[tactic(auto, using(crate::proofs::HeadClauses::declare_is))]
pub(crate) fn declare(
    names: &[Identifier],
    alloc: Global,
    around: &Around<'_>,
    state: &mut State,
    kind: TypeTree,
    operands: u64,
) -> Result<Headed, CheckFault>
    ensures { Gives view.headed (rule.declare (words.around around.now) names.now (plain kind) operands (words.state state.old)) result (words.state state.new) }
{
    let (kind, seen) = both(kind, state.top(alloc))?;
    let homes = declare_variables(names, &kind, alloc, around, state);
    let (kind, homes) = both(kind, homes)?;
    Ok(Headed::Variables {
        homes,
        kind,
        seen,
        words: operands,
    })
}
