//! A statement from its start to its end: its operands are counted, and it has a number where a phrase belongs to it.
ghost use Rattle.std.specs.Prelude.{◌≡◌, IfOk};
ghost use Rattle.mesa_types.specs.Plain.{stmt};
ghost use Rattle.mesa_types.specs.Typed as t;
ghost use Rattle.check_state.specs.Gives.{Gives};
ghost use Rattle.check_state.specs.Views as words;
ghost use Rattle.check_simple_statements.specs.Whole as steps;

use check_declared::few_operands;
use check_rules::CheckFault;
use check_state::{Around, State};
use held_trees::{both, boxed};
use mesa_base::{Boxed, OutOfMemory, Place};
use mesa_types::TypedStmt;
use std::alloc::Global;

/// A statement in hand.
#[derive(Clone, Copy)]
pub struct Whole<'a> {
    /// What stands around its parts.
    pub inner: Around<'a>,
    pub number: Option<u32>,
    /// The words of operands that were counted for it before.
    pub before: u64,
    pub place: Place,
    /// The words of operands that are counted outside.
    pub outside: u64,
}

#[tactic(auto, unfolding(check_state::specs::Views::around))]
fn around_if<'a>(around: &Around<'a>, has_phrase: bool) -> Result<Around<'a>, OutOfMemory>
    ensures { IfOk result (λ inner. words.around inner ≡ steps.around_if has_phrase (words.around around.now)) }
{
    if has_phrase {
        around.in_statement()
    } else {
        Ok(*around)
    }
}

fn marked(number: u32, made: Boxed<TypedStmt>) -> TypedStmt
    ensures { stmt result ≡ t.Marked number (stmt made) }
{
    TypedStmt::Marked(number, made)
}

impl<'a> Whole<'a> {
    /// A statement begins at this place, for which so many words of operands were counted before.
    #[tactic(auto, unfolding(check_state::specs::Views::around))]
    pub fn begin(
        around: &Around<'a>,
        state: &mut State,
        has_phrase: bool,
        before: u64,
        place: Place,
    ) -> Result<Whole<'a>, OutOfMemory>
        ensures inner { IfOk result (λ made. words.around made.inner ≡ steps.around_if has_phrase (words.around around.now)) }
        ensures number { IfOk result (λ made. made.number ≡ steps.number_if has_phrase (words.around around.now)) }
        ensures before { IfOk result (λ made. made.before ≡ before) }
        ensures place { IfOk result (λ made. made.place ≡ place) }
        ensures outside { IfOk result (λ made. made.outside ≡ (words.state state.old).operands) }
        ensures state { words.state state.new ≡ record (words.state state.old) { operands = 0 } }
    {
        let outside = state.count_from(0);
        let number = if has_phrase {
            Some(around.marked)
        } else {
            None
        };
        Ok(Whole {
            inner: around_if(around, has_phrase)?,
            number,
            before,
            place,
            outside,
        })
    }

    /// The statement that is checked so far ends. Too many words of operands are refused at its place.
    pub fn end(
        &self,
        alloc: Global,
        state: &mut State,
        made: TypedStmt,
    ) -> Result<TypedStmt, CheckFault>
        ensures { Gives stmt (steps.ended self.now.number self.now.before self.now.place self.now.outside (stmt made) (words.state state.old)) result (words.state state.new) }
    {
        let few = count_ended(state, self.before, self.place, self.outside);
        let (made, _) = both(made, few)?;
        match self.number {
            None => Ok(made),
            Some(number) => Ok(marked(number, boxed(alloc, made)?)),
        }
    }
}

/// What was counted since `State::count_from` is not too much, and does not count outside.
pub fn count_ended(
    state: &mut State,
    before: u64,
    place: Place,
    outside: u64,
) -> Result<(), CheckFault>
    ensures { Gives (λ _. tt) (steps.counted before place outside (words.state state.old)) result (words.state state.new) }
{
    let counted = state.count_from(outside);
    few_operands(before, counted, place)
}
