//! The frame of a procedure: its parameters, results, variables and hidden words.
ghost use Rattle.std.specs.Prelude.{◌≡◌};
ghost use Rattle.check_programs.specs.Frames as step;
ghost use Rattle.check_state.specs.Gives.{GivesOnly};
ghost use Rattle.check_state.specs.Views as words;
ghost use Rattle.check_rules.specs.Programs as spec;
ghost use Rattle.mesa_types.specs.Plain.{kinds_of};

use check_rules::{Cause, CheckFault};
use check_state::{Frame, State, words_of_fields};
use mesa_base::Place;
use mesa_base::limits::LOCAL_WORDS;
use mesa_types::FieldType;
use std::alloc::Global;
use std::mem::replace;

/// The variables and hidden words of the frame outside.
#[derive(Drop)]
pub struct Outside {
    pub variables: Frame,
    pub hidden: u64,
}

/// A frame begins, with no variable.
#[tactic(auto, unfolding(check_state::specs::Views::state))]
pub fn open_frame(alloc: Global, state: &mut State) -> Outside
    ensures variables { kinds_of result.variables.fields ≡ (words.state state.old).variables }
    ensures hidden { result.hidden ≡ (words.state state.old).hidden }
    ensures state { words.state state.new ≡ spec.fresh (words.state state.old) }
{
    let variables = replace(&mut state.variables, Frame::new(alloc));
    let hidden = replace(&mut state.hidden, 0);
    Outside { variables, hidden }
}

/// A frame ends, and its variables are handed over.
#[tactic(auto, unfolding(check_state::specs::Views::state))]
pub fn close_frame(state: &mut State, outside: Outside) -> Frame
    ensures variables { kinds_of result.fields ≡ (words.state state.old).variables }
    ensures state { words.state state.new ≡ record (words.state state.old) { variables = kinds_of outside.variables.fields; hidden = outside.hidden } }
{
    let Outside { variables, hidden } = outside;
    state.hidden = hidden;
    replace(&mut state.variables, variables)
}

/// The words of parameters, results, variables and hidden words together are limited.
#[tactic(auto, unfolding(check_state::specs::Views::state))]
pub fn few_locals(
    state: &State,
    takes: &[FieldType],
    gives: &[FieldType],
    place: Place,
) -> Result<(), CheckFault>
    ensures { GivesOnly (λ _. tt) (step.few_locals (words.fields takes.now) (words.fields gives.now) place (words.state state.now)) result }
{
    let parameters = u64::from(words_of_fields(takes)) + u64::from(words_of_fields(gives));
    let variables = parameters.saturating_add(state.variables.words());
    if variables.saturating_add(state.hidden) <= u64::from(LOCAL_WORDS) {
        Ok(())
    } else {
        Err(CheckFault::At(Cause::FrameTooLarge, place))
    }
}
