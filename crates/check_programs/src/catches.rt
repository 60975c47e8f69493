//! What checks the catch phrases of heads and initial values.

use check_rules::CheckFault;
use check_state::{Around, State};
use check_statement_lists::check_expressions::Phrases;
use check_statements::phrase;
use mesa_types::Phrase;
use std::alloc::Global;
use syntax_trees::syntax;

/// The check of catch phrases, with all that stands in them.
#[derive(Clone, Copy)]
pub struct Catches {
    pub alloc: Global,
}

impl Phrases for Catches {
    ghost ask = { λ _. Unit {0} };

    fn phrase(
        &self,
        catch: &Option<syntax::Phrase>,
        around: &Around<'_>,
        state: &mut State,
    ) -> Result<Phrase, CheckFault> {
        phrase(catch, self.alloc, around, state)
    }
}
