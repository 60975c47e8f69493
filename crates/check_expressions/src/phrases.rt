//! Catch phrases, whose arms are statements: what checks those stands in a crate above.
ghost use Rattle.mesa_types.specs.Plain as tree;
ghost use Rattle.syntax_trees.specs.PlainSyntax as plain;
ghost use Rattle.check_rules.specs.Checking as spec;
ghost use Rattle.check_state.specs.Gives.{Gives};
ghost use Rattle.check_state.specs.Views as view;

use check_rules::CheckFault;
use check_state::{Around, State};
use mesa_types::Phrase;
use syntax_trees::syntax;

/// What checks catch phrases.
pub trait Phrases {
    /// It may be asked.
    ghost ask: { Self → Type 0 };

    /// The phrase of a call or raise, if there is one.
    fn phrase(
        &self,
        catch: &Option<syntax::Phrase>,
        around: &Around<'_>,
        state: &mut State,
    ) -> Result<Phrase, CheckFault>
        requires { ask self.now }
        ensures { Gives tree.phrase (spec.phrase (view.around around.now) (plain.phrase catch.now) (view.state state.old)) result (view.state state.new) };
}
