//! The declarations of a program in the order of its text. One that has a fault is tried again, with the heads further on: then the
//! state before it is made anew.
ghost use Rattle.std.specs.Prelude.{List, map, take};
ghost use Rattle.mesa_base.specs.declared.identifier.Identifier.{Identifier as Named};
ghost use Rattle.check_programs.specs.Again as again;
ghost use Rattle.check_programs.specs.Found.{all_found, nothing_found};
ghost use Rattle.check_programs.specs.Views as view;
ghost use Rattle.check_state.specs.Gives.{GivesOnly};
ghost use Rattle.check_state.specs.Views as words;
ghost use Rattle.check_rules.specs.Programs as spec;
ghost use Rattle.syntax_trees.specs.PlainSyntax as plain;
ghost use Rattle.syntax_trees.specs.declared.syntax.Declaration.{Declaration as Declares};

use crate::catches::Catches;
use crate::declaring::declaration;
use crate::found::{Found, Numbers};
use check_heads::{Starts, Tries, second_fault};
use check_rules::CheckFault;
use check_state::{Around, State};
use check_statement_lists::check_expressions::Checker;
use mesa_base::Identifier;
use syntax_trees::syntax::Declaration;

/// A declaration that has a fault, with those before it, which have none.
#[derive(Drop)]
struct Again<'a, S> {
    before: &'a [Declaration],
    numbers: Numbers,
    checker: &'a Checker<Catches>,
    around: &'a Around<'a>,
    start: &'a S,
}

impl<'a, S: Starts> Tries<Declaration> for Again<'a, S> {
    ghost ask = { λ _. Unit {0} };

    ghost before = { λ t. (again.so_far (words.around t.around.now) (map plain.declaration t.before.now) (nothing_found, S.begins t.start.now)).1 };

    ghost named = { λ d. d.names };

    ghost rule = { λ t a d. again.dropped (spec.declaration t.numbers.procedure t.numbers.signal a (plain.declaration d)) };

    fn begin(&self) -> Result<State, CheckFault> {
        let mut state = self.start.start()?;
        let mut found = Found::new(self.checker.alloc);
        for one in self.before {
            let numbers = found.numbers()?;
            declaration(
                one,
                self.checker,
                self.around,
                &mut state,
                numbers,
                &mut found,
            )?;
        }
        Ok(state)
    }

    fn names<'b>(&self, one: &'b Declaration) -> &'b [Identifier] {
        one.names.as_slice()
    }

    fn declare(
        &self,
        one: &Declaration,
        around: &Around<'_>,
        state: &mut State,
    ) -> Result<(), CheckFault> {
        let mut found = Found::new(self.checker.alloc);
        declaration(one, self.checker, around, state, self.numbers, &mut found)
    }
}

/// The heads of all declarations.
pub fn all_declared<S: Starts>(
    declarations: &[Declaration],
    checker: &Checker<Catches>,
    around: &Around<'_>,
    start: &S,
) -> Result<(Found, State), CheckFault>
    ensures { GivesOnly (λ x. (view.found x.0, words.state x.1)) (all_found (words.around around.now) (map plain.declaration declarations.now) (S.begins start.now)) result }
{
    let mut state = start.start()?;
    let mut found = Found::new(checker.alloc);
    for count in 0..declarations.len() {
        let one = &declarations[count];
        let numbers = found.numbers()?;
        if let Err(first) = declaration(one, checker, around, &mut state, numbers, &mut found) {
            let before = &declarations[..count];
            let again = Again {
                before,
                numbers,
                checker,
                around,
                start,
            };
            return Err(second_fault(
                &again,
                checker.alloc,
                around,
                one,
                &declarations[count + 1..],
                first,
            ));
        }
    }
    Ok((found, state))
}
