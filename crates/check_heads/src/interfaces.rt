//! All that an interface declares.
ghost use Rattle.std.specs.Prelude.{◌≡◌, ◌≢◌, Err, map, IfOk, OnOk};
ghost use Rattle.syntax_trees.specs.PlainSyntax as syntax;
ghost use Rattle.check_rules.specs.Definitions as spec;
ghost use Rattle.check_rules.specs.Steps as step;
ghost use Rattle.check_rules.specs.declared.fault.CheckFault.TheVariants.{Memory};
ghost use Rattle.check_state.specs.Gives.{Gives, GivesOnly, fault};
ghost use Rattle.check_state.specs.Views as words;
ghost use Rattle.check_heads.specs.Again as again;
ghost use Rattle.check_heads.specs.Forms as form;
ghost use Rattle.check_heads.specs.Views as view;

use crate::again::{Tries, second_fault};
use crate::definitions::{AllDefined, definition};
use check_rules::CheckFault;
use check_state::{Around, State};
use check_written_types::check_expressions::{Checker, Phrases};
use mesa_base::{Identifier, Identifiers, List, OutOfMemory};
use std::alloc::Global;
use syntax_trees::syntax::{Defined, Labeled};

/// What makes the state in which checking begins, as often as it is asked.
pub trait Starts {
    /// That state.
    ghost begins: { Self → step.State };

    fn start(&self) -> Result<State, OutOfMemory>
        ensures { IfOk result (λ state. words.state state ≡ begins self.now) };
}

/// A declaration of an interface behind those that have no fault.
#[derive(Drop)]
struct Behind<'a, P, S> {
    checker: &'a Checker<P>,
    around: &'a Around<'a>,
    start: &'a S,
    done: &'a [Labeled<Identifiers, Defined>],
}

impl<'a, P: Phrases, S: Starts> Tries<Labeled<Identifiers, Defined>> for Behind<'a, P, S> {
    ghost ask = { λ it. P.ask it.checker.now.phrases };

    ghost before = { λ it. again.after (spec.definition (words.around it.around.now)) (map syntax.definition it.done.now) (S.begins it.start.now) };

    ghost named = { λ d. d.labels };

    ghost rule = { λ it around d. again.dropped (spec.definition around (syntax.definition d)) };

    fn begin(&self) -> Result<State, CheckFault> {
        let mut state = self.start.start()?;
        for one in self.done {
            let _made = definition(one, self.checker, self.around, &mut state)?;
        }
        Ok(state)
    }

    fn names<'b>(&self, one: &'b Labeled<Identifiers, Defined>) -> &'b [Identifier] {
        one.labels.as_slice()
    }

    fn declare(
        &self,
        one: &Labeled<Identifiers, Defined>,
        around: &Around<'_>,
        state: &mut State,
    ) -> Result<(), CheckFault> {
        let _made = definition(one, self.checker, around, state)?;
        Ok(())
    }
}

impl AllDefined {
    fn none(alloc: Global) -> AllDefined
        ensures { view.defined result ≡ spec.nothing_defined }
    {
        AllDefined {
            items: List::new(alloc),
            constants: List::new(alloc),
            types: List::new(alloc),
        }
    }

    /// And what another declaration declares, behind all that is there.
    fn append(&mut self, other: AllDefined) -> Result<(), OutOfMemory>
        ensures { OnOk result (view.defined self.new ≡ spec.and_defined (view.defined self.old) (view.defined other)) }
    {
        let AllDefined {
            items,
            constants,
            types,
        } = other;
        self.items.append(items)?;
        self.constants.append(constants)?;
        self.types.append(types)?;
        Ok(())
    }
}

/// The fault of a declaration behind those that are done, before these others.
fn fault_of<P: Phrases, S: Starts>(
    checker: &Checker<P>,
    around: &Around<'_>,
    start: &S,
    done: &[Labeled<Identifiers, Defined>],
    one: &Labeled<Identifiers, Defined>,
    others: &[Labeled<Identifiers, Defined>],
    first: CheckFault,
) -> CheckFault
    requires ask { P.ask checker.now.phrases }
    requires first { first ≢ Memory → spec.definition (words.around around.now) (syntax.definition one.now) (again.after (spec.definition (words.around around.now)) (map syntax.definition done.now) (S.begins start.now)) ≡ Err (fault first) }
    ensures { result ≢ Memory → form.before (words.around around.now) (syntax.definition one.now) (map syntax.definition others.now) (again.after (spec.definition (words.around around.now)) (map syntax.definition done.now) (S.begins start.now)) ≡ Err (fault result) }
{
    let behind = Behind {
        checker,
        around,
        start,
        done,
    };
    second_fault(&behind, checker.alloc, around, one, others, first)
}

/// All that an interface declares, with the state behind it.
pub fn all_defined<P: Phrases, S: Starts>(
    definitions: &[Labeled<Identifiers, Defined>],
    checker: &Checker<P>,
    around: &Around<'_>,
    start: &S,
) -> Result<(AllDefined, State), CheckFault>
    requires { P.ask checker.now.phrases }
    ensures { GivesOnly (λ x. (view.defined x.0, words.state x.1)) (spec.all_defined (words.around around.now) (map syntax.definition definitions.now) (S.begins start.now)) result }
{
    let mut state = start.start()?;
    let mut all = AllDefined::none(checker.alloc);
    for at in 0..definitions.len() {
        let one = &definitions[at];
        match definition(one, checker, around, &mut state) {
            Ok(made) => all.append(made)?,
            Err(first) => {
                let done = &definitions[..at];
                let others = &definitions[at + 1..];
                return Err(fault_of(checker, around, start, done, one, others, first));
            }
        }
    }
    Ok((all, state))
}
