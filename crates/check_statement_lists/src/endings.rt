//! The statements of an EXITS or a REPEAT, with the numbers of their labels.
ghost use Rattle.std.specs.Prelude.{◌≡◌, ◌+◌, ◌++◌, ◌||◌, [], ℕ, List, false, true, length, is_some, IfOk, OnOk};
ghost use Rattle.mesa_types.specs.Plain as tree;
ghost use Rattle.syntax_trees.specs.PlainSyntax as plain;
ghost use Rattle.mesa_types.specs.Typed as t;
ghost use Rattle.check_rules.specs.Checking as spec;
ghost use Rattle.check_rules.specs.Parts.{names_of};
ghost use Rattle.check_rules.specs.Statements as rule;
ghost use Rattle.check_state.specs.Gives.{Gives};
ghost use Rattle.check_state.specs.Views as view;
ghost use Rattle.check_declared.specs.Naming.{HasNames};
ghost use Rattle.check_statement_lists.specs.Turns as turns;
ghost use Rattle.check_statement_lists.specs.Views as views;

use crate::nesting::Nested;
use crate::phrases::NestedChecker;
use check_declared::check_jumps::names_of;
use check_declared::{different, new_labels, numbers_from};
use check_rules::CheckFault;
use check_scopes::Names;
use check_state::{Around, State};
use held_trees::{LetGo, both, pushed};
use mesa_base::{Identifier, List, OutOfMemory};
use mesa_types::{Exit, Exits, TypedStmt};
use std::alloc::Global;
use syntax_trees::syntax::{self, Repeat, RepeatLabels};

/// The labels so far: their names, and the number of the next.
#[derive(Drop)]
pub struct Taken {
    pub names: Names<bool>,
    pub next: u32,
}

/// The statements of a REPEAT: those of its labels, and that of FINISHED.
pub struct Left {
    pub exits: Exits,
    pub finished: Option<TypedStmt>,
}

impl LetGo for Left {
    fn let_go(self) {
        let Left { exits, finished } = self;
        exits.let_go();
        finished.let_go();
    }
}

/// The number behind those of these names.
fn number_behind(first: u32, names: &[Identifier]) -> Result<u32, OutOfMemory>
    ensures { IfOk result (λ number. number ≡ first + length names.now) }
{
    match u32::try_from(names.len()) {
        Ok(count) => match first.checked_add(count) {
            Some(number) => Ok(number),
            None => Err(OutOfMemory),
        },
        Err(_) => Err(OutOfMemory),
    }
}

/// With the statement of some labels more.
#[tactic(auto, using(crate::proofs::ListLaws::onto_exit))]
fn with_exit(done: Left, exit: Exit) -> Result<Left, OutOfMemory>
    ensures left { IfOk result (λ more. views.onto more ≡ (λ later. views.onto done (record { exits = tree.exit exit later.exits; finished = later.finished }))) }
    ensures finished { IfOk result (λ more. more.finished ≡ done.finished) }
{
    let Left { exits, finished } = done;
    let (finished, exits) = both(finished, pushed(exits, exit))?;
    Ok(Left { exits, finished })
}

/// With the statement of FINISHED; where there is one already it stays.
fn with_finished(done: Left, body: TypedStmt) -> Left
    ensures left { views.onto result ≡ (λ later. views.onto done (record { exits = later.exits; finished = t.Finished (tree.stmt body) })) }
    ensures finished { is_some result.finished ≡ true }
{
    let Left { exits, finished } = done;
    match finished {
        None => Left {
            exits,
            finished: Some(body),
        },
        Some(first) => {
            body.let_go();
            Left {
                exits,
                finished: Some(first),
            }
        }
    }
}

/// With one statement more, of these labels of a REPEAT, whose first has this number.
fn also_left(
    done: Left,
    alloc: Global,
    labels: &RepeatLabels,
    first: u32,
    body: TypedStmt,
) -> Result<Left, OutOfMemory>
    ensures left { IfOk result (λ more. views.onto more ≡ (λ later. views.onto done (rule.also_left labels.now first (tree.stmt body) later))) }
    ensures finished { IfOk result (λ more. is_some more.finished ≡ (is_some done.finished || rule.is_finished labels.now)) }
{
    match labels {
        RepeatLabels::Named(names) => {
            let numbers = numbers_from(names.as_slice(), alloc, first);
            let ((done, body), labels) = both((done, body), numbers)?;
            with_exit(done, Exit { labels, body })
        }
        RepeatLabels::Finished(_) => Ok(with_finished(done, body)),
    }
}

impl<N: Nested> NestedChecker<N> {
    /// The statements of an EXITS, whose first label has the number of those around it.
    pub fn exits(
        &self,
        all: &[syntax::Exit],
        around: &Around<'_>,
        state: &mut State,
    ) -> Result<Exits, CheckFault>
        requires { N.ask self.now.nested }
        ensures { Gives views.exits (spec.exits (view.around around.now) (view.around around.now).labelled [] (plain.exits all.now) (view.state state.old)) result (view.state state.new) }
    {
        let mut taken = Taken {
            names: Names::new(self.alloc),
            next: around.labelled,
        };
        let mut done = List::new(self.alloc);
        for one in all {
            let (held, exit) = both(done, self.exit(one, around, state, &mut taken))?;
            done = pushed(held, exit)?;
        }
        Ok(done)
    }

    /// The statement of some labels of an EXITS.
    #[tactic(auto, unfolding(crate::specs::Turns::one_exit))]
    fn exit(
        &self,
        one: &syntax::Exit,
        around: &Around<'_>,
        state: &mut State,
        taken: &mut Taken,
    ) -> Result<Exit, CheckFault>
        requires { N.ask self.now.nested }
        ensures outcome { (before : List (List ℕ)) → HasNames taken.old.names before
            → Gives tree.exit (turns.one_exit (view.around around.now) taken.old.next before one.now (view.state state.old)) result (view.state state.new) }
        ensures names { OnOk result ((before : List (List ℕ)) → HasNames taken.old.names before → HasNames taken.new.names (before ++ names_of one.now.labels)) }
        ensures next { OnOk result (taken.new.next ≡ taken.old.next + length one.now.labels) }
    {
        let names = one.labels.as_slice();
        different(names, self.alloc, &mut taken.names)?;
        let body = self.nested.statement(&one.item, around, state)?;
        let (body, labels) = both(body, numbers_from(names, self.alloc, taken.next))?;
        let (body, next) = both(body, number_behind(taken.next, names))?;
        taken.next = next;
        Ok(Exit { labels, body })
    }

    /// The statements of a REPEAT.
    pub fn repeats(
        &self,
        all: &[Repeat],
        around: &Around<'_>,
        state: &mut State,
    ) -> Result<Left, CheckFault>
        requires { N.ask self.now.nested }
        ensures { Gives views.left (spec.repeats (view.around around.now) (view.around around.now).labelled [] false (plain.repeats all.now) (view.state state.old)) result (view.state state.new) }
    {
        let mut taken = Taken {
            names: Names::new(self.alloc),
            next: around.labelled,
        };
        let mut done = Left {
            exits: List::new(self.alloc),
            finished: None,
        };
        for one in all {
            done = self.repeat(one, around, state, &mut taken, done)?;
        }
        Ok(done)
    }

    /// The statement of some labels of a REPEAT, or of FINISHED, with those before it.
    #[tactic(auto, unfolding(crate::specs::Turns::one_repeat, crate::specs::Turns::repeat_behind))]
    fn repeat(
        &self,
        one: &Repeat,
        around: &Around<'_>,
        state: &mut State,
        taken: &mut Taken,
        done: Left,
    ) -> Result<Left, CheckFault>
        requires { N.ask self.now.nested }
        ensures outcome { (before : List (List ℕ)) → HasNames taken.old.names before
            → Gives views.onto (turns.repeat_behind (view.around around.now) taken.old.next before (is_some done.finished) one.now (views.onto done) (view.state state.old)) result (view.state state.new) }
        ensures names { OnOk result ((before : List (List ℕ)) → HasNames taken.old.names before → HasNames taken.new.names (before ++ names_of (rule.labels_of one.now.labels))) }
        ensures next { OnOk result (taken.new.next ≡ taken.old.next + length (rule.labels_of one.now.labels)) }
        ensures finished { IfOk result (λ more. is_some more.finished ≡ (is_some done.finished || rule.is_finished one.now.labels)) }
    {
        let is_finished = done.finished.is_some();
        let (done, _) = both(
            done,
            new_labels(&one.labels, self.alloc, &mut taken.names, is_finished),
        )?;
        let (done, body) = both(done, self.nested.statement(&one.item, around, state))?;
        let first = taken.next;
        let (held, next) = both((done, body), number_behind(first, names_of(&one.labels)))?;
        taken.next = next;
        let (done, body) = held;
        Ok(also_left(done, self.alloc, &one.labels, first, body)?)
    }
}
