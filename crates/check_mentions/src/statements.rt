//! Statements: what each is made of, put before what stands behind it.
ghost use Rattle.std.specs.Prelude.{◌≡◌, ◌++◌, OnOk};
ghost use Rattle.syntax_trees.specs.PlainSyntax as plain;
ghost use Rattle.check_rules.specs.Mentions as spec;
ghost use Rattle.check_mentions.specs.Parts.{ahead};

use crate::parts::{Part, Parts};
use mesa_base::{Boxed, OutOfMemory};
use syntax_trees::syntax::{
    Block, Case, Condition, Control, Count, Entries, Exit, Keyed, Left, ListExpr, Local, Repeat,
    Statement, Test,
};

impl<'a> Parts<'a> {
    #[tactic(auto, using(syntax_trees::proofs::PlainForms::statement_forms, crate::proofs::Clauses::forms_of_statements))]
    pub fn statement(&mut self, statement: &'a Statement) -> Result<(), OutOfMemory>
        ensures { OnOk result (ahead self.new ≡ spec.of_stmt (plain.statement statement.now) ++ ahead self.old) }
    {
        match statement {
            Statement::Nested(block) => self.block(block),
            Statement::Assign(left, value) => {
                self.put(Part::Expression(value))?;
                self.left(left)
            }
            Statement::Extract(_, targets, value) => {
                self.put(Part::Expression(value))?;
                self.targets(targets)
            }
            Statement::Call(left) => self.left(left),
            Statement::RaiseStatement(raise) => self.raise(raise.get()),
            Statement::If(_, test, then, other) => {
                self.otherwise(other)?;
                self.put(Part::Statement(then.get()))?;
                self.put(Part::Expression(test))
            }
            Statement::Select(_, value, cases, other) => {
                self.otherwise(other)?;
                self.put(Part::Cases(cases.as_slice()))?;
                self.put(Part::Expression(value))
            }
            Statement::Loop(control, _, enable, body, repeats) => {
                self.put(Part::Repeats(repeats.as_slice()))?;
                self.put(Part::Statements(body.as_slice()))?;
                self.phrase(enable)?;
                self.control(control.get())
            }
            Statement::Return(_, values) | Statement::Resume(_, values) => self.results(values),
            Statement::Null(_)
            | Statement::ExitLoop(_)
            | Statement::NextTurn(_)
            | Statement::Goto(_, _)
            | Statement::Reject(_)
            | Statement::Retry(_)
            | Statement::Continue(_) => Ok(()),
        }
    }

    #[tactic(auto, using(crate::proofs::Clauses::maybe_statements))]
    pub fn otherwise(&mut self, other: &'a Option<Boxed<Statement>>) -> Result<(), OutOfMemory>
        ensures { OnOk result (ahead self.new ≡ spec.of_other (plain.maybe_statement other.now) ++ ahead self.old) }
    {
        match other {
            None => Ok(()),
            Some(statement) => self.put(Part::Statement(statement.get())),
        }
    }

    #[tactic(auto, using(crate::proofs::Clauses::maybe_values))]
    pub fn results(&mut self, values: &'a Option<ListExpr>) -> Result<(), OutOfMemory>
        ensures { OnOk result (ahead self.new ≡ spec.of_values (plain.maybe_items values.now) ++ ahead self.old) }
    {
        match values {
            None => Ok(()),
            Some(values) => self.items(&values.item),
        }
    }

    #[tactic(auto, using(crate::proofs::Clauses::targets))]
    pub fn targets(&mut self, targets: &'a Entries<Left>) -> Result<(), OutOfMemory>
        ensures { OnOk result (ahead self.new ≡ spec.of_targets (plain.targets targets.now) ++ ahead self.old) }
    {
        match targets {
            Entries::Nothing => Ok(()),
            Entries::InOrder(all) => self.put(Part::Targets(all.as_slice())),
            Entries::ByKey(all) => self.put(Part::KeyedTargets(all.as_slice())),
        }
    }

    #[tactic(auto, using(crate::proofs::Clauses::lists_of_lefts))]
    pub fn lefts(&mut self, all: &'a [Left]) -> Result<(), OutOfMemory>
        ensures { OnOk result (ahead self.new ≡ spec.of_lefts (plain.lefts all.now) ++ ahead self.old) }
    {
        match all.split_first() {
            None => Ok(()),
            Some((first, rest)) => {
                self.put(Part::Targets(rest))?;
                self.left(first)
            }
        }
    }

    #[tactic(auto, using(crate::proofs::Clauses::keyed_lefts))]
    pub fn keyed_lefts(&mut self, all: &'a [Keyed<Left>]) -> Result<(), OutOfMemory>
        ensures { OnOk result (ahead self.new ≡ spec.of_keyed_lefts (plain.keyed_lefts all.now) ++ ahead self.old) }
    {
        match all.split_first() {
            None => Ok(()),
            Some((first, rest)) => {
                self.put(Part::KeyedTargets(rest))?;
                self.left(&first.item)
            }
        }
    }

    #[tactic(auto, using(crate::proofs::Clauses::statements))]
    pub fn statements(&mut self, all: &'a [Statement]) -> Result<(), OutOfMemory>
        ensures { OnOk result (ahead self.new ≡ spec.of_stmts (plain.statements all.now) ++ ahead self.old) }
    {
        match all.split_first() {
            None => Ok(()),
            Some((first, rest)) => {
                self.put(Part::Statements(rest))?;
                self.put(Part::Statement(first))
            }
        }
    }

    #[tactic(auto, using(crate::proofs::Clauses::controls))]
    pub fn control(&mut self, control: &'a Control) -> Result<(), OutOfMemory>
        ensures { OnOk result (ahead self.new ≡ spec.of_control (plain.control control.now) ++ ahead self.old) }
    {
        self.condition(&control.condition)?;
        self.count(&control.count)
    }

    #[tactic(auto, using(syntax_trees::proofs::PlainForms::count_forms, crate::proofs::Clauses::counts))]
    pub fn count(&mut self, count: &'a Option<Count>) -> Result<(), OutOfMemory>
        ensures { OnOk result (ahead self.new ≡ spec.of_count (plain.maybe_count count.now) ++ ahead self.old) }
    {
        match count {
            None => Ok(()),
            Some(Count::For { interval, .. } | Count::Through(_, interval)) => {
                self.interval(interval)
            }
        }
    }

    #[tactic(auto, using(syntax_trees::proofs::PlainForms::condition_forms, crate::proofs::Clauses::conditions))]
    pub fn condition(&mut self, condition: &'a Option<Condition>) -> Result<(), OutOfMemory>
        ensures { OnOk result (ahead self.new ≡ spec.of_condition (plain.maybe_condition condition.now) ++ ahead self.old) }
    {
        match condition {
            None => Ok(()),
            Some(Condition::While(_, test) | Condition::Until(_, test)) => {
                self.put(Part::Expression(test))
            }
        }
    }

    #[tactic(auto, using(crate::proofs::Clauses::cases))]
    pub fn cases(&mut self, all: &'a [Case]) -> Result<(), OutOfMemory>
        ensures { OnOk result (ahead self.new ≡ spec.of_cases (plain.cases all.now) ++ ahead self.old) }
    {
        match all.split_first() {
            None => Ok(()),
            Some((first, rest)) => {
                self.put(Part::Cases(rest))?;
                self.put(Part::Statement(&first.body))?;
                self.put(Part::Tests(first.tests.as_slice()))
            }
        }
    }

    #[tactic(auto, using(crate::proofs::Clauses::tests))]
    pub fn tests(&mut self, all: &'a [Test]) -> Result<(), OutOfMemory>
        ensures { OnOk result (ahead self.new ≡ spec.of_tests (plain.tests all.now) ++ ahead self.old) }
    {
        match all.split_first() {
            None => Ok(()),
            Some((first, rest)) => {
                self.put(Part::Tests(rest))?;
                match first {
                    Test::Value(value) => self.put(Part::Expression(value)),
                    Test::Compared { right, .. } => self.put(Part::Expression(right)),
                    Test::Inside { interval, .. } => self.interval(interval),
                }
            }
        }
    }

    #[tactic(auto, using(crate::proofs::Clauses::blocks))]
    pub fn block(&mut self, block: &'a Block) -> Result<(), OutOfMemory>
        ensures { OnOk result (ahead self.new ≡ spec.of_block (plain.block block.now) ++ ahead self.old) }
    {
        self.put(Part::Exits(block.exits.as_slice()))?;
        self.put(Part::Statements(block.statements.as_slice()))?;
        self.put(Part::Locals(block.locals.as_slice()))?;
        self.phrase(&block.enable)
    }

    #[tactic(auto, using(crate::proofs::Clauses::locals))]
    pub fn locals(&mut self, all: &'a [Local]) -> Result<(), OutOfMemory>
        ensures { OnOk result (ahead self.new ≡ spec.of_locals (plain.locals all.now) ++ ahead self.old) }
    {
        match all.split_first() {
            None => Ok(()),
            Some((first, rest)) => {
                self.put(Part::Locals(rest))?;
                self.plain_item(&first.item)
            }
        }
    }

    #[tactic(auto, using(crate::proofs::Clauses::exits))]
    pub fn exits(&mut self, all: &'a [Exit]) -> Result<(), OutOfMemory>
        ensures { OnOk result (ahead self.new ≡ spec.of_exits (plain.exits all.now) ++ ahead self.old) }
    {
        match all.split_first() {
            None => Ok(()),
            Some((first, rest)) => {
                self.put(Part::Exits(rest))?;
                self.put(Part::Statement(&first.item))
            }
        }
    }

    #[tactic(auto, using(crate::proofs::Clauses::repeats))]
    pub fn repeats(&mut self, all: &'a [Repeat]) -> Result<(), OutOfMemory>
        ensures { OnOk result (ahead self.new ≡ spec.of_repeats (plain.repeats all.now) ++ ahead self.old) }
    {
        match all.split_first() {
            None => Ok(()),
            Some((first, rest)) => {
                self.put(Part::Repeats(rest))?;
                self.put(Part::Statement(&first.item))
            }
        }
    }
}
