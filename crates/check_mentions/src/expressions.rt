//! Expressions: what each is made of, put before what stands behind it.
ghost use Rattle.std.specs.Prelude.{◌≡◌, ◌++◌, OnOk};
ghost use Rattle.syntax_trees.specs.PlainSyntax as plain;
ghost use Rattle.check_rules.specs.Mentions as spec;
ghost use Rattle.check_mentions.specs.Parts.{ahead};

use crate::parts::{Part, Parts};
use mesa_base::OutOfMemory;
use syntax_trees::syntax::{
    Arm, Brackets, Entries, Expr, Interval, Keyed, Left, Operation, Phrase, Raise, Suffix,
};

impl<'a> Parts<'a> {
    #[tactic(auto, using(syntax_trees::proofs::PlainForms::expr_forms, crate::proofs::Clauses::expressions))]
    pub fn expression(&mut self, e: &'a Expr) -> Result<(), OutOfMemory>
        ensures { OnOk result (ahead self.new ≡ spec.of_expr (plain.expr e.now) ++ ahead self.old) }
    {
        match e {
            Expr::Run(first, rest) => {
                self.put(Part::Operations(rest.as_slice()))?;
                self.put(Part::Expression(first.get()))
            }
            Expr::Not(_, e) | Expr::Signed(_, _, e) | Expr::Parenthesis(_, e) => {
                self.put(Part::Expression(e.get()))
            }
            Expr::Compare { left, right, .. } => {
                self.put(Part::Expression(right.get()))?;
                self.put(Part::Expression(left.get()))
            }
            Expr::Within {
                value,
                interval,
                ..
            } => {
                self.interval(interval)?;
                self.put(Part::Expression(value.get()))
            }
            Expr::StringLiteral(_, bytes) => self.put(Part::Text(bytes.as_slice())),
            Expr::Reference(left) => self.left(left),
            Expr::Constructor(list) => self.items(&list.item),
            Expr::Raised(raise) => self.raise(raise.get()),
            Expr::NumberLiteral(_, _) | Expr::CharacterLiteral(_, _) | Expr::Truth(_, _) => Ok(()),
        }
    }

    #[tactic(auto, using(crate::proofs::Clauses::intervals))]
    pub fn interval(&mut self, interval: &'a Interval) -> Result<(), OutOfMemory>
        ensures { OnOk result (ahead self.new ≡ spec.of_interval (plain.interval interval.now) ++ ahead self.old) }
    {
        self.put(Part::Expression(interval.high.get()))?;
        self.put(Part::Expression(interval.low.get()))
    }

    #[tactic(auto, using(crate::proofs::Clauses::operations))]
    pub fn operations(&mut self, all: &'a [Operation]) -> Result<(), OutOfMemory>
        ensures { OnOk result (ahead self.new ≡ spec.of_steps (plain.operations all.now) ++ ahead self.old) }
    {
        match all.split_first() {
            None => Ok(()),
            Some((first, rest)) => {
                self.put(Part::Operations(rest))?;
                self.put(Part::Expression(&first.right))
            }
        }
    }

    #[tactic(auto, using(crate::proofs::Clauses::lefts))]
    pub fn left(&mut self, left: &'a Left) -> Result<(), OutOfMemory>
        ensures { OnOk result (ahead self.new ≡ spec.of_left (plain.left left.now) ++ ahead self.old) }
    {
        self.put(Part::Suffixes(left.suffixes.as_slice()))
    }

    #[tactic(auto, using(syntax_trees::proofs::PlainForms::suffix_forms, crate::proofs::Clauses::suffixes))]
    pub fn suffixes(&mut self, all: &'a [Suffix]) -> Result<(), OutOfMemory>
        ensures { OnOk result (ahead self.new ≡ spec.of_suffixes (plain.suffixes all.now) ++ ahead self.old) }
    {
        match all.split_first() {
            None => Ok(()),
            Some((first, rest)) => {
                self.put(Part::Suffixes(rest))?;
                match first {
                    Suffix::Field(_) => Ok(()),
                    Suffix::Applied(brackets) => self.brackets(brackets),
                }
            }
        }
    }

    #[tactic(auto, using(crate::proofs::Clauses::pairs_of_brackets))]
    pub fn brackets(&mut self, brackets: &'a Brackets) -> Result<(), OutOfMemory>
        ensures { OnOk result (ahead self.new ≡ spec.of_brackets (plain.brackets brackets.now) ++ ahead self.old) }
    {
        self.phrase(&brackets.catch)?;
        self.items(&brackets.items)
    }

    #[tactic(auto, using(crate::proofs::Clauses::items))]
    pub fn items(&mut self, items: &'a Entries<Expr>) -> Result<(), OutOfMemory>
        ensures { OnOk result (ahead self.new ≡ spec.of_items (plain.items items.now) ++ ahead self.old) }
    {
        match items {
            Entries::Nothing => Ok(()),
            Entries::InOrder(all) => self.put(Part::Expressions(all.as_slice())),
            Entries::ByKey(all) => self.put(Part::Values(all.as_slice())),
        }
    }

    #[tactic(auto, using(crate::proofs::Clauses::values))]
    pub fn expressions(&mut self, all: &'a [Expr]) -> Result<(), OutOfMemory>
        ensures { OnOk result (ahead self.new ≡ spec.of_exprs (plain.exprs all.now) ++ ahead self.old) }
    {
        match all.split_first() {
            None => Ok(()),
            Some((first, rest)) => {
                self.put(Part::Expressions(rest))?;
                self.put(Part::Expression(first))
            }
        }
    }

    #[tactic(auto, using(crate::proofs::Clauses::keyed_values))]
    pub fn values(&mut self, all: &'a [Keyed<Expr>]) -> Result<(), OutOfMemory>
        ensures { OnOk result (ahead self.new ≡ spec.of_keyed (plain.keyed_exprs all.now) ++ ahead self.old) }
    {
        match all.split_first() {
            None => Ok(()),
            Some((first, rest)) => {
                self.put(Part::Values(rest))?;
                self.put(Part::Expression(&first.item))
            }
        }
    }

    #[tactic(auto, using(syntax_trees::proofs::PlainForms::raise_forms, crate::proofs::Clauses::raises))]
    pub fn raise(&mut self, raise: &'a Raise) -> Result<(), OutOfMemory>
        ensures { OnOk result (ahead self.new ≡ spec.of_raise (plain.raise raise.now) ++ ahead self.old) }
    {
        match raise {
            Raise::SignalRaise(_, _, brackets) | Raise::ErrorRaise(_, _, brackets) => {
                self.maybe_brackets(brackets)
            }
            Raise::UnnamedError(_) => Ok(()),
        }
    }

    #[tactic(auto, using(crate::proofs::Clauses::maybe_brackets))]
    pub fn maybe_brackets(&mut self, brackets: &'a Option<Brackets>) -> Result<(), OutOfMemory>
        ensures { OnOk result (ahead self.new ≡ spec.of_maybe (plain.maybe_brackets brackets.now) ++ ahead self.old) }
    {
        match brackets {
            None => Ok(()),
            Some(brackets) => self.brackets(brackets),
        }
    }

    #[tactic(auto, using(crate::proofs::Clauses::phrases))]
    pub fn phrase(&mut self, phrase: &'a Option<Phrase>) -> Result<(), OutOfMemory>
        ensures { OnOk result (ahead self.new ≡ spec.of_phrase (plain.phrase phrase.now) ++ ahead self.old) }
    {
        match phrase {
            None => Ok(()),
            Some(phrase) => self.put(Part::Arms(phrase.item.as_slice())),
        }
    }

    #[tactic(auto, using(crate::proofs::Clauses::arms))]
    pub fn arms(&mut self, all: &'a [Arm]) -> Result<(), OutOfMemory>
        ensures { OnOk result (ahead self.new ≡ spec.of_arms (plain.arms all.now) ++ ahead self.old) }
    {
        match all.split_first() {
            None => Ok(()),
            Some((first, rest)) => {
                self.put(Part::Arms(rest))?;
                self.put(Part::Statement(&first.body))
            }
        }
    }
}
