//! The parts of a text that are still to be read.
ghost use Rattle.std.specs.Prelude.{◌≡◌, [], ◌++◌, OnOk};
ghost use Rattle.check_mentions.specs.Parts.{ahead, of_part, of_next};

use mesa_base::{Identifiers, OutOfMemory};
use std::alloc::Global;
use syntax_trees::syntax::{
    Arm, Case, Exit, Expr, Keyed, Labeled, Left, Local, Operation, Repeat, Statement, Suffix, Test,
    TypeExp,
};

/// A part of a text: a mention, a tree, or what is left of a list of trees.
#[derive(Clone, Copy)]
pub enum Part<'a> {
    /// A string literal.
    Text(&'a [u8]),
    /// The token at which a record or enumeration begins.
    Made(u32),
    Written(&'a TypeExp),
    Types(&'a [TypeExp]),
    Fields(&'a [Labeled<Identifiers, TypeExp>]),
    Expression(&'a Expr),
    Expressions(&'a [Expr]),
    Values(&'a [Keyed<Expr>]),
    Operations(&'a [Operation]),
    Suffixes(&'a [Suffix]),
    Arms(&'a [Arm]),
    Statement(&'a Statement),
    Statements(&'a [Statement]),
    Targets(&'a [Left]),
    KeyedTargets(&'a [Keyed<Left>]),
    Cases(&'a [Case]),
    Tests(&'a [Test]),
    Locals(&'a [Local]),
    Exits(&'a [Exit]),
    Repeats(&'a [Repeat]),
}

/// The parts that are still to be read, the next one at the end.
#[derive(Drop)]
pub struct Parts<'a> {
    stack: Vec<Part<'a>>,
}

impl<'a> Parts<'a> {
    /// None. It takes no memory.
    pub fn new(alloc: Global) -> Parts<'a>
        ensures { ahead result ≡ [] }
    {
        Parts {
            stack: Vec::new(alloc),
        }
    }

    /// Puts a part before the others.
    pub fn put(&mut self, part: Part<'a>) -> Result<(), OutOfMemory>
        ensures { OnOk result (ahead self.new ≡ of_part part.entry ++ ahead self.old) }
    {
        self.stack.push(part)?;
        Ok(())
    }

    /// Puts what a part is made of before the others; a mention stays whole.
    pub fn open(&mut self, part: Part<'a>) -> Result<(), OutOfMemory>
        ensures { OnOk result (ahead self.new ≡ of_part part.entry ++ ahead self.old) }
    {
        match part {
            Part::Text(_) | Part::Made(_) => self.put(part),
            Part::Written(written) => self.written(written),
            Part::Types(all) => self.types(all),
            Part::Fields(all) => self.named_fields(all),
            Part::Expression(e) => self.expression(e),
            Part::Expressions(all) => self.expressions(all),
            Part::Values(all) => self.values(all),
            Part::Operations(all) => self.operations(all),
            Part::Suffixes(all) => self.suffixes(all),
            Part::Arms(all) => self.arms(all),
            Part::Statement(statement) => self.statement(statement),
            Part::Statements(all) => self.statements(all),
            Part::Targets(all) => self.lefts(all),
            Part::KeyedTargets(all) => self.keyed_lefts(all),
            Part::Cases(all) => self.cases(all),
            Part::Tests(all) => self.tests(all),
            Part::Locals(all) => self.locals(all),
            Part::Exits(all) => self.exits(all),
            Part::Repeats(all) => self.repeats(all),
        }
    }

    /// Takes the next part, if there is one.
    pub fn next(&mut self) -> Option<Part<'a>>
        ensures { ahead self.old ≡ of_next (ahead self.new) result }
    {
        self.stack.pop()
    }
}
