//! What a list of declarations leaves behind.
ghost use Rattle.std.specs.Prelude.{◌≡◌, ◌+◌, length, IfOk};
ghost use Rattle.check_programs.specs.Found as spec;
ghost use Rattle.check_programs.specs.Views as view;

use check_heads::check_faces::Offer;
use check_scopes::Names;
use check_state::{Meaning, narrow, next};
use check_statements::check_locals::Headed;
use mesa_base::{List, OutOfMemory, Shared};
use mesa_types::Item;
use std::alloc::Global;
use std::collections::VecDeque;

/// The head of a procedure, the scope of its body, and the words of operands of its types.
#[derive(Drop)]
pub struct ProcedureHead {
    pub item: Shared<Item>,
    pub scope: Names<Meaning>,
    pub operands: u64,
}

/// A declaration whose head is read.
#[derive(Drop)]
pub enum Stated {
    Data(Headed),
    Procedure(ProcedureHead),
    Signal,
}

/// The heads of declarations, how many of them are procedures, all their signals and errors, and what is public of them, in the order
/// of the text.
#[derive(Drop)]
pub struct Found {
    pub heads: VecDeque<Stated>,
    pub procedures: u32,
    pub signals: List<Shared<Item>>,
    pub offers: Vec<Offer>,
}

/// The numbers that the next procedure and the next signal have. The body of the module is procedure 0.
#[derive(Clone, Copy)]
pub struct Numbers {
    pub procedure: u32,
    pub signal: u32,
}

impl Found {
    /// Of no declaration.
    pub fn new(alloc: Global) -> Found
        ensures { view.found result ≡ spec.nothing_found }
    {
        Found {
            heads: VecDeque::new(alloc),
            procedures: 0,
            signals: List::new(alloc),
            offers: Vec::new(alloc),
        }
    }

    pub fn numbers(&self) -> Result<Numbers, OutOfMemory>
        ensures procedure { IfOk result (λ numbers. numbers.procedure ≡ (view.found self.now).procedures + 1) }
        ensures signal { IfOk result (λ numbers. numbers.signal ≡ length (view.found self.now).signals) }
    {
        Ok(Numbers {
            procedure: next(self.procedures)?,
            signal: narrow(self.signals.len())?,
        })
    }
}
