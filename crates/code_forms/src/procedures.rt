//! The procedures of a module by number, and the look at the code of one of them.
ghost use Rattle.std.specs.Prelude.{◌≡◌, [], ◌∷◌, ◌++◌, length, slice_get, OnOk, IfErr, IsTrue, ◌↔◌};
ghost use Rattle.std.specs.Option.{option_copied};

use crate::around::Around;
use crate::bad_code::CodeFault;
use crate::module_code::{CodeEntries, CodeLink, CodeProcedure, CodeSignal};
use crate::settling::settle_procedure;
use mesa_base::List;
use std::alloc::{AllocFailed, Global};
use std::marker::Model;
use std::mem;

/// The procedures of a module, by number.
#[derive(Drop)]
pub struct CodeProcedures {
    items: Vec<CodeProcedure>,
}

impl Model for CodeProcedures {
    ghost use Rattle.std.specs.Prelude.{List};
    ghost use Rattle.code_forms.specs.declared.module_code.CodeProcedure.{CodeProcedure};

    ghost Value = { List CodeProcedure };

    ghost view = { λ procedures. procedures.items.items };
}

impl CodeProcedures {
    /// No procedures. It takes no memory.
    pub fn new(alloc: Global) -> CodeProcedures
        ensures { result ≡ [] }
    {
        CodeProcedures {
            items: Vec::new(alloc),
        }
    }

    /// Puts the procedure at the end. Where memory runs out it hands the procedure back, and the list is as before.
    pub fn push(&mut self, procedure: CodeProcedure) -> Result<(), AllocFailed<CodeProcedure>>
        ensures ok { OnOk result (self.new ≡ self.old ++ procedure ∷ []) }
        ensures err { IfErr result (λ back. (self.new ≡ self.old) × (back.value ≡ procedure)) }
    {
        self.items.push(procedure)
    }

    pub fn len(&self) -> usize
        ensures { result ≡ length self.now }
    {
        self.items.len()
    }

    pub fn is_empty(&self) -> bool
        ensures { IsTrue result ↔ (self.now ≡ []) }
    {
        self.items.is_empty()
    }

    /// The procedure of the number; None exactly where the number is not below the length.
    pub fn get(&self, number: usize) -> Option<&CodeProcedure>
        ensures { option_copied result ≡ slice_get self.now number }
    {
        self.items.get(number)
    }

    pub fn as_slice(&self) -> &[CodeProcedure]
        ensures { result.now ≡ self.now }
    {
        self.items.as_slice()
    }
}

impl CodeProcedures {
    ghost use Rattle.std.specs.Prelude.{◌≢◌, ℕ, ◌<◌, ◌≤◌, All, slice_index_or, slice_set};
    ghost use Rattle.code_forms.specs.declared.limits.TheConstants.{STACK_WORDS};
    ghost use Rattle.code_forms.specs.declared.module_code.CodeProcedure.{CodeProcedure};
    ghost use Rattle.code_forms.specs.Depths.{DepthsAreSettled};
    ghost use Rattle.code_forms.specs.Ranges.{CanBeRead, InOrder};
    ghost use Rattle.code_forms.specs.Routine.{routine_with, spots};
    ghost use Rattle.code_forms.specs.Same.{bare, with_code};
    ghost use Rattle.code_forms.specs.Valid.{RoutineIsValid, FirstFault};

    // Takes the code out of a procedure.
    fn take_code(&mut self, number: usize) -> CodeEntries
        requires { number < length self.old }
        ensures code { (d : CodeProcedure) → result ≡ (slice_index_or self.old number d).code }
        ensures left { (d : CodeProcedure) → self.new ≡ slice_set self.old number (with_code (slice_index_or self.old number d) []) }
    {
        let alloc = *self.items.allocator();
        mem::replace(&mut self.items[number].code, List::new(alloc))
    }

    // Puts code into a procedure.
    fn put_code(&mut self, number: usize, code: CodeEntries)
        requires { number < length self.old }
        ensures { (d : CodeProcedure) → self.new ≡ slice_set self.old number (with_code (slice_index_or self.old number d) code) }
    {
        self.items[number].code = code;
    }

    /// Looks at the code of a procedure, and writes the depths beside its instructions.
    pub fn settle(
        &mut self,
        number: usize,
        globals: u16,
        strings: usize,
        signals: &[CodeSignal],
        links: &[CodeLink],
    ) -> Result<(), CodeFault>
        requires there { number < length self.old }
        requires ranges { All CanBeRead self.old }
        ensures same { bare self.new ≡ bare self.old }
        ensures others { (k : ℕ) (d : CodeProcedure) → k ≢ number → slice_index_or self.new k d ≡ slice_index_or self.old k d }
        ensures valid { OnOk result ((d : CodeProcedure) → RoutineIsValid (routine_with globals strings signals.now links.now self.old (slice_index_or self.old number d))) }
        ensures depths { OnOk result ((d : CodeProcedure) → DepthsAreSettled (routine_with globals strings signals.now links.now self.old (slice_index_or self.old number d)) (slice_index_or self.new number d).code) }
        ensures err { IfErr result (λ fault. (d : CodeProcedure) → FirstFault (routine_with globals strings signals.now links.now self.old (slice_index_or self.old number d)) fault) }
    {
        let mut code = self.take_code(number);
        let answer = self.settle_code(number, globals, strings, signals, links, &mut code);
        self.put_code(number, code);
        answer
    }

    // Looks at the code that was taken out of a procedure.
    fn settle_code(
        &self,
        number: usize,
        globals: u16,
        strings: usize,
        signals: &[CodeSignal],
        links: &[CodeLink],
        code: &mut CodeEntries,
    ) -> Result<(), CodeFault>
        requires there { number < length self.now }
        requires order { InOrder code.old }
        requires armed { (d : CodeProcedure) → All (λ p. 0 < length p.arms) (slice_index_or self.now number d).phrases }
        requires small { (d : CodeProcedure) → (slice_index_or self.now number d).depth ≤ STACK_WORDS }
        ensures same { spots code.new ≡ spots code.old }
        ensures valid { OnOk result ((d : CodeProcedure) → RoutineIsValid (routine_with globals strings signals.now links.now self.now (with_code (slice_index_or self.now number d) code.old))) }
        ensures depths { OnOk result ((d : CodeProcedure) → DepthsAreSettled (routine_with globals strings signals.now links.now self.now (with_code (slice_index_or self.now number d) code.old)) code.new) }
        ensures err { IfErr result (λ fault. (d : CodeProcedure) → FirstFault (routine_with globals strings signals.now links.now self.now (with_code (slice_index_or self.now number d) code.old)) fault) }
    {
        let own = &self.items[number];
        let around = Around {
            globals,
            strings,
            signals,
            links,
            procedures: self.items.as_slice(),
            frame: own.frame,
            room: own.depth,
            phrases: own.phrases.as_slice(),
        };
        settle_procedure(&around, code)
    }
}
