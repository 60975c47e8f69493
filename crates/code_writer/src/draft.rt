//! The code of a procedure as far as it is written.
ghost use Rattle.std.specs.Prelude.{◌≡◌, ◌+◌, ◌++◌, ◌<◌, ◌≤◌, ◌^◌, [], length, OnOk};
ghost use Rattle.code_trees.specs.Plain.{off_in_arms, plain_arms};
ghost use Rattle.code_blocks.specs.Writing.{own_phrase, unless_empty};
ghost use Rattle.code_writer.specs.Drafts.{found, IsHeld};
ghost use Rattle.code_writer.specs.Scopes.{env_at};

use crate::scope::Scope;
use code_forms::CodeEntries;
use code_trees::ArmBlocks;
use mesa_base::{List, OutOfMemory};
use std::alloc::Global;

/// A phrase whose arms are still to be written: its range, its arms, and the number of the scope around it.
#[derive(Clone, Copy)]
pub struct Pending<'a> {
    pub from: u32,
    pub upto: u32,
    pub arms: &'a ArmBlocks,
    pub around: usize,
}

/// The entries so far, what stands around blocks, and the phrases that were found, of which the first ones may be written already.
#[derive(Drop)]
pub struct Draft<'a> {
    pub entries: CodeEntries,
    pub scopes: Vec<Scope<'a>>,
    pub phrases: Vec<Pending<'a>>,
}

impl<'a> Draft<'a> {
    /// Nothing is written.
    pub fn new(alloc: Global) -> Draft<'a>
        ensures entries { result.entries ≡ [] }
        ensures scopes { result.scopes.items ≡ [] }
        ensures phrases { result.phrases.items ≡ [] }
    {
        Draft {
            entries: List::new(alloc),
            scopes: Vec::new(alloc),
            phrases: Vec::new(alloc),
        }
    }

    /// Adds a phrase with these arms, from one offset up to another, if there are any.
    pub fn add_phrase(
        &mut self,
        arms: &'a ArmBlocks,
        around: usize,
        from: u32,
        upto: u32,
    ) -> Result<(), OutOfMemory>
        requires there { around ≤ length self.old.scopes.items }
        requires sizes { off_in_arms arms.now ≡ 0 }
        requires held { IsHeld self.old }
        ensures found { OnOk result (found self.new ≡ found self.old ++ own_phrase (plain_arms arms.now) (env_at self.old.scopes.items around) from upto) }
        ensures entries { OnOk result (self.new.entries ≡ self.old.entries) }
        ensures scopes { OnOk result (self.new.scopes.items ≡ self.old.scopes.items) }
        ensures held { OnOk result (IsHeld self.new) }
    {
        if arms.is_empty() {
            return Ok(());
        }
        self.phrases.push(Pending {
            from,
            upto,
            arms,
            around,
        })?;
        Ok(())
    }

    /// Adds the phrase of a part of so many bytes, in which it is enabled. Over no instruction there is none.
    pub fn enable(
        &mut self,
        arms: &'a ArmBlocks,
        around: usize,
        from: u32,
        bytes: u32,
    ) -> Result<(), OutOfMemory>
        requires room { from + bytes < 2 ^ 32 }
        requires there { around ≤ length self.old.scopes.items }
        requires sizes { off_in_arms arms.now ≡ 0 }
        requires held { IsHeld self.old }
        ensures found { OnOk result (found self.new ≡ found self.old ++ unless_empty bytes (own_phrase (plain_arms arms.now) (env_at self.old.scopes.items around) from (from + bytes))) }
        ensures entries { OnOk result (self.new.entries ≡ self.old.entries) }
        ensures scopes { OnOk result (self.new.scopes.items ≡ self.old.scopes.items) }
        ensures held { OnOk result (IsHeld self.new) }
    {
        if bytes == 0 {
            return Ok(());
        }
        self.add_phrase(arms, around, from, from + bytes)?;
        Ok(())
    }
}
