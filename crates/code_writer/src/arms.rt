//! The code of the arms of phrases.
ghost use Rattle.std.specs.Prelude.{◌≡◌, ◌+◌, ◌<◌, ◌≤◌, ◌^◌, [], ◌∷◌, length, IfOk, OnOk};
ghost use Rattle.code_trees.specs.Plain.{off, off_in_arms, plain, plain_arms};
ghost use Rattle.code_blocks.specs.Blocks.{Both, Does};
ghost use Rattle.code_forms.specs.declared.limits.TheConstants.{STACK_WORDS};
ghost use Rattle.code_blocks.specs.Modules.{deepest};
ghost use Rattle.code_blocks.specs.Sizes.{size};
ghost use Rattle.code_blocks.specs.Writing.{arms_code, arms_phrases, arms_size, block_code, block_phrases, in_arms, phrase_from, region, regions};
ghost use Rattle.code_writer.specs.Drafts.{pend, region_at, arm_from, Adds, ArmsFit, Fits, IsHeld};
ghost use Rattle.code_writer.specs.Scopes.{env_at};

use crate::cursor::{Cursor, put};
use crate::draft::{Draft, Pending};
use crate::scope::{Level, enter};
use code_forms::{Arm, Arms, Instruction, Phrase};
use code_trees::{ArmBlock, Block};
use mesa_base::{List, OutOfMemory};
use std::alloc::Global;

impl<'a> Draft<'a> {
    /// Writes a region from an offset on: a block, and an instruction at its end. It gives the offset behind it.
    pub fn write_region(
        &mut self,
        body: &'a Block,
        last: Instruction,
        around: usize,
        at: u32,
    ) -> Result<u32, OutOfMemory>
        requires sizes { off body.now ≡ 0 }
        requires fits { Fits (Both (plain body.now) (Does (last ∷ []))) self.old around (region_at at) }
        ensures end { IfOk result (λ end. end ≡ at + size (Both (plain body.now) (Does (last ∷ [])))) }
        ensures adds { OnOk result (Adds (block_code (Both (plain body.now) (Does (last ∷ []))) (env_at self.old.scopes.items around) at 0) (block_phrases (Both (plain body.now) (Does (last ∷ []))) (env_at self.old.scopes.items around) at) self.old self.new) }
    {
        let behind = self.write(body, around, Cursor { at, depth: 0 })?;
        let to = put(&mut self.entries, last, behind)?;
        Ok(to.at)
    }

    fn write_arm(
        &mut self,
        alloc: Global,
        arm: &'a ArmBlock,
        around: usize,
        at: u32,
    ) -> Result<Arm, OutOfMemory>
        requires sizes { off arm.now.body ≡ 0 }
        requires fits { Fits (region (plain arm.now.body)) self.old around (region_at at) }
        ensures arm { IfOk result (λ made. made ≡ arm_from arm.now at) }
        ensures adds { OnOk result (Adds (block_code (region (plain arm.now.body)) (env_at self.old.scopes.items around) at 0) (block_phrases (region (plain arm.now.body)) (env_at self.old.scopes.items around) at) self.old self.new) }
    {
        let end = self.write_region(&arm.body, Instruction::ArmEnd, around, at)?;
        let labels = List::from_slice(alloc, arm.labels.as_slice())?;
        Ok(Arm {
            labels,
            slot: arm.slot,
            words: arm.words,
            start: at,
            end,
        })
    }

    /// Writes the regions of arms, one behind the other from an offset on. It gives the arms, and the offset behind them.
    fn write_arms(
        &mut self,
        alloc: Global,
        arms: &'a [ArmBlock],
        around: usize,
        from: u32,
    ) -> Result<(Arms, u32), OutOfMemory>
        requires sizes { off_in_arms arms.now ≡ 0 }
        requires fits { ArmsFit (plain_arms arms.now) self.old around from }
        ensures made { IfOk result (λ made. (made.0 ≡ regions (plain_arms arms.now) from) × (made.1 ≡ from + arms_size (plain_arms arms.now))) }
        ensures adds { OnOk result (Adds (arms_code (plain_arms arms.now) (env_at self.old.scopes.items around) from) (arms_phrases (plain_arms arms.now) (env_at self.old.scopes.items around) from) self.old self.new) }
    {
        let mut made = List::new(alloc);
        let mut at = from;
        for arm in arms {
            let next = self.write_arm(alloc, arm, around, at)?;
            at = next.end;
            made.push(next)?;
        }
        Ok((made, at))
    }

    /// Writes the arms of a phrase from an offset on. It gives the phrase, and the offset behind them.
    pub fn write_phrase(
        &mut self,
        alloc: Global,
        pending: Pending<'a>,
        at: u32,
    ) -> Result<(Phrase, u32), OutOfMemory>
        requires there { pending.around ≤ length self.old.scopes.items }
        requires sizes { off_in_arms pending.arms.now ≡ 0 }
        requires room { at + arms_size (pend self.old.scopes.items pending).arms < 2 ^ 32 }
        requires shallow { deepest (arms_code (pend self.old.scopes.items pending).arms (in_arms (pend self.old.scopes.items pending).env) at) ≤ STACK_WORDS }
        requires held { IsHeld self.old }
        ensures phrase { IfOk result (λ made. (made.0 ≡ phrase_from (pend self.old.scopes.items pending.entry) at) × (made.1 ≡ at + arms_size (pend self.old.scopes.items pending.entry).arms)) }
        ensures adds { OnOk result (Adds (arms_code (pend self.old.scopes.items pending.entry).arms (in_arms (pend self.old.scopes.items pending.entry).env) at) (arms_phrases (pend self.old.scopes.items pending.entry).arms (in_arms (pend self.old.scopes.items pending.entry).env) at) self.old self.new) }
    {
        let around = enter(&mut self.scopes, Level::Arms, pending.around)?;
        let (arms, end) = self.write_arms(alloc, pending.arms.as_slice(), around, at)?;
        Ok((
            Phrase {
                from: pending.from,
                to: pending.upto,
                arms,
            },
            end,
        ))
    }
}
