//! Whether the operands of instructions and the words of arms are in range.
ghost use Rattle.std.specs.Prelude.{◌≡◌, [], ◌+◌, ◌≤◌, ◌↔◌, All, IsTrue, slice_get};
ghost use Rattle.code_forms.specs.Around.{routine_around};
ghost use Rattle.code_forms.specs.Operands.{IsCalled, IsRaised, CalledLink, RaisedLink, OperandsFit, SignalTakes, LinkTakes, LabelTakes, ArmFits, OperandsAreRight};
ghost use Rattle.code_forms.specs.Regions.{arm_of, region_at};
ghost use Rattle.code_forms.specs.Rising.{RegionsRise};
ghost use Rattle.code_forms.specs.Routine.{spots, spot_of};

use crate::around::Around;
use crate::instruction::Instruction;
use crate::lookups::region_of;
use crate::module_code::{Arm, CodeEntry, CodeKind, Label, Phrase};
use crate::region::Region;

fn is_called(kind: CodeKind) -> bool
    ensures { IsTrue result ↔ IsCalled kind }
{
    match kind {
        CodeKind::Procedure => true,
        CodeKind::Signal | CodeKind::Error => false,
    }
}

fn is_raised(kind: CodeKind) -> bool
    ensures { IsTrue result ↔ IsRaised kind }
{
    match kind {
        CodeKind::Procedure => false,
        CodeKind::Signal | CodeKind::Error => true,
    }
}

fn is_body(region: Region) -> bool
    ensures { IsTrue result ↔ (region ≡ Region.Body) }
{
    match region {
        Region::Body => true,
        Region::ArmOf { .. } => false,
    }
}

// Whether so many words from the slot on are among these.
fn is_within(slot: u16, words: u16, all: u16) -> bool
    ensures { IsTrue result ↔ (slot + words ≤ all) }
{
    u32::from(slot) + u32::from(words) <= u32::from(all)
}

impl Around<'_> {
    fn has_called(&self, link: u32) -> bool
        ensures { IsTrue result ↔ CalledLink (slice_get self.now.links.now link) }
    {
        match self.links.get(link as usize) {
            Some(link) => is_called(link.kind),
            None => false,
        }
    }

    fn has_raised(&self, link: u32) -> bool
        ensures { IsTrue result ↔ RaisedLink (slice_get self.now.links.now link) }
    {
        match self.links.get(link as usize) {
            Some(link) => is_raised(link.kind),
            None => false,
        }
    }

    /// Whether the operands are in range and the instruction may stand in the region.
    pub fn operands_fit(&self, region: Region, instruction: Instruction) -> bool
        ensures { IsTrue result ↔ OperandsFit (routine_around self.now []) region instruction }
    {
        match instruction {
            Instruction::Str { literal } => 1 <= literal && literal as usize <= self.strings,
            Instruction::LoadL { slot, words }
            | Instruction::StoreL { slot, words }
            | Instruction::ZeroL { slot, words } => is_within(slot, words, self.frame),
            Instruction::LoadG { slot, words }
            | Instruction::StoreG { slot, words }
            | Instruction::ZeroG { slot, words } => is_within(slot, words, self.globals),
            Instruction::LoadLX {
                slot,
                extent,
                words,
            }
            | Instruction::StoreLX {
                slot,
                extent,
                words,
            } => { is_within(slot, extent, self.frame) && words <= extent }
            Instruction::LoadGX {
                slot,
                extent,
                words,
            }
            | Instruction::StoreGX {
                slot,
                extent,
                words,
            } => { is_within(slot, extent, self.globals) && words <= extent }
            Instruction::Call { procedure } => 0 < procedure
                && (procedure as usize) < self.procedures.len(),
            Instruction::CallLink { link } => self.has_called(link),
            Instruction::Raise { signal } => (signal as usize) < self.signals.len(),
            Instruction::RaiseLink { link } => self.has_raised(link),
            Instruction::RaiseHost { fault } => fault <= 2,
            Instruction::Return => is_body(region),
            Instruction::ArmEnd
            | Instruction::Resume { .. }
            | Instruction::Leave { .. }
            | Instruction::LeaveReturn { .. } => !is_body(region),
            _ => true,
        }
    }

    fn signal_takes(&self, words: u16, signal: u32) -> bool
        ensures { IsTrue result ↔ SignalTakes words (slice_get self.now.signals.now signal) }
    {
        match self.signals.get(signal as usize) {
            Some(signal) => signal.args == words,
            None => false,
        }
    }

    fn link_takes(&self, words: u16, link: u32) -> bool
        ensures { IsTrue result ↔ LinkTakes words (slice_get self.now.links.now link) }
    {
        match self.links.get(link as usize) {
            Some(link) => link.args == u64::from(words),
            None => false,
        }
    }

    fn label_takes(&self, words: u16, label: Label) -> bool
        ensures { IsTrue result ↔ LabelTakes (routine_around self.now []) words label }
    {
        match label {
            Label::Own(signal) => self.signal_takes(words, signal),
            Label::Link(link) => self.link_takes(words, link),
            Label::Any | Label::Unwind | Label::BoundsFault | Label::ZeroDivisor => false,
        }
    }

    fn all_take(&self, words: u16, labels: &[Label]) -> bool
        ensures { IsTrue result ↔ All (LabelTakes (routine_around self.now []) words) labels.now }
    {
        for label in labels {
            if !self.label_takes(words, *label) {
                return false;
            }
        }
        true
    }

    /// Whether the words of the arm are in the frame and are none or those of its labels.
    pub fn arm_fits(&self, arm: &Arm) -> bool
        ensures { IsTrue result ↔ ArmFits (routine_around self.now []) arm.now }
    {
        if !is_within(arm.slot, arm.words, self.frame) {
            return false;
        }
        if arm.words == 0 {
            return true;
        }
        self.all_take(arm.words, arm.labels.as_slice())
    }
}
