//! The instruction at an offset, the region that holds the offset, and the regions outward of one.
ghost use Rattle.std.specs.Prelude.{◌≡◌, ℕ, ◌<◌, ◌≤◌, length, MatchOption, nat_le, nat_lt};
ghost use Rattle.std.specs.List.{AllWithin};
ghost use Rattle.code_forms.specs.Phrases.{first_start};
ghost use Rattle.code_forms.specs.Ranges.{InOrder};
ghost use Rattle.code_forms.specs.Regions.{holder, outward, region_at};
ghost use Rattle.code_forms.specs.Rising.{ArmsRise, RegionsRise};
ghost use Rattle.code_forms.specs.Routine.{Begins, IsStart, spots};

use crate::module_code::{Arm, CodeEntry, Phrase};
use crate::region::Region;

// How many instructions begin before the offset.
fn instructions_before(code: &[CodeEntry], offset: u32) -> usize
    requires { InOrder code.now }
    ensures bound { result ≤ length code.now }
    ensures before { AllWithin (λ e. e.at < offset) code.now 0 result }
    ensures rest { AllWithin (λ e. offset ≤ e.at) code.now result (length code.now) }
{
    code.partition_point(
        |entry: &CodeEntry| -> bool
            ensures { result ≡ nat_lt entry.now.at offset }
        { entry.at < offset },
    )
}

/// The number of the instruction that begins at the offset.
pub fn entry_at(code: &[CodeEntry], offset: u32) -> Option<usize>
    requires { InOrder code.now }
    ensures { MatchOption result (IsStart (spots code.now) offset → ⊥) (λ i. Begins (spots code.now) i offset) }
{
    let count = instructions_before(code, offset);
    if count == code.len() {
        return None;
    }
    if code[count].at != offset {
        return None;
    }
    Some(count)
}

/// Where the first region of the phrase's arms begins.
pub fn first_start(phrase: &Phrase) -> u32
    ensures { result ≡ first_start phrase.now.arms }
{
    match phrase.arms.get(0) {
        Some(arm) => arm.start,
        None => 0,
    }
}

// How many phrases have arms that begin at the offset or before it.
fn phrases_begun(phrases: &[Phrase], offset: u32) -> usize
    requires { RegionsRise phrases.now }
    ensures bound { result ≤ length phrases.now }
    ensures begun { AllWithin (λ p. first_start p.arms ≤ offset) phrases.now 0 result }
    ensures rest { AllWithin (λ p. offset < first_start p.arms) phrases.now result (length phrases.now) }
{
    phrases.partition_point(
        |phrase: &Phrase| -> bool
            ensures { result ≡ nat_le (first_start phrase.now.arms) offset }
        { first_start(phrase) <= offset },
    )
}

// How many of the arms begin at the offset or before it.
fn arms_begun(arms: &[Arm], offset: u32) -> usize
    requires { ArmsRise arms.now }
    ensures bound { result ≤ length arms.now }
    ensures begun { AllWithin (λ a. a.start ≤ offset) arms.now 0 result }
    ensures rest { AllWithin (λ a. offset < a.start) arms.now result (length arms.now) }
{
    arms.partition_point(
        |arm: &Arm| -> bool
            ensures { result ≡ nat_le arm.now.start offset }
        { arm.start <= offset },
    )
}

/// The region that holds the offset.
pub fn region_of(phrases: &[Phrase], offset: u32) -> Region
    requires { RegionsRise phrases.now }
    ensures { result ≡ region_at phrases.now offset }
{
    let count = phrases_begun(phrases, offset);
    if count == 0 {
        return Region::Body;
    }
    let phrase = count - 1;
    let begun = arms_begun(phrases[phrase].arms.as_slice(), offset);
    Region::ArmOf {
        phrase,
        arm: begun - 1,
    }
}

fn holder_of(phrases: &[Phrase], region: Region) -> Option<Region>
    requires { RegionsRise phrases.now }
    ensures { result ≡ holder phrases.now region }
{
    match region {
        Region::Body => None,
        Region::ArmOf { phrase, .. } => match phrases.get(phrase) {
            Some(phrase) => Some(region_of(phrases, phrase.from)),
            None => None,
        },
    }
}

/// The holder so many steps outward of the region.
pub fn region_outward(phrases: &[Phrase], steps: u16, region: Region) -> Option<Region>
    requires { RegionsRise phrases.now }
    ensures { result ≡ outward phrases.now steps region }
{
    let mut held = region;
    for taken in 0..steps {
        match holder_of(phrases, held) {
            Some(outer) => held = outer,
            None => return None,
        }
    }
    Some(held)
}
