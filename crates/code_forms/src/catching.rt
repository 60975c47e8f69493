//! Which phrase of a procedure is the first that breaks the rules on ranges and regions.
ghost use Rattle.std.specs.Prelude.{◌≡◌, ℕ, ◌+◌, ◌-◌, ◌<◌, ◌≤◌, ◌↔◌, length, take, All, IsTrue, MatchOption, nat_lt, slice_index_or, Some, slice_get};
ghost use Rattle.std.specs.List.{AllWithin};
ghost use Rattle.std.specs.List.Sorted.{IsNonDecreasingBy};
ghost use Rattle.code_forms.specs.declared.module_code.Arm.{Arm};
ghost use Rattle.code_forms.specs.declared.module_code.Phrase.{Phrase};
ghost use Rattle.code_forms.specs.Phrases.{last_end, ArmsFollow, RegionsFollow, Stands, Nests, EndsWithCode, PhrasesFill};
ghost use Rattle.code_forms.specs.Nesting.{AllStand, NestWith, NestUpTo, Crosses};
ghost use Rattle.code_forms.specs.Ranges.{InOrder};
ghost use Rattle.code_forms.specs.Rising.{RegionsRise};
ghost use Rattle.code_forms.specs.Routine.{IsStart, spots, code_end};
ghost use Rattle.code_forms.specs.Valid.{FirstBadPhrase};

use crate::jumps::is_start;
use crate::lookups::{first_start, region_of};
use crate::module_code::{Arm, CodeEntry, Phrase};

// Where the region of the phrase's last arm ends.
fn last_end(phrase: &Phrase) -> u32
    ensures { result ≡ last_end phrase.now.arms }
{
    let arms = phrase.arms.as_slice();
    if arms.is_empty() {
        return 0;
    }
    arms[arms.len() - 1].end
}

fn begins_rightly(code: &[CodeEntry], arm: &Arm) -> bool
    requires { InOrder code.now }
    ensures { IsTrue result ↔ (IsStart (spots code.now) arm.now.start × (arm.now.start < arm.now.end)) }
{
    is_start(code, arm.start) && arm.start < arm.end
}

// Whether the arm before this one ends where this one begins.
fn joins(arms: &[Arm], at: usize) -> bool
    requires { at < length arms.now }
    ensures { IsTrue result ↔ ((d : Arm) → 0 < at → (slice_index_or arms.now (at - 1) d).end ≡ (slice_index_or arms.now at d).start) }
{
    if at == 0 {
        return true;
    }
    arms[at - 1].end == arms[at].start
}

fn arms_follow(code: &[CodeEntry], arms: &[Arm]) -> bool
    requires { InOrder code.now }
    ensures { IsTrue result ↔ ArmsFollow (spots code.now) arms.now }
{
    for at in 0..arms.len() {
        if !begins_rightly(code, &arms[at]) {
            return false;
        }
        if !joins(arms, at) {
            return false;
        }
    }
    true
}

// Whether the phrases that stand before begin before the offset or at it.
fn listed(before: &[Phrase], from: u32) -> bool
    requires { IsNonDecreasingBy (λ p. p.from) before.now }
    ensures { IsTrue result ↔ All (λ q. q.from ≤ from) before.now }
{
    if before.is_empty() {
        return true;
    }
    if from < before[before.len() - 1].from {
        return false;
    }
    true
}

fn regions_follow(before: &[Phrase], start: u32) -> bool
    ensures { IsTrue result ↔ RegionsFollow before.now start }
{
    if before.is_empty() {
        return 0 < start;
    }
    last_end(&before[before.len() - 1]) == start
}

// Whether the phrase stands rightly after those before it, their nesting aside.
fn stands(code: &[CodeEntry], before: &[Phrase], phrase: &Phrase) -> bool
    requires order { InOrder code.now }
    requires rise { RegionsRise before.now }
    requires sorted { IsNonDecreasingBy (λ p. p.from) before.now }
    ensures { IsTrue result ↔ Stands (spots code.now) before.now phrase.now }
{
    if !is_start(code, phrase.from) || !is_start(code, phrase.to) {
        return false;
    }
    if phrase.to <= phrase.from || !listed(before, phrase.from) {
        return false;
    }
    if region_of(before, phrase.from) != region_of(before, phrase.to - 1) {
        return false;
    }
    let start = first_start(phrase);
    if start < phrase.to || !regions_follow(before, start) {
        return false;
    }
    arms_follow(code, phrase.arms.as_slice())
}

// The number of the first phrase that does not stand rightly, or the number of phrases.
fn first_fallen(code: &[CodeEntry], phrases: &[Phrase]) -> usize
    requires order { InOrder code.now }
    requires armed { All (λ p. 0 < length p.arms) phrases.now }
    ensures bound { result ≤ length phrases.now }
    ensures stand { AllStand (spots code.now) phrases.now result }
    ensures fallen { result < length phrases.now → (d : Phrase) → Stands (spots code.now) (take result phrases.now) (slice_index_or phrases.now result d) → ⊥ }
{
    for number in 0..phrases.len() {
        if !stands(code, &phrases[..number], &phrases[number]) {
            return number;
        }
    }
    phrases.len()
}

// The number of the first phrase that begins at the end of this one's range or behind it.
fn next_behind(phrases: &[Phrase], to: u32) -> usize
    requires { IsNonDecreasingBy (λ p. p.from) phrases.now }
    ensures bound { result ≤ length phrases.now }
    ensures before { AllWithin (λ p. p.from < to) phrases.now 0 result }
    ensures rest { AllWithin (λ p. to ≤ p.from) phrases.now result (length phrases.now) }
{
    phrases.partition_point(
        |phrase: &Phrase| -> bool
            ensures { result ≡ nat_lt phrase.now.from to }
        { phrase.from < to },
    )
}

// The number of the first phrase after this one, up to a limit, that does not nest with it; else the limit. It looks only at the
// outermost of the phrases in it, one after the other.
fn first_crossing_of(phrases: &[Phrase], outer: usize, limit: usize) -> usize
    requires sorted { IsNonDecreasingBy (λ p. p.from) phrases.now }
    requires filled { All (λ p. p.from < p.to) phrases.now }
    requires there { outer < length phrases.now }
    requires most { limit ≤ length phrases.now }
    requires later { NestUpTo phrases.now (outer + 1) limit }
    ensures bound { result ≤ limit }
    ensures nest { NestWith phrases.now outer result }
    ensures crosses { result < limit → (outer < result) × ((d : Phrase) → Nests (slice_index_or phrases.now result d) (slice_index_or phrases.now outer d) → ⊥) }
{
    let mut inner = outer + 1;
    while inner < limit && phrases[inner].from < phrases[outer].to {
        if phrases[outer].to < phrases[inner].to {
            return inner;
        }
        inner = next_behind(phrases, phrases[inner].to);
    }
    limit
}

// The number of the first phrase that does not nest with one before it, or the number of phrases.
fn first_crossing(phrases: &[Phrase]) -> usize
    requires sorted { IsNonDecreasingBy (λ p. p.from) phrases.now }
    requires filled { All (λ p. p.from < p.to) phrases.now }
    ensures bound { result ≤ length phrases.now }
    ensures nest { NestUpTo phrases.now 0 result }
    ensures crosses { result < length phrases.now → Crosses phrases.now result }
{
    let mut limit = phrases.len();
    for back in 0..phrases.len() {
        limit = first_crossing_of(phrases, phrases.len() - 1 - back, limit);
    }
    limit
}

fn ends_with_code(code: &[CodeEntry], phrases: &[Phrase]) -> bool
    requires { InOrder code.now }
    ensures { IsTrue result ↔ EndsWithCode (spots code.now) phrases.now }
{
    if phrases.is_empty() {
        return true;
    }
    last_end(&phrases[phrases.len() - 1]) == code_end(code)
}

// The end of the code.
fn code_end(code: &[CodeEntry]) -> u32
    requires { InOrder code.now }
    ensures { result ≡ code_end (spots code.now) }
{
    let last = code[code.len() - 1];
    last.at + last.instruction.bytes()
}

/// Where the range of the first phrase begins that breaks a rule, or None.
pub fn bad_phrase(code: &[CodeEntry], phrases: &[Phrase]) -> Option<u32>
    requires order { InOrder code.now }
    requires armed { All (λ p. 0 < length p.arms) phrases.now }
    ensures { MatchOption result (PhrasesFill (spots code.now) phrases.now) (FirstBadPhrase (spots code.now) phrases.now) }
{
    let standing = first_fallen(code, phrases);
    let nesting = first_crossing(&phrases[..standing]);
    if nesting < phrases.len() {
        return Some(phrases[nesting].from);
    }
    if !ends_with_code(code, phrases) {
        return Some(phrases[nesting - 1].from);
    }
    None
}
