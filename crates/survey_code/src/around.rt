//! Which phrases are around a phrase.

ghost use Rattle.std.specs.Prelude.{◌≡◌, ℕ, true, ◌<◌, ◌≤◌, ◌++◌, ◌^◌, length, nat_le, Some, IfOk};
ghost use Rattle.std.specs.List.{AllWithin};
ghost use Rattle.std.specs.List.Sorted.{IsNonDecreasingBy};
ghost use Rattle.code_forms.specs.Phrases.{first_start};
ghost use Rattle.code_forms.specs.Regions.{region_at};
ghost use Rattle.code_forms.specs.Rising.{RegionsRise};
ghost use Rattle.signaller.specs.Laws.{outer};
ghost use Rattle.signaller.specs.Search.{enabled_before, first_of};
ghost use Rattle.survey_code.specs.Around.{AreBeyond, AreOver, AreParents, Fills, IsHolder, from_at, number_before};

use code_forms::Phrase;
use mesa_base::OutOfMemory;
use std::alloc::Global;

/// From a phrase outward, the innermost of the first so many in whose range the offset is. Those behind the phrase are over there.
pub fn open_from(
    table: &[Phrase],
    parents: &[Option<u32>],
    count: usize,
    phrase: Option<u32>,
    at: u32,
) -> Option<u32>
    requires table { length parents.now ≤ length table.now }
    requires count { count ≤ length parents.now }
    requires sorted { IsNonDecreasingBy (λ p. p.from) table.now }
    requires parents { AreParents table.now parents.now }
    requires begun { (k : ℕ) → k < count → from_at table.now k ≤ at }
    requires over { AreOver table.now count at phrase }
    ensures { result ≡ first_of (enabled_before table.now count at) }
{
    let mut outer = phrase;
    'outward: while let Some(number) = outer {
        if at < table[number as usize].to {
            return outer;
        }
        outer = parents[number as usize];
    }
    None
}

/// The phrase before one.
pub fn phrase_before(number: usize) -> Option<u32>
    requires { number < 2 ^ 32 }
    ensures { result ≡ number_before number }
{
    if number == 0 {
        return None;
    }
    Some((number - 1) as u32)
}

/// Of each phrase, the innermost of those before it in whose range it begins.
pub fn parents_of(alloc: Global, table: &[Phrase]) -> Result<Vec<Option<u32>>, OutOfMemory>
    requires few { length table.now < 2 ^ 32 }
    requires sorted { IsNonDecreasingBy (λ p. p.from) table.now }
    ensures { IfOk result (λ parents. (length parents.items ≡ length table.now) × AreParents table.now parents.items) }
{
    let mut parents = Vec::new(alloc);
    for number in 0..table.len() {
        let parent = open_from(
            table,
            parents.as_slice(),
            number,
            phrase_before(number),
            table[number].from,
        );
        parents.push(parent)?;
    }
    Ok(parents)
}

fn first_start(phrase: &Phrase) -> u32
    ensures { result ≡ first_start phrase.now.arms }
{
    match phrase.arms.get(0) {
        Some(arm) => arm.start,
        None => 0,
    }
}

// How many phrases have arms that begin at the offset or before it.
fn phrases_begun(table: &[Phrase], at: u32) -> usize
    requires { RegionsRise table.now }
    ensures bound { result ≤ length table.now }
    ensures begun { AllWithin (λ p. first_start p.arms ≤ at) table.now 0 result }
    ensures rest { AllWithin (λ p. at < first_start p.arms) table.now result (length table.now) }
{
    table.partition_point(
        |phrase: &Phrase| -> bool
            ensures { result ≡ nat_le (first_start phrase.now.arms) at }
        { first_start(phrase) <= at },
    )
}

// The phrase in the region of one of whose arms the offset is.
fn holder_of(table: &[Phrase], at: u32) -> Option<u32>
    requires few { length table.now < 2 ^ 32 }
    requires rise { RegionsRise table.now }
    ensures { IsHolder table.now at result }
{
    let count = phrases_begun(table, at);
    phrase_before(count)
}

/// The innermost of the first so many phrases about an offset, or else the one beyond the phrase in the region of one of whose arms it is.
pub fn outward_of(
    table: &[Phrase],
    beyonds: &[Option<u32>],
    count: usize,
    innermost: Option<u32>,
    at: u32,
) -> Option<u32>
    requires few { length table.now < 2 ^ 32 }
    requires fills { Fills table.now }
    requires rise { RegionsRise table.now }
    requires beyond { AreBeyond table.now beyonds.now }
    requires innermost { innermost ≡ first_of (enabled_before table.now count at) }
    requires held { (q : ℕ) → IsHolder table.now at (Some q) → q < length beyonds.now }
    ensures { result ≡ first_of (enabled_before table.now count at ++ outer true table.now (region_at table.now at)) }
{
    if innermost.is_some() {
        return innermost;
    }
    match holder_of(table, at) {
        Some(phrase) => beyonds[phrase as usize],
        None => None,
    }
}

/// Of each phrase, the next one outward of it, past the regions of arms too.
pub fn beyonds_of(
    alloc: Global,
    table: &[Phrase],
    parents: &[Option<u32>],
) -> Result<Vec<Option<u32>>, OutOfMemory>
    requires few { length table.now < 2 ^ 32 }
    requires fills { Fills table.now }
    requires rise { RegionsRise table.now }
    requires count { length parents.now ≡ length table.now }
    requires parents { AreParents table.now parents.now }
    ensures { IfOk result (λ beyonds. (length beyonds.items ≡ length table.now) × AreBeyond table.now beyonds.items) }
{
    let mut beyonds = Vec::new(alloc);
    for number in 0..table.len() {
        let beyond = outward_of(
            table,
            beyonds.as_slice(),
            number,
            parents[number],
            table[number].from,
        );
        beyonds.push(beyond)?;
    }
    Ok(beyonds)
}
