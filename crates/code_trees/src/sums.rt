//! Numbers of words together.
ghost use Rattle.std.specs.Prelude.{◌≡◌, ◌+◌, IfOk};
ghost use Rattle.mesa_types.specs.Counts.{last_words};
ghost use Rattle.code_rules.specs.OwnCode as own;
ghost use Rattle.code_rules.specs.CodeFor.{words_before_last};

use mesa_base::OutOfMemory;
use mesa_types::Part;

/// Where the sum has no place in 64 bits, that is want of memory.
pub fn together(first: u64, second: u64) -> Result<u64, OutOfMemory>
    ensures { IfOk result (λ both. both ≡ first + second) }
{
    match first.checked_add(second) {
        Some(both) => Ok(both),
        None => Err(OutOfMemory),
    }
}

/// The words of values together.
pub fn total(sizes: &[u64]) -> Result<u64, OutOfMemory>
    ensures { IfOk result (λ words. words ≡ own.total sizes.now) }
{
    let mut words = 0u64;
    for size in sizes {
        words = together(words, *size)?;
    }
    Ok(words)
}

/// The words before a field, each a field of the one before it.
pub fn words_before(parts: &[Part]) -> Result<u64, OutOfMemory>
    ensures { IfOk result (λ words. words ≡ words_before_last parts.now) }
{
    let mut words = 0u64;
    for part in parts {
        words = together(words, u64::from(part.offset))?;
    }
    Ok(words)
}

/// The words of the last one; none where there is none.
#[tactic(auto, unfolding(mesa_types::specs::Counts::last_words), using(crate::proofs::LastWords::of_last))]
pub fn words_of_last(parts: &[Part]) -> u64
    ensures { result ≡ last_words parts.now }
{
    match parts {
        [] => 0,
        _ => u64::from(parts[parts.len() - 1].words),
    }
}
