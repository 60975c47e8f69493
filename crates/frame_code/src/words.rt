//! The words of parameters and results.
ghost use Rattle.std.specs.Prelude.{◌≡◌, ◌+◌, ◌≤◌, All, IfOk};
ghost use Rattle.mesa_types.specs.Types.{IsWithinLimits, types_in};
ghost use Rattle.code_rules.specs.Modules.{words_of_fields};

use mesa_base::OutOfMemory;
use mesa_types::FieldType;
use typed_answers::{fields_words, size_words};

/// The words of parameters or results that fit 16 bits.
#[tactic(auto, using(crate::proofs::FieldWords::fields_have))]
pub fn few_words(fields: &[FieldType]) -> u16
    requires { words_of_fields fields.now ≤ 65535 }
    ensures { result ≡ words_of_fields fields.now }
{
    fields_words(fields) as u16
}

fn sum(words: u64, more: u32) -> Result<u64, OutOfMemory>
    ensures { IfOk result (λ both. both ≡ words + more) }
{
    match words.checked_add(u64::from(more)) {
        Some(both) => Ok(both),
        None => Err(OutOfMemory),
    }
}

/// The words of parameters or results, however many; where 64 bits can't count them, that is want of memory.
pub fn all_words(fields: &[FieldType]) -> Result<u64, OutOfMemory>
    requires { All IsWithinLimits (types_in fields.now) }
    ensures { IfOk result (λ words. words ≡ words_of_fields fields.now) }
{
    let mut words = 0u64;
    for field in fields {
        words = sum(words, size_words(&field.kind))?;
    }
    Ok(words)
}
