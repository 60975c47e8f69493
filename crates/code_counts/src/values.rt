//! The words that a value has.
ghost use Rattle.std.specs.Prelude.{◌≡◌, ◌+◌, map, IfOk};
ghost use Rattle.mesa_types.specs.Counts.{last_words, words_after, words_given, words_of};
ghost use Rattle.mesa_types.specs.Plain.{expr, exprs};

use mesa_base::OutOfMemory;
use mesa_types::{Conversion, Part, TypedExpr};

/// The words of the last part.
#[tactic(auto, unfolding(mesa_types::specs::Counts::last_words))]
fn last_part(parts: &[Part]) -> u32
    ensures { result ≡ last_words parts.now }
{
    match parts {
        [] => 0,
        [.., last] => last.words,
    }
}

/// The words of the number that a conversion gives.
#[tactic(auto, unfolding(mesa_types::specs::Counts::words_after))]
fn words_made(conversion: Conversion) -> u64
    ensures { result ≡ words_after conversion }
{
    match conversion {
        Conversion::Kept | Conversion::Widened(_, _) | Conversion::InCommon => 2,
        Conversion::Narrowed(_, _, _) => 1,
    }
}

/// The words that the value of an expression has; the one refusal is that they have no place in 64 bits. Arms are not looked into.
#[cycle(values)]
#[tactic(auto, unfolding(mesa_types::specs::Counts::words_of))]
pub fn value_words(e: &TypedExpr) -> Result<u64, OutOfMemory>
    ensures { IfOk result (λ words. words ≡ words_of (expr e.now)) }
{
    match e {
        TypedExpr::Literal(_)
        | TypedExpr::LongNumber(_)
        | TypedExpr::OperateLong(_, _)
        | TypedExpr::NegateLong(_) => Ok(2),
        TypedExpr::Converted(conversion, _) => Ok(words_made(*conversion)),
        TypedExpr::Variable(_, _, words)
        | TypedExpr::Call(_, _, _, words, _)
        | TypedExpr::Raise(_, _, _, words, _) => Ok(u64::from(*words)),
        TypedExpr::FieldOf(_, parts) => Ok(u64::from(last_part(parts.as_slice()))),
        TypedExpr::Construct(_, es) => words_together(es.as_slice()),
        TypedExpr::Number(_)
        | TypedExpr::LengthOf(_)
        | TypedExpr::ByteOf(_, _)
        | TypedExpr::Checked(_, _)
        | TypedExpr::Operate(_, _)
        | TypedExpr::Negate(_)
        | TypedExpr::Relate(_, _, _, _)
        | TypedExpr::RelateLong(_, _, _, _)
        | TypedExpr::Within(_, _, _)
        | TypedExpr::WithinLong(_, _, _)
        | TypedExpr::Not(_)
        | TypedExpr::AllOf(_)
        | TypedExpr::SomeOf(_) => Ok(1),
    }
}

#[cycle(values)]
#[tactic(auto, unfolding(mesa_types::specs::Counts::words_of))]
fn words_together(es: &[TypedExpr]) -> Result<u64, OutOfMemory>
    ensures { IfOk result (λ words. words ≡ words_given (exprs (map expr es.now))) }
{
    let mut words = 0u64;
    for e in es {
        words = sum(words, value_words(e)?)?;
    }
    Ok(words)
}

fn sum(first: u64, second: u64) -> Result<u64, OutOfMemory>
    ensures { IfOk result (λ both. both ≡ first + second) }
{
    match first.checked_add(second) {
        Some(both) => Ok(both),
        None => Err(OutOfMemory),
    }
}
