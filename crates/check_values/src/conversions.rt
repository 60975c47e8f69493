//! What is made of a number that goes to a type of another length, or to the other LONG type.
ghost use Rattle.std.specs.Prelude.{◌≡◌, IfOk};
ghost use Rattle.check_rules.specs.mesa_types.specs.Plain.{expr};
ghost use Rattle.check_rules.specs.interface_records.specs.PlainTypes.{plain};
ghost use Rattle.check_rules.specs.Operators as operators;
ghost use Rattle.check_rules.specs.Ranges as spec;

use check_rules::held_trees::boxed;
use check_rules::mesa_base::OutOfMemory;
use check_rules::mesa_types::{Base, Conversion, Range, TypeTree, TypedExpr};
use check_state::{bounds, is_long, sign_of};
use std::alloc::Global;

/// From one LONG type to another.
pub fn crossing(from: Base, to: Base) -> Conversion
    ensures { result ≡ spec.crossing from to }
{
    match (from, to) {
        (Base::Signed, Base::Signed) | (Base::Unsigned, Base::Unsigned) => Conversion::Kept,
        (Base::Signed, Base::Unsigned) | (Base::Unsigned, Base::Signed) => Conversion::InCommon,
    }
}

fn subrange_of(base: Base, bounds: Option<(u16, u16)>) -> Range
    ensures { result ≡ spec.subrange_of base bounds }
{
    match bounds {
        Some((first, last)) => Range::From(base, first, last),
        None => Range::Every,
    }
}

/// What is made of a number of a type that goes to a target.
#[tactic(auto, unfolding(check_rules::specs::Ranges::conversion_for))]
pub fn conversion_for(from: &TypeTree, to: &TypeTree) -> Conversion
    ensures { result ≡ spec.conversion_for (plain from.now) (plain to.now) }
{
    if is_long(from) {
        if is_long(to) {
            crossing(sign_of(from), sign_of(to))
        } else {
            let range = subrange_of(sign_of(to), bounds(to));
            Conversion::Narrowed(sign_of(from), sign_of(to), range)
        }
    } else if is_long(to) {
        Conversion::Widened(sign_of(from), sign_of(to))
    } else {
        Conversion::Kept
    }
}

/// The value with its conversion, if there is one.
pub fn made_by(
    alloc: Global,
    conversion: Conversion,
    value: TypedExpr,
) -> Result<TypedExpr, OutOfMemory>
    ensures { IfOk result (λ made. expr made ≡ operators.made_by conversion (expr value)) }
{
    match conversion {
        Conversion::Kept => Ok(value),
        Conversion::Widened(_, _) | Conversion::Narrowed(_, _, _) | Conversion::InCommon => Ok(
            TypedExpr::Converted(conversion, boxed(alloc, value)?),
        ),
    }
}
