//! Values of constant expressions over LONG numbers, tried.
use held_trees::{LetGo, both, boxed, boxed_pair, pushed};
use mesa_base::{Boxed, List, Relation};
use mesa_types::{Base, Conversion, Operation, Operator, Range, TypedExpr};
use std::alloc::Global;
use std::process::Abort;
use std::test::Fail;
use typed_answers::constant;

fn check_constant(rt: &impl Abort, whole: TypedExpr, value: Option<u32>) {
    assert_eq!(rt; constant(&whole), value);
    whole.let_go();
}

fn run(alloc: Global, left: u32, operator: Operator, right: u32) -> Result<TypedExpr, Fail> {
    let operation = Operation {
        check: Range::Every,
        operator,
        right: TypedExpr::LongNumber(right),
    };
    let rest = pushed(List::new(alloc), operation)?;
    let (rest, left) = both(rest, boxed(alloc, TypedExpr::LongNumber(left)))?;
    Ok(TypedExpr::OperateLong(left, rest))
}

fn check_run(
    rt: &impl Abort,
    alloc: Global,
    left: u32,
    operator: Operator,
    right: u32,
    value: Option<u32>,
) -> Result<(), Fail> {
    check_constant(rt, run(alloc, left, operator, right)?, value);
    Ok(())
}

#[test]
fn long_sums_and_products(rt: HostRuntime) -> Result<(), Fail> {
    let alloc = rt.alloc();
    check_run(&rt, alloc, 4294967295, Operator::Add, 2, Some(1))?;
    check_run(&rt, alloc, 1, Operator::Subtract, 2, Some(4294967295))?;
    check_run(&rt, alloc, 65536, Operator::Multiply, 65536, Some(0))?;
    check_run(
        &rt,
        alloc,
        65535,
        Operator::Multiply,
        65535,
        Some(4294836225),
    )
}

#[test]
fn long_quotients(rt: HostRuntime) -> Result<(), Fail> {
    let alloc = rt.alloc();
    let signed = Operator::Divide(Base::Signed);
    check_run(&rt, alloc, 4294967289, signed, 2, Some(4294967293))?;
    check_run(&rt, alloc, 2147483648, signed, 4294967295, Some(2147483648))?;
    check_run(&rt, alloc, 7, signed, 0, None)?;
    let unsigned = Operator::Divide(Base::Unsigned);
    check_run(&rt, alloc, 4294967289, unsigned, 2, Some(2147483644))?;
    let rest = Operator::Modulo(Base::Signed);
    check_run(&rt, alloc, 4294967289, rest, 2, Some(4294967295))?;
    check_run(&rt, alloc, 7, Operator::Modulo(Base::Unsigned), 0, None)
}

fn word(alloc: Global, word: u16) -> Result<Boxed<TypedExpr>, Fail> {
    Ok(boxed(alloc, TypedExpr::Number(word))?)
}

fn number(alloc: Global, number: u32) -> Result<Boxed<TypedExpr>, Fail> {
    Ok(boxed(alloc, TypedExpr::LongNumber(number))?)
}

fn check_widened(
    rt: &impl Abort,
    alloc: Global,
    from: Base,
    to: Base,
    value: Option<u32>,
) -> Result<(), Fail> {
    let widened = Conversion::Widened(from, to);
    let whole = TypedExpr::Converted(widened, word(alloc, 65535)?);
    check_constant(rt, whole, value);
    Ok(())
}

fn check_converted(
    rt: &impl Abort,
    alloc: Global,
    conversion: Conversion,
    of: u32,
    value: Option<u32>,
) -> Result<(), Fail> {
    let whole = TypedExpr::Converted(conversion, number(alloc, of)?);
    check_constant(rt, whole, value);
    Ok(())
}

#[test]
fn words_made_long(rt: HostRuntime) -> Result<(), Fail> {
    let alloc = rt.alloc();
    check_widened(&rt, alloc, Base::Signed, Base::Signed, Some(4294967295))?;
    check_widened(&rt, alloc, Base::Signed, Base::Unsigned, None)?;
    check_widened(&rt, alloc, Base::Unsigned, Base::Signed, Some(65535))
}

#[test]
fn long_numbers_made_words(rt: HostRuntime) -> Result<(), Fail> {
    let alloc = rt.alloc();
    let signed = Conversion::Narrowed(Base::Signed, Base::Signed, Range::Every);
    check_converted(&rt, alloc, signed, 4294967295, Some(65535))?;
    check_converted(&rt, alloc, signed, 32768, None)?;
    let mixed = Conversion::Narrowed(Base::Unsigned, Base::Signed, Range::Every);
    check_converted(&rt, alloc, mixed, 4294967295, None)?;
    let digits = Range::From(Base::Unsigned, 0, 9);
    let digit = Conversion::Narrowed(Base::Signed, Base::Unsigned, digits);
    check_converted(&rt, alloc, digit, 9, Some(9))?;
    check_converted(&rt, alloc, digit, 10, None)?;
    check_converted(&rt, alloc, digit, 65545, None)?;
    check_converted(
        &rt,
        alloc,
        Conversion::InCommon,
        2147483647,
        Some(2147483647),
    )?;
    check_converted(&rt, alloc, Conversion::InCommon, 2147483648, None)
}

fn related(alloc: Global, base: Base, left: u32, right: u32) -> Result<TypedExpr, Fail> {
    let left = TypedExpr::LongNumber(left);
    let (left, right) = boxed_pair(alloc, left, TypedExpr::LongNumber(right))?;
    Ok(TypedExpr::RelateLong(base, Relation::Less, left, right))
}

#[test]
fn long_relations(rt: HostRuntime) -> Result<(), Fail> {
    let alloc = rt.alloc();
    let signed = related(alloc, Base::Signed, 4294967295, 1)?;
    check_constant(&rt, signed, Some(1));
    let unsigned = related(alloc, Base::Unsigned, 4294967295, 1)?;
    check_constant(&rt, unsigned, Some(0));
    Ok(())
}

/// An operator on words has a value over words alone.
#[test]
fn long_numbers_under_operators_on_words(rt: HostRuntime) -> Result<(), Fail> {
    let alloc = rt.alloc();
    check_constant(&rt, TypedExpr::Negate(number(alloc, 65535)?), Some(1));
    check_constant(&rt, TypedExpr::Negate(number(alloc, 65536)?), None);
    check_constant(
        &rt,
        TypedExpr::NegateLong(number(alloc, 65536)?),
        Some(4294901760),
    );
    Ok(())
}
