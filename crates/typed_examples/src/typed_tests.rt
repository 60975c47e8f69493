//! Values of constant expressions over words, and copies of modules, tried.
use held_trees::{LetGo, both, boxed, boxed_pair, pushed, shared};
use mesa_base::{Boxed, Bytes, List, Name, Relation, Texts};
use mesa_types::{
    Base, Exprs, Home, Operation, Operator, Range, TypedBody, TypedExpr, TypedModule, TypedStmt,
};
use std::alloc::Global;
use std::process::Abort;
use std::test::Fail;
use typed_answers::constant;

fn run(alloc: Global, left: u16, operator: Operator, right: u16) -> Result<TypedExpr, Fail> {
    let operation = Operation {
        check: Range::Every,
        operator,
        right: TypedExpr::Number(right),
    };
    let rest = pushed(List::new(alloc), operation)?;
    let (rest, left) = both(rest, boxed(alloc, TypedExpr::Number(left)))?;
    Ok(TypedExpr::Operate(left, rest))
}

fn check_constant(rt: &impl Abort, whole: TypedExpr, value: Option<u32>) {
    assert_eq!(rt; constant(&whole), value);
    whole.let_go();
}

fn check_run(
    rt: &impl Abort,
    alloc: Global,
    left: u16,
    operator: Operator,
    right: u16,
    value: Option<u32>,
) -> Result<(), Fail> {
    check_constant(rt, run(alloc, left, operator, right)?, value);
    Ok(())
}

#[test]
fn constants_by_operators(rt: HostRuntime) -> Result<(), Fail> {
    let alloc = rt.alloc();
    check_run(&rt, alloc, 65535, Operator::Add, 2, Some(1))?;
    check_run(&rt, alloc, 1, Operator::Subtract, 2, Some(65535))?;
    check_run(&rt, alloc, 65535, Operator::Multiply, 3, Some(65533))?;
    check_run(
        &rt,
        alloc,
        65529,
        Operator::Divide(Base::Signed),
        2,
        Some(65533),
    )?;
    check_run(
        &rt,
        alloc,
        65529,
        Operator::Divide(Base::Unsigned),
        2,
        Some(32764),
    )?;
    check_run(
        &rt,
        alloc,
        65529,
        Operator::Modulo(Base::Signed),
        2,
        Some(65535),
    )?;
    check_run(&rt, alloc, 7, Operator::Modulo(Base::Unsigned), 0, None)?;
    check_run(&rt, alloc, 7, Operator::Divide(Base::Signed), 0, None)
}

#[test]
fn constants_of_characters(rt: HostRuntime) -> Result<(), Fail> {
    let alloc = rt.alloc();
    check_run(
        &rt,
        alloc,
        254,
        Operator::AddToCharacter(Base::Signed),
        1,
        Some(255),
    )?;
    check_run(
        &rt,
        alloc,
        255,
        Operator::AddToCharacter(Base::Unsigned),
        1,
        None,
    )?;
    check_run(
        &rt,
        alloc,
        0,
        Operator::SubtractFromCharacter(Base::Signed),
        1,
        None,
    )
}

fn boxed_number(alloc: Global, word: u16) -> Result<Boxed<TypedExpr>, Fail> {
    Ok(boxed(alloc, TypedExpr::Number(word))?)
}

fn related(
    alloc: Global,
    base: Base,
    relation: Relation,
    left: u16,
    right: u16,
) -> Result<TypedExpr, Fail> {
    let (left, right) = boxed_pair(alloc, TypedExpr::Number(left), TypedExpr::Number(right))?;
    Ok(TypedExpr::Relate(base, relation, left, right))
}

fn numbers(alloc: Global, words: &[u16]) -> Result<Exprs, Fail> {
    let mut all = List::new(alloc);
    for word in words {
        all = pushed(all, TypedExpr::Number(*word))?;
    }
    Ok(all)
}

#[test]
fn constants_by_relations(rt: HostRuntime) -> Result<(), Fail> {
    let alloc = rt.alloc();
    let signed = related(alloc, Base::Signed, Relation::Less, 65535, 1)?;
    check_constant(&rt, signed, Some(1));
    let unsigned = related(alloc, Base::Unsigned, Relation::Less, 65535, 1)?;
    check_constant(&rt, unsigned, Some(0));
    let all = numbers(alloc, &[1, 0])?;
    check_constant(&rt, TypedExpr::AllOf(all), Some(0));
    let either = numbers(alloc, &[1, 0])?;
    check_constant(&rt, TypedExpr::SomeOf(either), Some(1));
    Ok(())
}

#[test]
fn what_is_no_constant(rt: HostRuntime) -> Result<(), Fail> {
    let alloc = rt.alloc();
    check_constant(&rt, TypedExpr::Literal(0), None);
    let variable = TypedExpr::Variable(Home::Global(0), List::new(alloc), 1);
    check_constant(&rt, variable, None);
    let range = Range::From(Base::Signed, 0, 9);
    let outside = TypedExpr::Checked(range, boxed_number(alloc, 10)?);
    check_constant(&rt, outside, None);
    let inside = TypedExpr::Checked(range, boxed_number(alloc, 9)?);
    check_constant(&rt, inside, Some(9));
    Ok(())
}

fn texts(alloc: Global) -> Result<Texts, Fail> {
    let mut texts = List::new(alloc);
    let text: Bytes = List::from_slice(alloc, b"ab")?;
    texts.push(text)?;
    Ok(texts)
}

fn a_module(alloc: Global) -> Result<TypedModule, Fail> {
    let name = Name::new(alloc, b"M")?.ok_or("a name")?;
    let strings = texts(alloc)?;
    let does = shared(alloc, TypedStmt::Null)?;
    Ok(TypedModule {
        name,
        imports: List::new(alloc),
        exports: List::new(alloc),
        globals: List::new(alloc),
        signals: List::new(alloc),
        strings,
        procedures: List::new(alloc),
        body: TypedBody {
            variables: List::new(alloc),
            does,
        },
    })
}

#[test]
fn copies_of_modules(rt: HostRuntime) -> Result<(), Fail> {
    let module = a_module(rt.alloc())?;
    let copy = module.copy(rt.alloc());
    let (module, copy) = both(module, copy)?;
    assert_eq!(rt; copy.name.bytes(), b"M".as_slice());
    assert_eq!(rt; copy.strings.len(), 1);
    assert!(rt; matches!(copy.body.does.get(), TypedStmt::Null));
    (module, copy).let_go();
    Ok(())
}
