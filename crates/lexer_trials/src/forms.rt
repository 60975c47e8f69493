//! The tokens of each form, and where they stand.

use crate::reading::{Is, is_at, reads, reads_marks};
use mesa_lexer::{Mark, Tokens, Word, tokens};
use std::alloc::Global;
use std::test::Fail;

const X: Is<'static> = Is::Name(b"x");

const Y: Is<'static> = Is::Name(b"y");

const Z: Is<'static> = Is::Name(b"z");

#[test]
fn names_and_words(rt: HostRuntime) -> Result<(), Fail> {
    let alloc = rt.alloc();
    assert!(rt; reads(alloc, b"", &[])? && reads(alloc, b" \t\n\x0C\r\r\n", &[])?);
    let begins = [
        X,
        Is::Name(b"Y1z"),
        Is::Word(Word::BeginWord),
        Is::Name(b"begin"),
    ];
    assert!(rt; reads(alloc, b"x Y1z BEGIN begin", &begins)?);
    let left_out = [
        Is::Word(Word::LongWord),
        Is::Word(Word::LoopholeWord),
        Is::Name(b"ENDs"),
    ];
    assert!(rt; reads(alloc, b"LONG LOOPHOLE ENDs", &left_out)?);
    Ok(())
}

#[test]
fn numbers(rt: HostRuntime) -> Result<(), Fail> {
    let alloc = rt.alloc();
    assert!(rt; reads(alloc, b"19B", &[Is::Number(19), Is::Name(b"B")])?);
    assert!(rt; reads(alloc, b"101C 377C", &[Is::Char(65), Is::Char(255)])?);
    assert!(rt; reads(alloc, b"18C", &[Is::Number(18), Is::Name(b"C")])?);
    let four = [
        Is::Number(4_294_967_295),
        Is::Number(17),
        Is::Number(15),
        Is::Number(0),
    ];
    assert!(rt; reads(alloc, b"4294967295 17D 17B 0", &four)?);
    assert!(rt;
        reads(
            alloc,
            b"1..2",
            &[Is::Number(1), Is::Mark(Mark::DotDot), Is::Number(2)]
        )?
    );
    let three = [
        Is::Number(1),
        Is::Mark(Mark::DotDot),
        Is::Mark(Mark::Dot),
        Is::Number(2),
    ];
    assert!(rt; reads(alloc, b"1...2", &three)?);
    Ok(())
}

#[test]
fn comments(rt: HostRuntime) -> Result<(), Fail> {
    let alloc = rt.alloc();
    assert!(rt; reads(alloc, b"x--y--z", &[X, Z])? && reads(alloc, b"x---y--z", &[X, Z])?);
    assert!(rt; reads(alloc, b"x----y", &[X, Y])? && reads(alloc, b"x--y-\nz", &[X, Z])?);
    assert!(rt; reads(alloc, b"x--y", &[X])? && reads(alloc, b"x -- y -", &[X])?);
    Ok(())
}

#[test]
fn characters_and_strings(rt: HostRuntime) -> Result<(), Fail> {
    let alloc = rt.alloc();
    assert!(rt; reads(alloc, b"'--", &[Is::Char(45), Is::Mark(Mark::Minus)])?);
    let four = [Is::Char(97), Is::Char(39), Is::Char(39), Is::Name(b"B")];
    assert!(rt; reads(alloc, b"'a''''B", &four)?);
    let texts = [Is::Text(b""), Is::Text(b"a\"b"), Is::Text(b"a\tb\r\n")];
    assert!(rt; reads(alloc, b"\"\" \"a\"\"b\" \"a\tb\r\n\"", &texts)?);
    let arrow = Is::Mark(Mark::Arrow);
    let arrows = [arrow, Is::Char(95), Is::Text(b"a_b"), arrow];
    assert!(rt;
        reads(
            alloc,
            b"\xE2\x86\x90 '\xE2\x86\x90 \"a\xE2\x86\x90b\" _",
            &arrows
        )?
    );
    Ok(())
}

#[test]
fn marks(rt: HostRuntime) -> Result<(), Fail> {
    let alloc = rt.alloc();
    let compared = [
        Mark::AtMost,
        Mark::Less,
        Mark::AtLeast,
        Mark::AtLeast,
        Mark::Greater,
    ];
    assert!(rt; reads_marks(alloc, b"<=<>=>=>", &compared)?);
    let first = [
        Mark::DoubleArrow,
        Mark::Equal,
        Mark::Greater,
        Mark::Semicolon,
        Mark::Colon,
        Mark::Comma,
        Mark::Dot,
        Mark::LeftBracket,
        Mark::RightBracket,
        Mark::LeftParenthesis,
        Mark::RightParenthesis,
    ];
    assert!(rt; reads_marks(alloc, b"=> = > ; : , . [ ] ( )", &first)?);
    let others = [
        Mark::LeftBrace,
        Mark::RightBrace,
        Mark::Sharp,
        Mark::Less,
        Mark::Plus,
        Mark::Minus,
        Mark::Star,
        Mark::Slash,
        Mark::Bang,
        Mark::Tilde,
    ];
    assert!(rt; reads_marks(alloc, b"{ } # < + - * / ! ~", &others)?);
    let assigned = [
        Is::Name(b"a"),
        Is::Mark(Mark::LeftBracket),
        Is::Name(b"i"),
        Is::Mark(Mark::RightBracket),
        Is::Mark(Mark::Arrow),
        Is::Name(b"b"),
        Is::Mark(Mark::Plus),
        Is::Number(1),
        Is::Mark(Mark::Semicolon),
    ];
    assert!(rt; reads(alloc, b"a[i]_b+1;", &assigned)?);
    Ok(())
}

/// Whether the token of this number stands here.
fn stands(found: &Tokens, token: u32, line: u32, column: u32) -> bool {
    found
        .get(token as usize)
        .is_some_and(|it| is_at(it.place, token, line, column))
}

fn are_placed(alloc: Global) -> Result<bool, Fail> {
    let text: &[u8] = b"a\r\nb\rc\n\nd \"x\ny\" e -- z\r\n \xE2\x86\x90 f\n";
    let found = tokens(alloc, text).ok().ok_or("a fault")?;
    let first = stands(&found, 0, 1, 1)
        && stands(&found, 1, 2, 1)
        && stands(&found, 2, 3, 1)
        && stands(&found, 3, 5, 1);
    let others = stands(&found, 4, 5, 3)
        && stands(&found, 5, 6, 4)
        && stands(&found, 6, 7, 2)
        && stands(&found, 7, 7, 6);
    Ok(first && others && found.len() == 8 && found.get(8).is_none() && is_at(found.end(), 8, 8, 1))
}

#[test]
fn places(rt: HostRuntime) -> Result<(), Fail> {
    assert!(rt; are_placed(rt.alloc())?);
    Ok(())
}
