//! The limits of texts, each kept and each passed by one, and texts that end too soon.
use crate::calls::{is_left, left_by};
use std::alloc::{AllocError, Global};
use std::test::Fail;

/// A module whose inside has one piece many times, and behind it another one as often.
#[derive(Clone, Copy)]
struct Inside<'a> {
    before: &'a str,
    piece: &'a str,
    between: &'a str,
    closing: &'a str,
}

fn text_with(alloc: Global, inside: Inside<'_>, count: usize) -> Result<String, AllocError> {
    let mut text = String::from_str(alloc, "M: PROGRAM = BEGIN ")?;
    text.push_str(inside.before)?;
    for _ in 0..count {
        text.push_str(inside.piece)?;
    }
    text.push_str(inside.between)?;
    for _ in 0..count {
        text.push_str(inside.closing)?;
    }
    text.push_str(" END.")?;
    Ok(text)
}

fn status(rt: &HostRuntime, text: &str) -> Result<u8, Fail> {
    let left = left_by(rt, "go M.mesa 1", text)?;
    Ok(left.status)
}

/// Whether the module runs with so many pieces, and is refused with one more.
fn ends_at(rt: &HostRuntime, inside: Inside<'_>, count: usize) -> Result<bool, Fail> {
    let most = text_with(rt.alloc(), inside, count)?;
    let fits = status(rt, most.as_str())? == 0;
    let past = text_with(rt.alloc(), inside, count.saturating_add(1))?;
    Ok(fits && status(rt, past.as_str())? == 4)
}

fn nested<'a>(before: &'a str, piece: &'a str, between: &'a str, closing: &'a str) -> Inside<'a> {
    Inside {
        before,
        piece,
        between,
        closing,
    }
}

#[test]
fn limits(rt: HostRuntime) -> Result<(), Fail> {
    let loops = nested("a: INTEGER; ", "WHILE a = 1 DO ", "a ← a", " ENDLOOP");
    assert!(rt; ends_at(&rt, nested("", "a", ": INTEGER;", ""), 255)?);
    assert!(rt; ends_at(&rt, nested("a: INTEGER; a ← 1", " - 1", "", ""), 16_382)?);
    assert!(rt; ends_at(&rt, loops, 198)?);
    assert!(rt; ends_at(&rt, nested("", " ", "", ""), 1_048_552)?);
    Ok(())
}

fn variables(alloc: Global, count: u16) -> Result<String, AllocError> {
    let mut text = String::from_str(alloc, "M: PROGRAM = BEGIN ")?;
    for number in 0..count {
        let declaration = format!(in alloc; "v{number}: INTEGER;")?;
        text.push_str(declaration.as_str())?;
    }
    text.push_str(" END.")?;
    Ok(text)
}

fn status_with(rt: &HostRuntime, count: u16) -> Result<u8, Fail> {
    let text = variables(rt.alloc(), count)?;
    status(rt, text.as_str())
}

#[test]
fn most_variables(rt: HostRuntime) -> Result<(), Fail> {
    assert!(rt; status_with(&rt, 16_384)? == 0 && status_with(&rt, 16_385)? == 4);
    Ok(())
}

/// Whether a text is refused with this line.
fn is_refused(rt: &HostRuntime, text: &str, line: &str) -> Result<bool, Fail> {
    let left = left_by(rt, "go M.mesa 1", text)?;
    Ok(is_left(&left, 4, "", line))
}

/// The same where a module has so many pieces.
fn is_too_deep(
    rt: &HostRuntime,
    inside: Inside<'_>,
    count: usize,
    line: &str,
) -> Result<bool, Fail> {
    let text = text_with(rt.alloc(), inside, count)?;
    is_refused(rt, text.as_str(), line)
}

#[test]
fn nesting(rt: HostRuntime) -> Result<(), Fail> {
    let blocks = nested("", "BEGIN ", "", "END ");
    let parentheses = nested("x: INTEGER; x ← ", "(", "1", ")");
    assert!(rt; ends_at(&rt, blocks, 200)? && ends_at(&rt, parentheses, 198)?);
    assert!(rt; is_too_deep(&rt, blocks, 201, "M.mesa:1:1220: TooDeep\n")?);
    assert!(rt;
        is_too_deep(
            &rt,
            nested("", "BEGIN ", "", ""),
            1_000,
            "M.mesa:1:1220: TooDeep\n"
        )?
    );
    assert!(rt; is_too_deep(&rt, parentheses, 199, "M.mesa:1:237: TooDeep\n")?);
    assert!(rt;
        is_too_deep(
            &rt,
            nested("", "IF a THEN ", "", ""),
            200,
            "M.mesa:1:2013: TooDeep\n"
        )?
    );
    assert!(rt;
        is_too_deep(
            &rt,
            nested("x: ", "ARRAY T OF ", "", ""),
            200,
            "M.mesa:1:2218: TooDeep\n"
        )?
    );
    Ok(())
}

#[test]
fn texts_that_end_too_soon(rt: HostRuntime) -> Result<(), Fail> {
    assert!(rt; is_refused(&rt, "", "M.mesa:1:1: Unexpected\n")?);
    assert!(rt; is_refused(&rt, "Bad: PROGRAM = BEGIN END", "M.mesa:1:25: Unexpected\n")?);
    Ok(())
}
