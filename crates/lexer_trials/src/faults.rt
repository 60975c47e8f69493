//! Faults and where they stand, and the limits.

use crate::reading::is_at;
use mesa_lexer::{LexFault, tokens};
use std::alloc::{AllocError, Global};
use std::test::Fail;

fn fault(alloc: Global, text: &[u8]) -> Option<LexFault> {
    tokens(alloc, text).err()
}

fn is_bad(alloc: Global, text: &[u8], token: u32, line: u32, column: u32) -> bool {
    matches!(fault(alloc, text), Some(LexFault::BadByte(place)) if is_at(place, token, line, column))
}

fn is_open(alloc: Global, text: &[u8], token: u32, line: u32, column: u32) -> bool {
    matches!(fault(alloc, text), Some(LexFault::OpenString(place)) if is_at(place, token, line, column))
}

fn is_too_large(alloc: Global, text: &[u8], token: u32, line: u32, column: u32) -> bool {
    matches!(fault(alloc, text), Some(LexFault::NumberTooLarge(place)) if is_at(place, token, line, column))
}

#[test]
fn bad_bytes(rt: HostRuntime) {
    let alloc = rt.alloc();
    assert!(rt;
        is_bad(alloc, b"Bad: PROGRAM = BEGIN ? END.", 5, 1, 22) && is_bad(alloc, b"$", 0, 1, 1)
    );
    assert!(rt;
        is_bad(alloc, b"x\r\n y\r\r\n  ?", 2, 4, 3)
            && is_bad(alloc, b"-- a\n\xE2\x86\x90?", 1, 2, 4)
    );
    assert!(rt; is_bad(alloc, b"\xE2", 0, 1, 1) && is_bad(alloc, b"a \xE2\x86", 1, 1, 3));
    assert!(rt; is_bad(alloc, b"'", 0, 1, 1) && is_bad(alloc, b"'\n", 0, 1, 1));
    assert!(rt; is_bad(alloc, b"'\xE2\x86", 0, 1, 1) && is_bad(alloc, b"'--'", 2, 1, 4));
    assert!(rt;
        is_bad(alloc, b"x \"ab\x0C\"", 1, 1, 6) && is_bad(alloc, b"\"a\nb\xE2\x86\"", 0, 2, 2)
    );
    assert!(rt; is_bad(alloc, b"\"a\"\"\x80", 0, 1, 5));
}

#[test]
fn open_strings(rt: HostRuntime) {
    let alloc = rt.alloc();
    assert!(rt; is_open(alloc, b"x \"ab", 1, 1, 3) && is_open(alloc, b"\"\"\"", 0, 1, 1));
    assert!(rt; is_open(alloc, b"\"a\r\nb\"\"", 0, 1, 1));
}

#[test]
fn large_numbers(rt: HostRuntime) {
    let alloc = rt.alloc();
    assert!(rt;
        is_too_large(alloc, b"4294967296", 0, 1, 1) && is_too_large(alloc, b"4294967296 ?", 0, 1, 1)
    );
    assert!(rt; is_too_large(alloc, b" 99999999999999999999999D", 0, 1, 2));
    assert!(rt;
        is_too_large(alloc, b"40000000000B", 0, 1, 1) && is_too_large(alloc, b"x 400C", 1, 1, 3)
    );
}

/// What is wrong with some bytes, then many of another, then those again.
fn fault_around(
    alloc: Global,
    ends: &[u8],
    inner: u8,
    count: usize,
) -> Result<Option<LexFault>, AllocError> {
    let mut text = Vec::new(alloc);
    text.extend_from_slice(ends)?;
    for _ in 0..count {
        text.push(inner)?;
    }
    text.extend_from_slice(ends)?;
    Ok(fault(alloc, &text))
}

fn fits(alloc: Global, ends: &[u8], inner: u8, count: usize) -> Result<bool, AllocError> {
    Ok(fault_around(alloc, ends, inner, count)?.is_none())
}

fn is_too_long(alloc: Global, ends: &[u8], inner: u8, count: usize) -> Result<bool, AllocError> {
    let fault = fault_around(alloc, ends, inner, count)?;
    Ok(matches!(fault, Some(LexFault::TokenTooLong(place)) if is_at(place, 0, 1, 1)))
}

fn is_too_long_a_text(alloc: Global, count: usize) -> Result<bool, AllocError> {
    Ok(matches!(
        fault_around(alloc, b"", b' ', count)?,
        Some(LexFault::TextTooLong)
    ))
}

#[test]
fn limits(rt: HostRuntime) -> Result<(), Fail> {
    let alloc = rt.alloc();
    assert!(rt; fits(alloc, b"", b'x', 255)? && is_too_long(alloc, b"", b'x', 256)?);
    assert!(rt; fits(alloc, b"\"", b'x', 32_767)? && is_too_long(alloc, b"\"", b'x', 32_768)?);
    assert!(rt; fits(alloc, b"", b' ', 1_048_576)? && is_too_long_a_text(alloc, 1_048_577)?);
    Ok(())
}
