//! Names, lists, numbers, stamps, words and statuses.

use mesa_base::{Decimal, Name, Numbers, Stamp, Status, Words, decimal_value};
use std::alloc::Global;
use std::test::Fail;

fn is_name(alloc: Global, bytes: &[u8]) -> Result<bool, Fail> {
    Ok(Name::new(alloc, bytes)?.is_some())
}

#[test]
fn names(rt: HostRuntime) -> Result<(), Fail> {
    let alloc = rt.alloc();
    let long = [b'n'; 256];
    assert!(rt; is_name(alloc, b"a")? && is_name(alloc, b"Z")? && is_name(alloc, b"x9y")?);
    assert!(rt; is_name(alloc, &long[..255])? && !is_name(alloc, &long)? && !is_name(alloc, b"")?);
    assert!(rt; !is_name(alloc, b"9x")? && !is_name(alloc, b"a-b")? && !is_name(alloc, b"a\xe9")?);
    Ok(())
}

fn holds_three(alloc: Global) -> Result<bool, Fail> {
    let mut numbers = Numbers::of(alloc, 7)?;
    numbers.append(Numbers::from_slice(alloc, &[8, 9])?)?;
    numbers.append(Numbers::new(alloc))?;
    Ok(numbers.as_slice() == [7, 8, 9].as_slice())
}

#[test]
fn lists(rt: HostRuntime) -> Result<(), Fail> {
    assert!(rt; holds_three(rt.alloc())?);
    Ok(())
}

fn is_written(number: u64, text: &[u8]) -> bool {
    Decimal::of(number).as_bytes() == text && decimal_value(text) == Some(number)
}

fn is_no_number(text: &[u8]) -> bool {
    decimal_value(text).is_none()
}

#[test]
fn numbers(rt: HostRuntime) {
    assert!(rt; is_written(0, b"0") && is_written(10, b"10"));
    assert!(rt; is_written(u64::MAX, b"18446744073709551615"));
    assert!(rt; is_no_number(b"") && is_no_number(b"01") && is_no_number(b"+1"));
    assert!(rt; is_no_number(b"18446744073709551616"));
    assert!(rt; Decimal::signed(32_768).as_bytes() == b"-32768".as_slice());
}

fn is_stamp(text: &[u8], number: u64) -> bool {
    Stamp::parse(text).map(|stamp| stamp.number()) == Some(number)
}

fn is_no_stamp(text: &[u8]) -> bool {
    Stamp::parse(text).is_none()
}

#[test]
fn stamps(rt: HostRuntime) {
    assert!(rt; is_stamp(b"00000000000A", 10) && is_stamp(b"00000000000c", 12));
    assert!(rt; is_stamp(b"fFffFFffffFf", 281_474_976_710_655));
    assert!(rt; is_no_stamp(b"0000000000A") && is_no_stamp(b"0000000000000"));
    assert!(rt; is_no_stamp(b"00000000000G"));
}

fn holds_run(alloc: Global) -> Result<bool, Fail> {
    let mut words = Words::new(alloc);
    words.push(b"run")?;
    let is_first = words.get(0).map(|word| word.as_slice()) == Some(b"run".as_slice());
    Ok(is_first && words.get(1).is_none())
}

#[test]
fn words_and_statuses(rt: HostRuntime) -> Result<(), Fail> {
    assert!(rt; holds_run(rt.alloc())?);
    assert!(rt; Status::Done.code() == 0 && Status::Memory.code() == 9);
    assert!(rt; Status::Usage.code() == 10);
    Ok(())
}
