//! Offsets and stamps as hexadecimal digits.
ghost use Rattle.std.specs.Prelude.{◌≡◌, ◌<◌, ◌++◌, OnOk};
ghost use Rattle.line_pieces.specs.Texts as text;
ghost use Rattle.line_pieces.specs.Texts.{hexadecimal_digit, stamp_text};
ghost use Rattle.listing_rules.specs.Lines.{offset_text};

use crate::texts::put_text;
use mesa_base::{Bytes, OutOfMemory, Stamp};

fn digit(value: u8) -> u8
    requires { value < 16 }
    ensures { result ≡ hexadecimal_digit value }
{
    if value < 10 {
        b'0' + value
    } else {
        b'7' + value
    }
}

/// The digit that counts these units.
fn digit_at(number: u64, unit: u64) -> u8
    requires { 0 < unit }
    ensures { result ≡ text.digit_at number unit }
{
    digit((number / unit % 16) as u8)
}

/// An offset as 8 hexadecimal digits, upper case.
#[tactic(auto, unfolding(listing_rules::specs::Lines::offset_text))]
fn offset_digits(offset: u32) -> [u8; 8]
    ensures { result ≡ offset_text offset }
{
    let number = offset as u64;
    [
        digit_at(number, 1 << 28),
        digit_at(number, 1 << 24),
        digit_at(number, 1 << 20),
        digit_at(number, 1 << 16),
        digit_at(number, 1 << 12),
        digit_at(number, 1 << 8),
        digit_at(number, 1 << 4),
        digit_at(number, 1),
    ]
}

/// The number of a stamp as 12 hexadecimal digits, upper case.
fn stamp_digits(number: u64) -> [u8; 12]
    ensures { result ≡ stamp_text number }
{
    [
        digit_at(number, 1 << 44),
        digit_at(number, 1 << 40),
        digit_at(number, 1 << 36),
        digit_at(number, 1 << 32),
        digit_at(number, 1 << 28),
        digit_at(number, 1 << 24),
        digit_at(number, 1 << 20),
        digit_at(number, 1 << 16),
        digit_at(number, 1 << 12),
        digit_at(number, 1 << 8),
        digit_at(number, 1 << 4),
        digit_at(number, 1),
    ]
}

pub(crate) fn put_offset(out: &mut Bytes, offset: u32) -> Result<(), OutOfMemory>
    ensures { OnOk result (out.new ≡ out.old ++ offset_text offset) }
{
    put_text(out, &offset_digits(offset))
}

pub(crate) fn put_stamp(out: &mut Bytes, stamp: Stamp) -> Result<(), OutOfMemory>
    ensures { OnOk result (out.new ≡ out.old ++ stamp_text stamp) }
{
    put_text(out, &stamp_digits(stamp.number()))
}
