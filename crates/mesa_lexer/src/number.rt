//! Numbers, and characters by their octal code.
ghost use Rattle.std.specs.Prelude.{◌≡◌, ◌+◌, ◌≤◌, min};
ghost use Rattle.mesa_lexer.specs.Forms.{number_in};
ghost use Rattle.mesa_lexer.specs.Lexed.{coded, number_lexed, numbered, suffixed};

use crate::bytes::{all_octal, digits};
use crate::lexed::Lexed;
use crate::token::Kind;
use mesa_base::limits::{GREATEST_CHARACTER, GREATEST_NUMBER};

/// What the digits stand for, or one above the limit of numbers where it is above that.
fn value(base: u64, digits: &[u8]) -> u64
    requires some { 1 ≤ base }
    requires few { base ≤ 10 }
    ensures { result ≡ min (number_in base digits.now) (GREATEST_NUMBER + 1) }
{
    let mut value: u64 = 0;
    for digit in digits {
        value = (value * base + u64::from(digit.saturating_sub(b'0'))).min(GREATEST_NUMBER + 1);
    }
    value
}

fn numbered(count: usize, value: u64) -> Lexed
    ensures { result ≡ numbered count value }
{
    if value > GREATEST_NUMBER {
        Lexed::TooLarge
    } else {
        Lexed::Token(count, Kind::Number(value as u32))
    }
}

fn coded(count: usize, code: u64) -> Lexed
    ensures { result ≡ coded count code }
{
    if code > GREATEST_CHARACTER {
        Lexed::TooLarge
    } else {
        Lexed::Token(count, Kind::Char(code as u8))
    }
}

/// The number with these digits, by the byte that follows them: `D` is decimal, `B` is octal, and `C` is an octal code.
fn suffixed(digits: &[u8], behind: &[u8]) -> Lexed
    ensures { result ≡ suffixed digits.now behind.now }
{
    let count = digits.len();
    match behind {
        [b'D', ..] => numbered(count + 1, value(10, digits)),
        [b'B', ..] if all_octal(digits) => numbered(count + 1, value(8, digits)),
        [b'C', ..] if all_octal(digits) => coded(count + 1, value(8, digits)),
        _ => numbered(count, value(10, digits)),
    }
}

/// The number whose first digit stands first.
pub fn number(rest: &[u8]) -> Lexed
    ensures { result ≡ number_lexed rest.now }
{
    let (digits, behind) = rest.split_at(digits(rest));
    suffixed(digits, behind)
}
