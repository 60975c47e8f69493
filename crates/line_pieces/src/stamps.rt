//! Stamps as digits.

ghost use Rattle.std.specs.Prelude.{◌≡◌, ◌<◌};
ghost use Rattle.line_pieces.specs.Texts as text;
ghost use Rattle.line_pieces.specs.Texts.{hexadecimal_digit, stamp_text};

fn digit(value: u8) -> u8
    requires { value < 16 }
    ensures { result ≡ hexadecimal_digit value }
{
    if value < 10 {
        b'0' + value
    } else {
        b'7' + value
    }
}

/// The digit that counts these units.
fn digit_at(number: u64, unit: u64) -> u8
    requires { 0 < unit }
    ensures { result ≡ text.digit_at number unit }
{
    digit((number / unit % 16) as u8)
}

/// The number of a stamp as 12 hexadecimal digits, upper case.
pub(crate) fn stamp_digits(number: u64) -> [u8; 12]
    ensures { result ≡ stamp_text number }
{
    [
        digit_at(number, 1 << 44),
        digit_at(number, 1 << 40),
        digit_at(number, 1 << 36),
        digit_at(number, 1 << 32),
        digit_at(number, 1 << 28),
        digit_at(number, 1 << 24),
        digit_at(number, 1 << 20),
        digit_at(number, 1 << 16),
        digit_at(number, 1 << 12),
        digit_at(number, 1 << 8),
        digit_at(number, 1 << 4),
        digit_at(number, 1),
    ]
}
