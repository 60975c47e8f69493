//! Sorts of bytes.
ghost use Rattle.std.specs.Prelude.{◌≡◌, ◌≤◌, length, IsTrue};
ghost use Rattle.std.specs.List.{list_all, prefix_len};
ghost use Rattle.mesa_base.specs.Name.{is_digit, is_letter_or_digit};
ghost use Rattle.mesa_lexer.specs.Blanks.{begins_with, begins_with_hyphens, ends_line, is_blank};
ghost use Rattle.mesa_lexer.specs.Forms.{is_octal_digit, is_plain, is_printed};
ghost use Rattle.mesa_lexer.specs.Lexed.{begins_with_arrow};

use mesa_base::{is_digit, is_letter_or_digit};

pub fn ends_line(byte: u8) -> bool
    ensures { result ≡ ends_line byte }
{
    byte == b'\n' || byte == b'\r'
}

pub fn is_blank(byte: u8) -> bool
    ensures { result ≡ is_blank byte }
{
    byte == b'\t' || byte == b'\n' || byte == 12 || byte == b'\r' || byte == b' '
}

pub fn is_octal_digit(byte: u8) -> bool
    ensures { result ≡ is_octal_digit byte }
{
    b'0' <= byte && byte <= b'7'
}

pub fn is_printed(byte: u8) -> bool
    ensures { result ≡ is_printed byte }
{
    b' ' <= byte && byte <= b'~'
}

/// Whether the byte stands for itself in a string.
pub fn is_plain(byte: u8) -> bool
    ensures { result ≡ is_plain byte }
{
    byte != b'"' && (byte == b'\t' || byte == b'\n' || byte == b'\r' || is_printed(byte))
}

pub fn begins_with(byte: u8, bytes: &[u8]) -> bool
    ensures { result ≡ begins_with byte bytes.now }
{
    match bytes {
        [] => false,
        [first, ..] => *first == byte,
    }
}

pub fn begins_with_hyphens(bytes: &[u8]) -> bool
    ensures value { result ≡ begins_with_hyphens bytes.now }
    ensures long { IsTrue result → 2 ≤ length bytes.now }
{
    match bytes {
        [] => false,
        [first, behind @ ..] => *first == b'-' && begins_with(b'-', behind),
    }
}

/// Whether U+2190 stands first.
pub fn begins_with_arrow(bytes: &[u8]) -> bool
    ensures { result ≡ begins_with_arrow bytes.now }
{
    match bytes {
        [a, b, c, ..] => *a == 0xE2 && *b == 0x86 && *c == 0x90,
        _ => false,
    }
}

/// How many letters and digits stand first.
pub fn letters_and_digits(bytes: &[u8]) -> usize
    ensures count { result ≡ prefix_len is_letter_or_digit bytes.now }
    ensures within { result ≤ length bytes.now }
{
    bytes
        .iter()
        .take_while(|byte| is_letter_or_digit(**byte))
        .count()
}

/// How many digits stand first.
pub fn digits(bytes: &[u8]) -> usize
    ensures count { result ≡ prefix_len is_digit bytes.now }
    ensures within { result ≤ length bytes.now }
{
    bytes.iter().take_while(|byte| is_digit(**byte)).count()
}

pub fn all_octal(bytes: &[u8]) -> bool
    ensures { result ≡ list_all is_octal_digit bytes.now }
{
    bytes.iter().all(|byte| is_octal_digit(*byte))
}
