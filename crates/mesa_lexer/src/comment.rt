//! How long a comment is.
ghost use Rattle.std.specs.Prelude.{◌≡◌, ◌≤◌, length};
ghost use Rattle.mesa_lexer.specs.Lexed.{comment_len};

use crate::bytes::{begins_with_hyphens, ends_line};

/// How many bytes a comment has behind its first two hyphens: up to the line's or the text's end, or through the next two.
pub fn comment(rest: &[u8]) -> usize
    ensures count { result ≡ comment_len rest.now }
    ensures within { result ≤ length rest.now }
{
    for (i, byte) in rest.iter().enumerate() {
        if ends_line(*byte) {
            return i;
        }
        if begins_with_hyphens(&rest[i..]) {
            return i + 2;
        }
    }
    rest.len()
}
