//! What may stand at a place of a text: a gap, a token, or why there is neither.
use crate::token::Kind;

/// What stands at a place of a text, with the count of its bytes.
#[derive(Drop)]
pub enum Lexed {
    /// A blank or a comment.
    Gap(usize),
    Token(usize, Kind),
    /// No token begins here.
    NoToken,
    /// The beginning of a string, behind which stands a byte that may not stand in it.
    Stray(usize),
    /// The beginning of a string, which the text's end cuts.
    Open,
    /// A number or a character's code above its limit.
    TooLarge,
    /// An identifier or a string above its limit.
    TooLong,
}
