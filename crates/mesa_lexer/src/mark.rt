//! The marks of the language.

/// The marks. `_` and U+2190 are one mark, the arrow.
#[derive(Clone, Copy, PartialEq, Eq)]
pub enum Mark {
    Arrow,
    Semicolon,
    Colon,
    Comma,
    Dot,
    DotDot,
    LeftBracket,
    RightBracket,
    LeftParenthesis,
    RightParenthesis,
    LeftBrace,
    RightBrace,
    Equal,
    Sharp,
    Less,
    Greater,
    AtMost,
    AtLeast,
    Plus,
    Minus,
    Star,
    Slash,
    Bang,
    DoubleArrow,
    Tilde,
}
