//! The relations of the language.

/// The relations of the language, of a text and of a typed tree alike (Language Manual, chapter 2).
#[derive(Clone, Copy)]
pub enum Relation {
    Equal,
    NotEqual,
    Less,
    AtMost,
    Greater,
    AtLeast,
}
