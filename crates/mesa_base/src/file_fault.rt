//! Why bytes are no file of their kind, and why a value is not written as a file.
use thiserror::Error;

/// What is wrong with a field of an interface, object or image file (rule of this project).
#[derive(Clone, Copy)]
pub enum Field {
    Version,
    /// A name has bytes that no name has.
    Name,
    /// A byte that chooses a form is none of those that may stand there.
    Kind,
    /// A type's tag may not stand there, or the type has too many words.
    TypeTag,
    /// A number, a reference or an order.
    Number,
    /// A length or a count that is out of its range.
    Length,
    Opcode,
    /// A name or a path that was there before.
    Twice,
}

/// Why bytes are no file of their kind: the first reason from the left. Numbers are offsets in bytes from the first.
#[derive(Clone, Copy)]
pub enum FileFault {
    /// The file does not begin with the letters of its kind.
    BadMagic,
    /// The file has more than 536,870,912 bytes.
    TooLong,
    /// The bytes end inside a field, at this offset.
    Cut(u64),
    /// The field that begins here breaks its rule.
    BadField(u64, Field),
    /// The file ends here, and more bytes follow.
    TrailingBytes(u64),
    Memory,
}

/// Why a value was not written as a file.
#[derive(Clone, Copy, Debug, PartialEq, Eq, Error)]
pub enum WriteFault {
    #[error("the file would have more than 536,870,912 bytes")]
    TooLarge,
    #[error("memory ran out")]
    Memory,
}
