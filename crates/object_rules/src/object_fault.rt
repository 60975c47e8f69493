//! Why bytes are no file of an object or an image.
use code_forms::CodeFault;
use mesa_base::Field;

/// Why bytes are no object or image file: the first reason from the left, and after the whole file the first fault of its
/// code (rule of this project). Numbers are offsets in bytes from the first.
#[derive(Clone, Copy)]
pub enum ObjectFault {
    /// The file does not begin with the letters of its kind.
    BadMagic,
    /// The file has more than 536,870,912 bytes.
    TooLong,
    /// The bytes end inside a field, at this offset.
    Cut(u64),
    /// The field that begins here breaks its rule.
    BadField(u64, Field),
    /// The file ends here, and more bytes follow.
    TrailingBytes(u64),
    /// The code of this module and this procedure, the first with a fault, has that fault.
    Code(u32, u32, CodeFault),
    Memory,
}
