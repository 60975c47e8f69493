//! Which texts are bases of files, and which FROM texts name files.
ghost use Rattle.std.specs.Prelude.{◌≡◌, bytes_eq};
ghost use Rattle.std.specs.List.{list_all};
ghost use Rattle.config_rules.specs.Components as file;
ghost use Rattle.checked_texts.specs.Asked as spec;

use mesa_base::{begins_with_letter, is_letter_or_digit};
use syntax_trees::syntax::DirectoryItem;

/// The most bytes of the base of a file's name.
const FILE_BASE_BYTES: usize = 64;

fn is_file_byte(byte: u8) -> bool
    ensures { result ≡ file.is_file_byte byte }
{
    is_letter_or_digit(byte) || (byte == b'-' || byte == b'_')
}

fn all_file_bytes(bytes: &[u8]) -> bool
    ensures { result ≡ list_all file.is_file_byte bytes.now }
{
    bytes.iter().all(|byte| is_file_byte(*byte))
}

/// Whether the bytes are the base of a file's name: a letter, then letters, digits, `-` and `_`, 64 bytes at most.
pub fn is_file_base(bytes: &[u8]) -> bool
    ensures { result ≡ file.is_file_base bytes.now }
{
    begins_with_letter(bytes) && (all_file_bytes(bytes) && bytes.len() <= FILE_BASE_BYTES)
}

/// Whether an item takes the built-in interface, which no file has.
pub fn is_built_in(item: &DirectoryItem) -> bool
    ensures { result ≡ spec.is_built_in item.now }
{
    item.name.name.bytes() == b"IODefs".as_slice()
}

/// Whether an item takes the built-in interface or names a file.
pub fn names_file(item: &DirectoryItem) -> bool
    ensures { result ≡ spec.names_file item.now }
{
    is_built_in(item) || is_file_base(item.file.as_slice())
}
