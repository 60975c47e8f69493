//! The texts and the files that are planned.

use interface_records::Interface;
use mesa_base::{Bytes, List};
use object_files::Object;
use syntax_trees::Module;

pub type TextEntries = List<TextEntry>;

pub type FileEntries = List<FileEntry>;

/// A text: the base of its file, and its tree.
#[derive(Drop)]
pub struct TextEntry {
    pub base: Bytes,
    pub module: Module,
}

/// A file that was made of a text before.
#[derive(Drop)]
pub enum FileEntry {
    /// An interface.
    Interface(Interface),
    /// The object of the text of this number, from 0.
    Object(u32, Object),
}
