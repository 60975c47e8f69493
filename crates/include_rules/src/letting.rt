//! Texts and files as what may be held and let go.

use crate::entries::{FileEntry, TextEntry};
use held_trees::{InList, LetGo};
use mesa_base::List;
use std::mem::drop;

impl LetGo for TextEntry {
    fn let_go(self) {
        drop(self);
    }
}

impl InList for TextEntry {
    fn let_list_go(list: List<TextEntry>) {
        drop(list);
    }
}

impl LetGo for FileEntry {
    fn let_go(self) {
        drop(self);
    }
}

impl InList for FileEntry {
    fn let_list_go(list: List<FileEntry>) {
        drop(list);
    }
}
