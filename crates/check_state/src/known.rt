//! What is known of a module: its name and stamp, its literals, its origins, and what its DIRECTORY offers.
use crate::meaning::Meaning;
use crate::origins::Origins;
use crate::strings::Strings;
use interface_records::check_scopes::Names;
use mesa_types::mesa_base::{Name, Stamp};

/// Of the module.
#[derive(Drop)]
pub struct Known {
    pub name: Name,
    pub stamp: Option<Stamp>,
    pub is_program: bool,
    /// Its distinct string literals, in the order of the text.
    pub strings: Strings,
    /// The tokens at which its records and enumerations stand.
    pub origins: Origins,
    /// What each item of the DIRECTORY has to offer.
    pub interfaces: Vec<Names<Meaning>>,
}
