//! What a file holds that is listed or upgraded: its listing, or its bytes in version 2.
#![tactic(auto)]

mod held;
mod listing;
mod names;
mod upgrading;

pub use listing::listing_of_file;
pub use names::file_of_kind;
pub use upgrading::upgraded_file;
