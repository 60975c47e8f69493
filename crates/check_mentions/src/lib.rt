//! What depends on the order of a module's text and not on that of checking: its string literals, each where it stands first, and the
//! tokens at which its records and enumerations begin.
#![tactic(auto)]

mod expressions;
mod gathered;
mod modules;
mod parts;
mod statements;
mod types;

pub use modules::{Mentions, mentions_of};
