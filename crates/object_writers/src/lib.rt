//! Objects and images as files: the spelling of version 2.
#![tactic(auto)]

mod catching;
mod code;
mod files;
mod images;
mod modules;
mod operands;
mod procedures;
mod put;

pub use files::{write_image, write_object};
