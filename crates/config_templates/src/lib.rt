//! Going through a configuration: the modules that it mentions, and the template in which each statement is looked up, or the first
//! fault (Language Manual, chapter 7; the order of faults is a rule of this project). The definitions stand in `config_rules`.
#![tactic(auto)]

mod copies;
mod counts;
mod files;
mod found;
mod going;
mod headings;
mod instances;
mod known;
mod letting;
mod listing;
mod mentioned;
mod modules;
mod so_far;
mod template;

pub use copies::{exported, imported};
pub use going::gone_through;
pub use listing::{components, components_as_written};
pub use template::{Part, Template, TemplatePart, TemplateParts};
