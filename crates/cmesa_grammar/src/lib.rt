//! The grammar of configurations: what the tokens of a text come to is a tree, or a fault at its place (Language Manual,
//! chapter 7, as far as this project takes it).
#![tactic(auto)]

mod begins;
mod instances;
mod laws;
mod letting;
mod lists;
mod nesting;
mod parser;
mod statements;
mod syntax;
mod texts;

pub use laws::{exactly_one_answer, one_node_a_token};
pub use parser::configuration;
pub use syntax::{
    ComponentFile, ComponentFiles, Config, ConfigStatement, ConfigStatements, Configuration,
    Heading, Instantiation,
};
