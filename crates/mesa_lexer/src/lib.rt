//! From the bytes of a text to its tokens.
#![tactic(auto)]

mod bytes;
mod comment;
mod fault;
mod identifier;
mod laws;
mod lexed;
mod longest_mark;
mod mark;
mod number;
mod position;
mod scan;
mod string;
mod token;
mod vocabulary;
mod word;

pub use fault::{LexFault, SyntaxFault};
pub use laws::one_answer;
pub use mark::Mark;
pub use scan::tokens;
pub use token::{Kind, Token, Tokens};
pub use word::Word;
