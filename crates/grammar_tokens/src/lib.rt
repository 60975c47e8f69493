//! What the tokens of a module say: which of them begin a part, stand for an operator or an access, or are labels.
#![tactic(auto)]

pub mod begins;
pub mod naming;
pub mod words_and_marks;
