//! Which signals may escape an image: the definition, and its law; no call of the program is here (rule of this project).
#![tactic(auto)]

mod laws;

pub use laws::uncaught_signals_escape;
