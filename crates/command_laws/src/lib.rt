//! What is so of the answers of a command line. Laws; no call of the program is here.
#![tactic(auto)]

mod laws;

pub use laws::{
    bases_fit, cases_are_answers, forms_keep, never_answered, one_case, order_is_kept,
    passes_are_exact, runs_are_meant, runs_end_once, uncaught_is_surveyed, values_keep_their_size,
    words_have_one_form,
};
pub use read_files;
