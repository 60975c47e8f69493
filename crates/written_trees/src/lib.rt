//! Trees of texts are written as the soundness of checking asks, so what checking gives of a text is sound. No call of the program is here.
#![tactic(auto)]

mod laws;

pub use laws::{
    checked_definitions_are_in_order, checked_texts_are_sound, checked_texts_can_be_spelled,
    checked_texts_have_names, checked_texts_stand_alone, faults_stand_at_tokens,
    names_of_trees_are_names, places_are_of_tokens, tokens_are_within, trees_are_written,
};
