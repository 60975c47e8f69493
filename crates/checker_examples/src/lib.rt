//! What texts come to as modules: a table of texts for each chapter of the rules, with a small reader of texts. No code.
#![tactic(auto)]
