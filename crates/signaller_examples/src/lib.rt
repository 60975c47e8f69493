//! Tables of phrases made by hand, and what the search and the index say of them.
#![tactic(auto)]

#[cfg(test)]
mod tests;
