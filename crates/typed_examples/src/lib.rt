//! Examples of typed trees: which are sound, and what is counted of them; the calls on types and typed trees, tried.
#![tactic(auto)]

#[cfg(test)]
mod long_tests;
#[cfg(test)]
mod tests;
#[cfg(test)]
mod typed_tests;
