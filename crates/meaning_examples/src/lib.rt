//! Worked programs, as typed trees written by hand, and what they mean. No call of the program is here.
#![tactic(auto)]
