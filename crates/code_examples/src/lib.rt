//! Examples of valid code, and of the first fault of code that is not. No call of the program is here.
#![tactic(auto)]
