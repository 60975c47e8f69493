//! A program and an image that stands for it. No call of the program is here.
#![tactic(auto)]
