//! Worked configurations of the rules of `config_rules`. No call of the program is here.
#![tactic(auto)]
