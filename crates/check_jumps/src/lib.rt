//! Jumps and the labels to which they lead, arms, and what stands in arms alone: RETRY, CONTINUE, REJECT and RESUME.
#![tactic(auto)]

mod arms;
mod entering;
mod jumps;
mod labels;
mod likeness;
mod naming;

pub use arms::{continue_arm, is_unwinding, parameters_of, reject, resumed, retry};
pub use entering::{ArmPlace, add_all, enter_arm, in_arm, next_local};
pub use jumps::{exit_loop, go_to, next_round, return_jump};
pub use labels::{Labelled, in_round, labels_of_exits, labels_of_repeats, names_of, with_labels};
pub use naming::{arm_labels, label_of, labels_of};
