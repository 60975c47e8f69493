//! The files of the exercise in a folder of its own, and an empty input.
#![tactic(auto)]

mod chain;
mod empty_input;
mod filling;
mod folder;
mod texts;

pub use empty_input::EmptyInput;
pub use filling::exercise_folder;
pub use folder::ExerciseFolder;
