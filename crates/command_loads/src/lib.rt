//! From the files of images to the machine that is ready to run: one image as it is, or several that are loaded as one.
#![tactic(auto)]

mod ends;
mod hosts;
mod images;
mod lacking;
mod loading;
mod together;

pub use loading::loaded;
