//! Parts of a text with the places where they begin.
use crate::place::Place;

/// A part of a text and where it begins.
#[derive(Drop)]
pub struct Placed<T> {
    pub place: Place,
    pub item: T,
}
