//! Names with the places where they stand.
use crate::list::List;
use crate::name::Name;
use crate::place::Place;

/// A name and where it stands.
#[derive(Drop)]
pub struct Identifier {
    pub name: Name,
    pub place: Place,
}

pub type Identifiers = List<Identifier>;
