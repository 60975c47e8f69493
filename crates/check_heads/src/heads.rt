//! What a head is.

use check_scopes::Names;
use check_state::Meaning;
use mesa_types::Fields;

/// Parameters and results, and the scope of their names and of the elements in their types.
#[derive(Drop)]
pub struct Heading {
    pub takes: Fields,
    pub gives: Fields,
    pub scope: Names<Meaning>,
}
