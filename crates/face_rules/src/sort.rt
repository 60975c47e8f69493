//! Which types may stand at a place.
ghost use Rattle.std.specs.Prelude.{◌≡◌};
ghost use Rattle.face_rules.specs.Sorts.{takes};

/// Which types may stand at a place.
#[derive(Clone, Copy)]
pub enum Sort {
    Any,
    /// INTEGER, CARDINAL, BOOLEAN, CHARACTER and enumerations.
    Base,
    /// BOOLEAN, CHARACTER, enumerations and subranges.
    Index,
    /// Those of constants: all whose values are words in an order, and the LONG types.
    OfConstant,
}

impl Sort {
    pub fn takes(self, tag: u8) -> bool
        ensures { result ≡ takes self tag }
    {
        match self {
            Sort::Any => true,
            Sort::Base => tag <= 4 || tag == 6,
            Sort::Index => tag == 3 || tag == 4 || tag == 6 || tag == 7,
            Sort::OfConstant => tag <= 4 || tag == 6 || tag == 7 || tag == 10 || tag == 11,
        }
    }
}
