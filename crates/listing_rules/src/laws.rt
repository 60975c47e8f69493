//! The law of listings. No call of the program is here.

ghost use Rattle.listing_rules.specs.Laws.{SameObjectsHaveOneListing};

/// A law: objects that are the same, depths of instructions aside, have one listing.
#[tactic(auto, using(crate::proofs::SameListing::same_listing))]
pub fn same_objects_have_one_listing()
    ensures { SameObjectsHaveOneListing }
{}
