//! The laws of listings of files. No call of the program is here.

ghost use Rattle.listed_files.specs.Laws.{OneListing, OneFault, ListingOrFault, SameImagesHaveOneListing};

/// A law: bytes have one listing at most as a file of a kind.
#[tactic(auto, using(crate::proofs::Exact::one_text))]
pub fn one_listing()
    ensures { OneListing }
{}

/// A law: they have one first fault at most.
#[tactic(auto, using(crate::proofs::Exact::one_reason))]
pub fn one_fault()
    ensures { OneFault }
{}

/// A law: they never have both.
#[tactic(auto, using(crate::proofs::Exact::text_or_reason))]
pub fn listing_or_fault()
    ensures { ListingOrFault }
{}

/// A law: images that are the same, depths of instructions aside, have one listing.
#[tactic(auto, using(crate::proofs::SameImages::same_image_listing))]
pub fn same_images_have_one_listing()
    ensures { SameImagesHaveOneListing }
{}
