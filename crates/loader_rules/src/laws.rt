//! The laws of loading. No call of the program is here.

ghost use Rattle.loader_rules.specs.Laws.{LoadsComeOnce, FirstImageHasTheFault, LoadedImagesAreInOrder, LoadsAreAlike, WantedByOne};
ghost use Rattle.loader_rules.specs.SameFaces.{SameFacesAreEqual};

/// A law: images come to one loaded image, or to one fault, and never to both.
#[tactic(auto, using(crate::proofs::Once::loads_come_once))]
pub fn loads_come_once()
    ensures { LoadsComeOnce }
{}

/// A law: the fault is the first one of an image, and none before it has one.
#[tactic(auto, using(crate::proofs::Once::first_image_has_the_fault))]
pub fn first_image_has_the_fault()
    ensures { FirstImageHasTheFault }
{}

/// A law: what is loaded of images that files hold is in order too, the size of its file aside.
pub fn loaded_images_are_in_order()
    ensures { LoadedImagesAreInOrder }
{}

/// A law: the test of faces tells those that are equal.
#[tactic(auto, using(crate::proofs::Faces::same_faces_are_equal))]
pub fn same_faces_are_equal()
    ensures { SameFacesAreEqual }
{}

/// A law: images that differ in depths alone have the same faults, and are loaded as images that differ in depths alone.
#[tactic(auto, using(crate::proofs::Alike::loads_are_alike))]
pub fn loads_are_alike()
    ensures { LoadsAreAlike }
{}

/// A law: what is still wanted is of the built-in interface, and one of the images wants it.
#[tactic(auto, using(crate::proofs::Alike::wanted_by_one))]
pub fn wanted_by_one()
    ensures { WantedByOne }
{}
