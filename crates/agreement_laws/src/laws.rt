//! The laws of images and the programs for which they stand: what images do, and that the machine is never stuck.
ghost use Rattle.agreement_rules.specs.Agreement.{ImagesRunAsTheirSource};
ghost use Rattle.agreement_laws.specs.Laws.{ImagesOfSourcesAreNeverStuck, SourcesMeanWhatTheirImagesDo};

/// An image does what its source means: for each lawful program, each image that stands for it and wants nothing but the
/// host's items, each input of bytes, whether or not a fault follows it, and each bound of turns, the machine runs the image to the
/// program's output and end, with as many turns left and as many bytes of the input taken.
pub fn images_run_as_their_source()
    ensures { ImagesRunAsTheirSource }
{}

/// The other way round: what the machine runs such an image to is what its source means.
pub fn sources_mean_what_their_images_do()
    ensures { SourcesMeanWhatTheirImagesDo }
{}

/// The machine is never stuck on an image that stands for a lawful program.
pub fn images_of_sources_are_never_stuck()
    ensures { ImagesOfSourcesAreNeverStuck }
{}
