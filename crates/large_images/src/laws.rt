//! The law of images that want, offer or start more than four bytes count.
ghost use Rattle.large_images.specs.Laws.{LargeCountsAreLargeFiles};

/// A law: where four bytes do not count what an image wants, what it offers or what it starts, its bytes are more than a file
/// may have.
pub fn large_counts_are_large_files()
    ensures { LargeCountsAreLargeFiles }
{}
