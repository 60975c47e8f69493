//! The laws of images that differ in the depths alone.
ghost use Rattle.depth_laws.specs.Laws.{DepthsDoNotMatter, SurveysAreOne};

/// A law: the machine runs images that differ in the depths beside their instructions alone to one output and one end, counting the same.
pub fn depths_do_not_matter()
    ensures { DepthsDoNotMatter }
{}

/// A law: images that differ in the depths beside their instructions alone have one survey, of the signals that may escape them, at most.
pub fn surveys_are_one()
    ensures { SurveysAreOne }
{}
