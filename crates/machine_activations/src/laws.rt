//! The law that the topmost activation runs as the machine does, up to its pause.

ghost use Rattle.machine_activations.specs.Laws.{RunsAsDefined};

/// Where the region shows activations of a prepared image, the run of the topmost one up to its pause is a run of the
/// machine, instruction by instruction, to where the region then shows; and there the machine does what the pause says.
pub fn runs_as_defined()
    ensures { RunsAsDefined }
{}
