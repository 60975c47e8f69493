//! The law that the code of each body of a sound module can be written.
ghost use Rattle.code_writer.specs.Bounds.{BodiesCanBeWritten};

/// The code of each body of a sound module is short enough for its offsets, and never deeper than an operand stack.
#[tactic(auto, using(crate::proofs::Bounded::bodies_can_be_written))]
pub fn bodies_can_be_written()
    ensures { BodiesCanBeWritten }
{}
