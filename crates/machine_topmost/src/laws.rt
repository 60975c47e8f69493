//! The law that instructions on the topmost activation work as the machine's definition says.

ghost use Rattle.machine_topmost.specs.Laws.{WorksAsDefined};

/// In valid code, an instruction on the topmost activation that is no jump makes of the region what the machine's
/// definition makes of what the region shows, or faults as it does.
pub fn works_as_defined()
    ensures { WorksAsDefined }
{}
