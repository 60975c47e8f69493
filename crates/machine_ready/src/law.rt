//! The laws of machines that are ready, and of wanted items that are none of the host's.

ghost use Rattle.machine_ready.specs.Laws.{OrderedCanRun, ReadyCanRun, ReadyHasDepths, PlansAreThere, PartsFit, ReadyIsPrepared, OneUnresolved, NoneUnresolved};

/// An image in order with valid code, whose wanted items are the host's, can be run: no run of it is ever stuck.
pub fn ordered_can_run()
    ensures { OrderedCanRun }
{}

/// The image of a machine that is ready can be run.
pub fn ready_can_run()
    ensures { ReadyCanRun }
{}

/// The code of a machine that is ready has the depth beside each instruction.
pub fn ready_has_depths()
    ensures { ReadyHasDepths }
{}

/// A machine that is ready has a plan for each procedure of each module.
pub fn plans_are_there()
    ensures { PlansAreThere }
{}

/// The frame of each procedure fits before the operands of a part of the region, and the operands behind it.
pub fn parts_fit()
    ensures { PartsFit }
{}

/// The image of a machine that is ready is prepared for the run over its region.
pub fn ready_is_prepared()
    ensures { ReadyIsPrepared }
{}

/// Of the wanted items one at most is the first that is none of the host's.
pub fn one_unresolved()
    ensures { OneUnresolved }
{}

/// Where all wanted items are the host's, none is the first that is not.
pub fn none_unresolved()
    ensures { NoneUnresolved }
{}
