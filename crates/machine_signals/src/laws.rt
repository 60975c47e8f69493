//! The laws of raises at faults and of predeclared signals, and of running arms under a new frame.

ghost use Rattle.machine_signals.specs.Laws.{FaultsRaise, FramesKeepArms, PredeclaredRaise};

/// Where the run of the topmost activation pauses at a fault, the machine raises the fault's signal.
pub fn faults_raise()
    ensures { FaultsRaise }
{}

/// A predeclared signal is raised with no arguments wherever the machine comes to its raise.
pub fn predeclared_raise()
    ensures { PredeclaredRaise }
{}

/// The rows of running arms hold on where a frame is made on top.
pub fn frames_keep_arms()
    ensures { FramesKeepArms }
{}
