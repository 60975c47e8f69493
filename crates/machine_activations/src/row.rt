//! What the table keeps of an activation, why arms run, and how the region is laid out.

use machine_rules::signaller::{Search, SignalId};

/// Where a jump out of arms goes: the place of its activation, the place of the frame to which that belongs, and the
/// offset there; with none it returns from the frame.
#[derive(Clone, Copy)]
pub struct Target {
    pub place: usize,
    pub owner: usize,
    pub goal: Option<u32>,
}

/// Why an arm runs: for a raise of the signal with so many words of arguments, which stand above the operands of the
/// activation that raised it; or for a jump, which it interrupts. The search beyond its phrase tells who is asked when it
/// rejects.
#[derive(Clone, Copy)]
pub enum Reason {
    Raise {
        signal: SignalId,
        args: usize,
        beyond: Search,
    },
    Jump {
        target: Target,
        beyond: Search,
    },
}

/// A frame; or a running arm, with the place of the frame to which it belongs, its number among the arms of its
/// procedure, and why it runs.
#[derive(Clone, Copy)]
pub enum Kind {
    Frame,
    Arm {
        owner: usize,
        arm: u32,
        reason: Reason,
    },
}

/// What the table keeps of an activation: its instance, its procedure and its kind; and, while it waits, the number of
/// the entry that it waits for and how many operands it has.
#[derive(Clone, Copy)]
pub struct Row {
    pub instance: u32,
    pub procedure: u32,
    pub entry: usize,
    pub count: usize,
    pub kind: Kind,
}

/// The region has a part of so many words for each activation: first the variables of a frame, for which there are as
/// many words as the largest frame has, then the operands.
#[derive(Clone, Copy)]
pub struct Layout {
    pub part: usize,
    pub frame: usize,
}
