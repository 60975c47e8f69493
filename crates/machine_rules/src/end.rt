//! How a run ends.
use signaller::SignalId;

/// How a run ends: it is done, a signal is caught by no arm, its turns are spent, or one activation more is wanted where
/// there are as many as may be (rule of this project).
#[derive(Clone, Copy, PartialEq, Eq)]
pub enum End {
    Done,
    Uncaught(SignalId),
    Spent,
    FrameLimit,
}
