//! Signals: those of instances, and the predeclared ones.

/// A signal: one of an instance, by the instance's number and its own, or a predeclared one.
#[derive(Clone, Copy, PartialEq, Eq)]
pub enum SignalId {
    Own(u32, u32),
    BoundsFault,
    ZeroDivisor,
    NoInput,
    Unnamed,
}
