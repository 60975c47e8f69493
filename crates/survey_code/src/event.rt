//! What an instruction may do by which a signal comes.

ghost use Rattle.std.specs.Prelude.{◌≡◌};
ghost use Rattle.survey_code.specs.Events.{event_of};

use code_forms::Instruction;

/// What an instruction may do by which a signal comes: it raises one, or calls what one may come out of.
#[derive(Clone, Copy)]
pub enum Event {
    /// Raises the signal of this number of its instance.
    Raise(u32),
    /// Raises that to which this link of its instance is bound.
    RaiseLink(u32),
    /// Raises a predeclared signal: 0 is `BoundsFault`, 1 `ZeroDivisor`, 2 the unnamed error.
    RaiseHost(u8),
    /// Raises `BoundsFault` where a word is out of bounds.
    PassBounds,
    /// Raises `ZeroDivisor` where the divisor is 0.
    Divide,
    /// Calls the procedure of this number of its instance.
    Call(u32),
    /// Calls that to which this link of its instance is bound.
    CallLink(u32),
}

/// The event of an instruction; None where no signal comes by it.
pub fn event_of(instruction: Instruction) -> Option<Event>
    ensures { result ≡ event_of instruction }
{
    match instruction {
        Instruction::Raise { signal } => Some(Event::Raise(signal)),
        Instruction::RaiseLink { link } => Some(Event::RaiseLink(link)),
        Instruction::RaiseHost { fault } => Some(Event::RaiseHost(fault)),
        Instruction::LoadLX { .. }
        | Instruction::StoreLX { .. }
        | Instruction::LoadGX { .. }
        | Instruction::StoreGX { .. }
        | Instruction::Index { .. }
        | Instruction::CheckI { .. }
        | Instruction::CheckC { .. }
        | Instruction::StrAt
        | Instruction::NarrowI
        | Instruction::NarrowC
        | Instruction::CheckD => Some(Event::PassBounds),
        Instruction::DivI
        | Instruction::ModI
        | Instruction::DivC
        | Instruction::ModC
        | Instruction::DivDI
        | Instruction::ModDI
        | Instruction::DivDC
        | Instruction::ModDC => Some(Event::Divide),
        Instruction::Call { procedure } => Some(Event::Call(procedure)),
        Instruction::CallLink { link } => Some(Event::CallLink(link)),
        _ => None,
    }
}
