//! Why a text has no module and no interface.
ghost use Rattle.std.specs.Prelude.{◌≡◌};
ghost use Rattle.checked_texts.specs.TextFaults.{cause_name, fault_name, fault_place};

use check_rules::{Cause, CheckFault};
use mesa_base::Place;
use mesa_lexer::{LexFault, SyntaxFault};

/// The first fault of a text.
#[derive(Clone, Copy)]
pub enum TextFault {
    Lexical(LexFault),
    Syntactic(SyntaxFault),
    /// The text breaks a rule of checking, at this place.
    Wrong(Cause, Place),
    Memory,
}

/// The cause of a fault of checking as a line shows it.
fn cause_name(cause: Cause) -> &'static str
    ensures { result.now ≡ cause_name cause }
{
    match cause {
        Cause::UnknownName => "UnknownName",
        Cause::TwiceDeclared => "TwiceDeclared",
        Cause::TypeMismatch => "TypeMismatch",
        Cause::NotConstant => "NotConstant",
        Cause::BadLabel => "BadLabel",
        Cause::WrongCount => "WrongCount",
        Cause::NotResumable => "NotResumable",
        Cause::UnwindJumps => "UnwindJumps",
        Cause::ExportDiffers => "ExportDiffers",
        Cause::FrameTooLarge => "FrameTooLarge",
        Cause::GlobalsTooLarge => "GlobalsTooLarge",
        Cause::TypeTooLarge => "TypeTooLarge",
        Cause::StampMissing => "StampMissing",
        Cause::StampUnwanted => "StampUnwanted",
    }
}

impl TextFault {
    /// The cause as a line shows it.
    pub fn name(&self) -> &'static str
        ensures { result.now ≡ fault_name self.now }
    {
        match self {
            TextFault::Lexical(fault) => fault.name(),
            TextFault::Syntactic(fault) => fault.name(),
            TextFault::Wrong(cause, _) => cause_name(*cause),
            TextFault::Memory => "Memory",
        }
    }

    /// Where the fault stands, if it stands somewhere.
    pub fn place(&self) -> Option<Place>
        ensures { result ≡ fault_place self.now }
    {
        match self {
            TextFault::Lexical(fault) => fault.place(),
            TextFault::Syntactic(fault) => fault.place(),
            TextFault::Wrong(_, place) => Some(*place),
            TextFault::Memory => None,
        }
    }
}

impl From<LexFault> for TextFault {
    ghost use Rattle.std.specs.Prelude.{◌≡◌};
    ghost use Rattle.checked_texts.specs.TextFaults.{of_lexical};

    ghost from_gives = { λ fault why. why ≡ of_lexical fault };

    fn from(fault: LexFault) -> TextFault {
        match fault {
            LexFault::Memory => TextFault::Memory,
            fault => TextFault::Lexical(fault),
        }
    }
}

impl From<SyntaxFault> for TextFault {
    ghost use Rattle.std.specs.Prelude.{◌≡◌};
    ghost use Rattle.checked_texts.specs.TextFaults.{of_syntactic};

    ghost from_gives = { λ fault why. why ≡ of_syntactic fault };

    fn from(fault: SyntaxFault) -> TextFault {
        match fault {
            SyntaxFault::Memory => TextFault::Memory,
            fault => TextFault::Syntactic(fault),
        }
    }
}

impl From<CheckFault> for TextFault {
    ghost use Rattle.std.specs.Prelude.{◌≡◌};
    ghost use Rattle.checked_texts.specs.TextFaults.{of_checking};

    ghost from_gives = { λ fault why. why ≡ of_checking fault };

    fn from(fault: CheckFault) -> TextFault {
        match fault {
            CheckFault::Memory => TextFault::Memory,
            CheckFault::At(cause, place) => TextFault::Wrong(cause, place),
        }
    }
}
