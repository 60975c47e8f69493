//! The words of the language, by their first letters.
ghost use Rattle.std.specs.Prelude.{◌≡◌, map};
ghost use Rattle.mesa_lexer.specs.Words.{row_of, spelled, word_of, words_from};

use crate::word::Word;

/// A word's spelling, and the word.
type Row = (&'static [u8], Word);

const WITH_A: [Row; 4] = [
    (b"AND", Word::AndWord),
    (b"ANY", Word::AnyWord),
    (b"ARRAY", Word::ArrayWord),
    (b"ABS", Word::AbsWord),
];

const WITH_B: [Row; 4] = [
    (b"BEGIN", Word::BeginWord),
    (b"BOOLEAN", Word::BooleanWord),
    (b"BASE", Word::BaseWord),
    (b"BROADCAST", Word::BroadcastWord),
];

const WITH_C: [Row; 6] = [
    (b"CARDINAL", Word::CardinalWord),
    (b"CHARACTER", Word::CharacterWord),
    (b"CODE", Word::CodeWord),
    (b"CONFIGURATION", Word::ConfigurationWord),
    (b"CONTINUE", Word::ContinueWord),
    (b"CONTROL", Word::ControlWord),
];

const WITH_D: [Row; 6] = [
    (b"DECREASING", Word::DecreasingWord),
    (b"DEFINITIONS", Word::DefinitionsWord),
    (b"DIRECTORY", Word::DirectoryWord),
    (b"DO", Word::DoWord),
    (b"DEPENDENT", Word::DependentWord),
    (b"DESCRIPTOR", Word::DescriptorWord),
];

const WITH_E: [Row; 10] = [
    (b"ELSE", Word::ElseWord),
    (b"ENABLE", Word::EnableWord),
    (b"END", Word::EndWord),
    (b"ENDCASE", Word::EndcaseWord),
    (b"ENDLOOP", Word::EndloopWord),
    (b"ERROR", Word::ErrorWord),
    (b"EXIT", Word::ExitWord),
    (b"EXITS", Word::ExitsWord),
    (b"EXPORTS", Word::ExportsWord),
    (b"ENTRY", Word::EntryWord),
];

const WITH_F: [Row; 6] = [
    (b"FALSE", Word::FalseWord),
    (b"FINISHED", Word::FinishedWord),
    (b"FOR", Word::ForWord),
    (b"FROM", Word::FromWord),
    (b"FIRST", Word::FirstWord),
    (b"FORK", Word::ForkWord),
];

const WITH_G: [Row; 2] = [(b"GO", Word::GoWord), (b"GOTO", Word::GotoWord)];

const WITH_I: [Row; 6] = [
    (b"IF", Word::IfWord),
    (b"IMPORTS", Word::ImportsWord),
    (b"IN", Word::InWord),
    (b"INTEGER", Word::IntegerWord),
    (b"INLINE", Word::InlineWord),
    (b"INTERNAL", Word::InternalWord),
];

const WITH_J: [Row; 1] = [(b"JOIN", Word::JoinWord)];

const WITH_L: [Row; 6] = [
    (b"LONG", Word::LongWord),
    (b"LOOP", Word::LoopWord),
    (b"LAST", Word::LastWord),
    (b"LENGTH", Word::LengthWord),
    (b"LINKS", Word::LinksWord),
    (b"LOOPHOLE", Word::LoopholeWord),
];

const WITH_M: [Row; 5] = [
    (b"MOD", Word::ModWord),
    (b"MACHINE", Word::MachineWord),
    (b"MAX", Word::MaxWord),
    (b"MIN", Word::MinWord),
    (b"MONITOR", Word::MonitorWord),
];

const WITH_N: [Row; 4] = [
    (b"NOT", Word::NotWord),
    (b"NULL", Word::NullWord),
    (b"NEW", Word::NewWord),
    (b"NOTIFY", Word::NotifyWord),
];

const WITH_O: [Row; 3] = [
    (b"OF", Word::OfWord),
    (b"OPEN", Word::OpenWord),
    (b"OR", Word::OrWord),
];

const WITH_P: [Row; 11] = [
    (b"PRIVATE", Word::PrivateWord),
    (b"PROC", Word::ProcWord),
    (b"PROCEDURE", Word::ProcedureWord),
    (b"PROGRAM", Word::ProgramWord),
    (b"PUBLIC", Word::PublicWord),
    (b"PACK", Word::PackWord),
    (b"PACKED", Word::PackedWord),
    (b"PLUS", Word::PlusWord),
    (b"POINTER", Word::PointerWord),
    (b"PORT", Word::PortWord),
    (b"PROCESS", Word::ProcessWord),
];

const WITH_R: [Row; 10] = [
    (b"RECORD", Word::RecordWord),
    (b"REJECT", Word::RejectWord),
    (b"REPEAT", Word::RepeatWord),
    (b"RESUME", Word::ResumeWord),
    (b"RETRY", Word::RetryWord),
    (b"RETURN", Word::ReturnWord),
    (b"RETURNS", Word::ReturnsWord),
    (b"REAL", Word::RealWord),
    (b"RELATIVE", Word::RelativeWord),
    (b"RESTART", Word::RestartWord),
];

const WITH_S: [Row; 8] = [
    (b"SELECT", Word::SelectWord),
    (b"SIGNAL", Word::SignalWord),
    (b"STRING", Word::StringWord),
    (b"SHARES", Word::SharesWord),
    (b"SIZE", Word::SizeWord),
    (b"START", Word::StartWord),
    (b"STATE", Word::StateWord),
    (b"STOP", Word::StopWord),
];

const WITH_T: [Row; 6] = [
    (b"THEN", Word::ThenWord),
    (b"THROUGH", Word::ThroughWord),
    (b"TO", Word::ToWord),
    (b"TRUE", Word::TrueWord),
    (b"TYPE", Word::TypeWord),
    (b"TRANSFER", Word::TransferWord),
];

const WITH_U: [Row; 3] = [
    (b"UNTIL", Word::UntilWord),
    (b"UNWIND", Word::UnwindWord),
    (b"USING", Word::UsingWord),
];

const WITH_W: [Row; 3] = [
    (b"WHILE", Word::WhileWord),
    (b"WAIT", Word::WaitWord),
    (b"WITH", Word::WithWord),
];

/// The words that begin with this letter.
fn words_from(letter: u8) -> &'static [Row]
    ensures { map row_of result.now ≡ words_from letter }
{
    match letter {
        b'A' => &WITH_A,
        b'B' => &WITH_B,
        b'C' => &WITH_C,
        b'D' => &WITH_D,
        b'E' => &WITH_E,
        b'F' => &WITH_F,
        b'G' => &WITH_G,
        b'I' => &WITH_I,
        b'J' => &WITH_J,
        b'L' => &WITH_L,
        b'M' => &WITH_M,
        b'N' => &WITH_N,
        b'O' => &WITH_O,
        b'P' => &WITH_P,
        b'R' => &WITH_R,
        b'S' => &WITH_S,
        b'T' => &WITH_T,
        b'U' => &WITH_U,
        b'W' => &WITH_W,
        _ => &[],
    }
}

fn find(rows: &[Row], bytes: &[u8]) -> Option<Word>
    ensures { result ≡ spelled (map row_of rows.now) bytes.now }
{
    for row in rows {
        if bytes == row.0 {
            return Some(row.1);
        }
    }
    None
}

/// The word with this spelling.
pub fn word_of(bytes: &[u8]) -> Option<Word>
    ensures { result ≡ word_of bytes.now }
{
    match bytes {
        [] => None,
        [first, ..] => find(words_from(*first), bytes),
    }
}
