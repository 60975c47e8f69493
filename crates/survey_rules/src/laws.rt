//! The law of escaping signals. No call of the program is here.

ghost use Rattle.survey_rules.specs.Laws.{UncaughtSignalsEscape};

/// A law: a signal with which a run of an image ends uncaught, for whatever input and bound of turns, is one that may escape the image. So where none may, no
/// run ends uncaught.
pub fn uncaught_signals_escape()
    ensures { UncaughtSignalsEscape }
{}
