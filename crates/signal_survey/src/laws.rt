//! The law of walks. No call of the program is here.

ghost use Rattle.signal_survey.specs.Laws.{ComesWhereReached};

/// A law: a signal comes exactly where a walk comes that begins at what may raise it.
pub fn comes_where_reached()
    ensures { ComesWhereReached }
{}
