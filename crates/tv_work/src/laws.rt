//! A law of analyses. Its function does nothing: its clause is what it shows.

ghost use Rattle.tv_work.specs.Laws.{AnalysesAreOne};

/// A program, a mode and initial structures have one analysis: what is listed, in its order, and the lines.
pub fn analyses_are_one()
    ensures { AnalysesAreOne }
{}
