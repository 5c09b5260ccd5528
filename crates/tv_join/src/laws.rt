//! A law of joined analyses. Its function does nothing: its clause is what it shows.

ghost use Rattle.tv_join.specs.Laws.{JoinedAnalysesAreOne};

/// A program, a mode and initial structures have one joined analysis: what is listed, in its order, and the
/// lines.
pub fn joined_analyses_are_one()
    ensures { JoinedAnalysesAreOne }
{}
