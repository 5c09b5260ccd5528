//! Laws of explanations. Each function does nothing of its own: its clause is what it shows.

ghost use Rattle.tv_explain.specs.Edges.{EdgesAreKept};
ghost use Rattle.tv_explain.specs.Laws.{SilenceIsNoLine};

/// No reached structure raises a message exactly where no line of the report tells of it.
pub fn silence_is_no_line()
    ensures { SilenceIsNoLine }
{}

/// The control edges of a program are those of its tree, in their order: each leaves and enters the nodes of
/// the names that stand there.
#[tactic(auto, using(crate::proofs::EdgesKept::kept))]
pub fn edges_are_kept()
    ensures { EdgesAreKept }
{}
