//! Heaps that are copies of each other, and the heaps below a structure without summaries, each for all that
//! a renumbering makes of it; no code.
#![tactic(auto)]

ghost use Rattle.tv_start_laws.specs.Laws.{CopiesAreAlike, CopiesKeepStarts, ExchangesKeepStructures};
ghost use Rattle.tv_start_laws.specs.Laws.{BranchesLoseNoHeap, FibresAreCopies, OrdinariesFit};
ghost use Rattle.tv_start_laws.specs.Laws.{LeavesAreCopies};

/// Each heap is a copy of itself, of its copies, and of what it is a copy's copy of; and a copy makes the
/// same steps, up to copies of what they lead to.
pub fn copies_are_alike()
    ensures { CopiesAreAlike }
{}

/// A heap with a copy with which a run may begin is one with which a run may begin.
pub fn copies_keep_starts()
    ensures { CopiesKeepStarts }
{}

/// Two individuals that may be exchanged in every value of a structure may be exchanged in it.
pub fn exchanges_keep_structures()
    ensures { ExchangesKeepStructures }
{}

/// A heap below a structure has, up to a renumbering, Yes at a tuple, or it has No there and wherever a
/// renumbering that keeps the structure takes the tuple.
pub fn branches_lose_no_heap()
    ensures { BranchesLoseNoHeap }
{}

/// A heap that embeds in a structure is, up to a renumbering, one below the structure with as many copies of
/// each individual as the heap has individuals for it.
pub fn fibres_are_copies()
    ensures { FibresAreCopies }
{}

/// Where a structure has no summaries, to embed in it is to lie below it up to a renumbering.
pub fn ordinaries_fit()
    ensures { OrdinariesFit }
{}

/// A heap that embeds in a two-valued structure is a copy of the heap that the structure stands for.
pub fn leaves_are_copies()
    ensures { LeavesAreCopies }
{}
