//! What is listed for a compiled program covers the runs of its source program; no code.
#![tactic(auto)]

ghost use Rattle.tv_source_laws.specs.Laws.{CoveredRunsCoverSources};

use tv_plang_laws::{memories_have_heaps, memories_stay, nulls_are_told, source_runs_are_runs};

/// Where a listing covers all runs of the compiled program, the heap of each state of the source program
/// embeds in a structure that is listed at the node of its position, and a dereference whose message has no
/// line meets no null.
pub fn covered_runs_cover_sources()
    ensures { CoveredRunsCoverSources }
{
    source_runs_are_runs();
    memories_have_heaps();
    memories_stay();
    nulls_are_told();
}
