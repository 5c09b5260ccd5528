//! What is listed for a compiled program with updates covers the runs of its source program; no code.
#![tactic(auto)]

ghost use Rattle.tv_updates_source_laws.specs.Laws.{CoveredUpdatesCoverSources};

use tv_source_laws::covered_runs_cover_sources;

/// Where a listing covers all runs of the compiled program with updates, as that of each analysis of a text
/// that means this program does, the heap of each state of the source program embeds in a structure that is
/// listed at the node of its position, and a dereference whose message has no line meets no null.
pub fn covered_updates_cover_sources()
    ensures { CoveredUpdatesCoverSources }
{
    covered_runs_cover_sources();
}
