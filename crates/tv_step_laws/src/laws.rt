//! Laws of abstract steps: functions that do nothing, and whose contracts are the laws.

ghost use Rattle.tv_step_laws.specs.Laws.{ClosedListingsCoverRuns, OpeningsLoseNoHeap, StepsAreExact};
ghost use Rattle.tv_step_laws.specs.Laws.{StepsLoseNoHeap};

/// A structure has one opening at most, one list of results along an edge, and one list of message
/// values.
pub fn steps_are_exact()
    ensures { StepsAreExact }
{}

/// Each heap that embeds in a structure, and with which a run may begin, embeds in the structure's
/// opening; where there is no opening there is no such heap.
pub fn openings_lose_no_heap()
    ensures { OpeningsLoseNoHeap }
{}

/// From each such heap, the new heap of each fair step along an edge embeds in a result, and each
/// message that is true in the heap has a value other than No.
pub fn steps_lose_no_heap()
    ensures { StepsLoseNoHeap }
{}

/// Each heap, of any size, that a run brings to a node embeds in a structure that a closed listing
/// has there, and a message without a line is false in each heap that a run brings to its edge's
/// source.
pub fn closed_listings_cover_runs()
    ensures { ClosedListingsCoverRuns }
{}
