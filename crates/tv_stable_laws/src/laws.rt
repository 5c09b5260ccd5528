//! Laws of stable structures: functions that do nothing, and whose contracts are the laws.

ghost use Rattle.tv_stable_laws.specs.OneCell.{OneCellLaws};
ghost use Rattle.tv_stable_laws.specs.Laws.{ImagesAreStable, StableStructuresStay, SharpeningLosesNoStable};
ghost use Rattle.tv_stable_laws.specs.Laws.{SharpeningLosesNoHeap, JoinsAreStable, StableHeapsMeetRules};

/// The image of a stable structure is stable.
pub fn images_are_stable()
    ensures { ImagesAreStable }
{}

/// Of one individual: a predicate that holds of at most one cell is Yes on an ordinary individual and
/// not on a summary; a reflexive one may stay unknown on a summary and not on an ordinary individual.
pub fn one_cells_are_judged()
    ensures { OneCellLaws }
{}

/// Where a map embeds a stable structure in another, it embeds it in a stable structure below that one.
pub fn stable_structures_stay()
    ensures { StableStructuresStay }
{}

/// A stable structure that embeds in another embeds in the greatest stable structure below that one; and
/// none embeds where there is no stable structure below.
pub fn sharpening_loses_no_stable()
    ensures { SharpeningLosesNoStable }
{}

/// A heap that meets the rules and embeds in a structure embeds in the greatest stable structure below
/// it; and none does where there is no stable structure below.
pub fn sharpening_loses_no_heap()
    ensures { SharpeningLosesNoHeap }
{}

/// The join of two stable structures is stable.
pub fn joins_are_stable()
    ensures { JoinsAreStable }
{}

/// A heap read as a structure is stable exactly where it meets the rules.
pub fn stable_heaps_meet_rules()
    ensures { StableHeapsMeetRules }
{}
