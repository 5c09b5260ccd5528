//! That the words for fates are true. The function does nothing: its clause is what it shows.

ghost use Rattle.tv_plan.specs.Laws.{FatesAreTrue};

/// In each structure that an abstract step makes each defined predicate has the values that its fate says:
/// those of the written update in the structure before, those that it had there, or those of its definition.
pub fn fates_are_true()
    ensures { FatesAreTrue }
{}
