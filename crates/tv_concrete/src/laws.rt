//! Laws of the definitions: functions that do nothing, and whose contracts are the laws.

ghost use Rattle.tv_concrete.specs.Laws.{AtLeastOneConcrete, AtMostOneConcrete, TruthIsDecided};

/// A formula is true or false in a heap.
pub fn truth_is_decided()
    ensures { TruthIsDecided }
{}

/// Concrete heaps of a valid program that agree on the core predicates agree on all predicates.
pub fn at_most_one_is_concrete()
    ensures { AtMostOneConcrete }
{}

/// For each heap of a valid program there is a concrete one with the same core.
pub fn at_least_one_is_concrete()
    ensures { AtLeastOneConcrete }
{}
