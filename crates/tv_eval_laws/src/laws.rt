//! Laws of values: functions that do nothing, and whose contracts are the laws.

ghost use Rattle.tv_eval_laws.specs.ListValues.{ListValues};
ghost use Rattle.tv_eval_laws.specs.Thresholds.{ValuesMeetThresholds};
ghost use Rattle.tv_eval_laws.specs.Laws.{ClosuresAreGreatest, EmbeddingTheorem, DefiniteValuesComeDown};
ghost use Rattle.tv_eval_laws.specs.Laws.{ValuesAreKept, ValuesAreLocal, OnlyFreeVariablesMatter};
ghost use Rattle.tv_eval_laws.specs.Laws.{ValuesAreMonotone, HeapsTellTruth, DefiniteValuesAreSound};

/// The value of a closure is the greatest, over all walks of at least one edge from its first
/// individual to its last, of the least value of an edge. A walk may pass through any individuals.
pub fn closures_are_greatest()
    ensures { ClosuresAreGreatest }
{}

/// The embedding theorem: where a map embeds a structure in another, on the predicates that a formula
/// mentions and with marks where it speaks of the fresh individual, the formula's value in the first
/// lies under its value in the second.
pub fn embedding_theorem()
    ensures { EmbeddingTheorem }
{}

/// Where a structure embeds in another, each definite value in the second is the value in the first,
/// under every assignment that the map takes along.
pub fn definite_values_come_down()
    ensures { DefiniteValuesComeDown }
{}

/// A value depends only on the predicates that the formula mentions and on its free variables.
pub fn values_are_local()
    ensures { ValuesAreLocal }
{}

/// In one structure a value depends only on what the formula's free variables stand for.
pub fn only_free_variables_matter()
    ensures { OnlyFreeVariablesMatter }
{}

/// Renaming individuals keeps values.
pub fn values_are_kept()
    ensures { ValuesAreKept }
{}

/// A value in a structure lies under that in each structure above it.
pub fn values_are_monotone()
    ensures { ValuesAreMonotone }
{}

/// In a heap read as a structure the value is Yes exactly where the formula is true, and No exactly
/// where it is false.
pub fn heaps_tell_truth()
    ensures { HeapsTellTruth }
{}

/// Where a heap embeds in a structure, Yes in the structure means true in the heap, and No means
/// false.
pub fn definite_values_are_sound()
    ensures { DefiniteValuesAreSound }
{}

/// The value is Yes exactly where the formula is certainly true, and isn't No exactly where it is
/// possibly true, both of which are said as truth is, by recursion on the formula.
pub fn values_meet_thresholds()
    ensures { ValuesMeetThresholds }
{}

/// In a linked list of two cells or more, seen as its head and one summary for all others, the head
/// reaches itself by no step and not by a step or more; it may reach each of the others, which may reach
/// one another and don't reach the head; and two of the others may or may not be one cell.
pub fn list_values_are_these()
    ensures { ListValues }
{}
