//! Laws of two-valued structures: functions that do nothing, and whose contracts are the laws.

ghost use Rattle.tv_two_valued.specs.Laws.{HeapsAreTold, TruthIsTold};

/// The heap of a structure has its individuals and its mark, and each predicate holds of the tuples at
/// which it is `Yes`; over a program's vocabulary it is a heap of the program.
pub fn heaps_are_told()
    ensures { HeapsAreTold }
{}

/// In a two-valued structure a formula has the value `Yes` exactly where it is true in the structure's
/// heap, and else `No`.
pub fn truth_is_told()
    ensures { TruthIsTold }
{}
