//! Laws of lines: functions that do nothing, and whose contracts are the laws.

ghost use Rattle.tv_show.specs.Laws.{LinesTellStructures};

/// Nothing is hidden: two structures over the vocabulary of a valid program that have one line are equal,
/// marks of fresh individuals aside.
pub fn lines_tell_structures()
    ensures { LinesTellStructures }
{}
