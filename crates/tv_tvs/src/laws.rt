//! Laws of texts of structures: functions that do nothing, and whose contracts are the laws.

ghost use Rattle.tv_tvs.specs.Laws.{HaveOneReading, StructuresAreReadAgain, ValidProgramsFit};

/// A list of tokens is structures in one way at most, and at most one structure begins it, which ends
/// at one place.
pub fn one_reading()
    ensures { HaveOneReading }
{}

/// What is written of a structure is read as that structure again, the mark of a fresh individual
/// aside: alone, and in front of any text that has tokens.
pub fn structures_are_read_again()
    ensures { StructuresAreReadAgain }
{}

/// The vocabulary of a valid program is one over which structures are read, written and read again.
pub fn valid_programs_fit()
    ensures { ValidProgramsFit }
{}
