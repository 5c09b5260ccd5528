//! Laws for those who evaluate a program's formulas: functions that do nothing, and whose contracts are
//! the laws.

ghost use Rattle.tv_eval.specs.Laws.{FormulasAreWithinHeight, MadeScratchesFit, ProgramFormulasAreOver};

/// A scratch that was made for a program and a size has room for each formula that is at most four higher
/// than the highest of the program, in structures of up to that size. No formula of the program is higher
/// than that one.
pub fn made_scratches_fit()
    ensures fit { MadeScratchesFit }
    ensures heights { FormulasAreWithinHeight }
{}

/// A formula of a program can be evaluated in structures over the program's vocabulary.
pub fn program_formulas_are_over()
    ensures { ProgramFormulasAreOver }
{}
