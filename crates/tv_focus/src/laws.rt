//! Laws of focus: functions that do nothing, and whose contracts are the laws.

ghost use Rattle.std.specs.Prelude.{ℕ, List};
ghost use Rattle.tv_model.specs.Form.{Form};
ghost use Rattle.tv_model.specs.Valid.{IsFormulaOver};
ghost use Rattle.tv_focus.specs.Anchored.{AreAtomsOver};
ghost use Rattle.tv_focus.specs.Laws.{SharpAtomsStay};

/// An atom of which no value that it aims at is unknown gives the structure itself, alone.
pub fn sharp_atoms_stay()
    ensures { SharpAtomsStay }
{}

/// The focus atoms of a formula over a vocabulary are over it.
pub fn formulas_have_atoms_over()
    ensures { (arities : List ℕ) (f : Form) → IsFormulaOver arities f → AreAtomsOver arities f }
{}
