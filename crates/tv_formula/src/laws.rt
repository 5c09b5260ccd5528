//! Laws about formulas and their tokens. Each function does nothing: its clause is what it shows.

ghost use Rattle.std.specs.Prelude.{◌≡◌, List};
ghost use Rattle.tv_lex.specs.Token.{SpecToken};
ghost use Rattle.tv_phrases.specs.Reading.{taken};
ghost use Rattle.tv_tree.specs.Forms.{Form};
ghost use Rattle.tv_formula.specs.Grammar.{Production, Reads, IsFormula};
ghost use Rattle.tv_formula.specs.Reading.{formula_reading};
ghost use Rattle.tv_formula.specs.Spelled.{EndsAlike, formula_front};

/// From any place a production has at most one formula and one end.
#[tactic(auto, using(crate::proofs::FormulaLaws::one_reading))]
pub fn one_formula()
    ensures { (p : Production) (ts us vs : List SpecToken) (f g : Form) → Reads p ts f us → Reads p ts g vs
        → (f ≡ g) × (us ≡ vs) }
{}

/// Each formula of the grammar is read.
#[tactic(auto, using(crate::proofs::FormulaLaws::formula_is_read))]
pub fn formulas_are_read()
    ensures { (ts rest : List SpecToken) (f : Form) → IsFormula ts f rest
        → formula_reading ts ≡ taken f rest }
{}

/// What is read is a formula of the grammar.
#[tactic(auto, using(crate::proofs::FormulaLaws::read_is_formula))]
pub fn read_formulas()
    ensures { (ts rest : List SpecToken) (f : Form) → formula_reading ts ≡ taken f rest
        → IsFormula ts f rest }
{}

/// The tokens of a printed formula are read as that formula, in front of tokens that end it as those behind
/// it did.
#[tactic(auto, using(crate::proofs::Again::formula_again))]
pub fn printed_formulas()
    ensures { (ts rest end : List SpecToken) (f : Form) → IsFormula ts f rest → EndsAlike rest end
        → IsFormula (formula_front f end) f end }
{}
