//! Laws about what texts mean. Each function does nothing of its own: its clauses are what it shows.

ghost use Rattle.std.specs.Prelude.{ℕ, ◌≡◌, List};
ghost use Rattle.tv_model.specs.declared.program.Program.{Program};
ghost use Rattle.tv_texts.specs.Agreement.{GiveOne, SameProgram};
ghost use Rattle.tv_texts.specs.Meaning.{MeansProgram, MeansInitial, MeansStart, MeansMoves, MeansReport};
ghost use Rattle.tv_texts.specs.Meaning.{MeansSource};

use tv_front::{one_meaning, one_refusal};
use tv_lex::one_reading;
use tv_plang::{one_meaning as one_source_meaning, one_refusal as one_source_refusal};
use tv_report::one_meaning as one_report;
use tv_trace::one_meaning as one_trace;
use tv_tvs::one_reading as one_structure_reading;

/// A text means one program, one list of structures, one heap, one trace and one report at most, and is
/// compiled to one program at most, or is refused for one reason, its place aside.
pub fn one_meaning_each()
    ensures program { (text : List ℕ) → GiveOne SameProgram (MeansProgram text) (MeansProgram text) }
    ensures initial { (p q : Program) → SameProgram p q → (text : List ℕ)
        → GiveOne ◌≡◌ (MeansInitial p text) (MeansInitial q text) }
    ensures start { (p q : Program) → SameProgram p q → (text : List ℕ)
        → GiveOne ◌≡◌ (MeansStart p text) (MeansStart q text) }
    ensures trace { (p q : Program) → SameProgram p q → (text : List ℕ)
        → GiveOne ◌≡◌ (MeansMoves p text) (MeansMoves q text) }
    ensures report { (p q : Program) → SameProgram p q → (text : List ℕ)
        → GiveOne ◌≡◌ (MeansReport p text) (MeansReport q text) }
    ensures source { (text : List ℕ) → GiveOne SameProgram (MeansSource text) (MeansSource text) }
{
    one_meaning();
    one_refusal();
    one_reading();
    one_structure_reading();
    one_report();
    one_trace();
    one_source_meaning();
    one_source_refusal();
}
