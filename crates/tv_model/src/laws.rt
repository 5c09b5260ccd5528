//! Laws of the definitions: functions that do nothing, and whose contracts are the laws.

ghost use Rattle.std.specs.Prelude.{ℕ};
ghost use Rattle.tv_model.specs.Heap.{Heap};
ghost use Rattle.tv_model.specs.Laws.{TruthIsKept, TruthIsLocal, ValidFormulasFit};
ghost use Rattle.tv_model.specs.Run.{CoversRuns};

/// Truth depends only on a heap's individuals, on the predicates that the formula mentions, on the mark
/// where the formula speaks of the fresh individual, and on what its free variables stand for.
pub fn truth_is_local()
    ensures { TruthIsLocal }
{}

/// Renaming the individuals of a heap keeps truth. The renaming need not be injective elsewhere, and
/// need keep the mark only where the formula speaks of the fresh individual.
pub fn truth_is_kept()
    ensures { TruthIsKept }
{}

/// Each formula of a valid program, and each head of a rule, is one over the program's vocabulary.
pub fn valid_formulas_fit()
    ensures { ValidFormulasFit }
{}

/// What covers heaps at nodes.
pub trait Cover {
    ghost covers: { ℕ → Heap → Type 0 };
}

/// A cover that holds of the start heap, and that fair steps keep, holds of every heap that a run
/// brings to a node.
pub fn runs_stay_covered<C: Cover>()
    ensures { CoversRuns C.covers }
{}
