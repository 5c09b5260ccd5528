//! Predicates that hold nowhere.

ghost use Rattle.std.specs.Prelude.{◌≡◌, ◌<◌, ℕ, [], ◌∷◌, IsTrue};
ghost use Rattle.tv_kleene.specs.declared.K3.TheVariants.{No};
ghost use Rattle.tv_structure_form.specs.StructureForm.{value_at};
ghost use Rattle.tv_struct.specs.StructureRows.{HasArity};

use crate::structure::Structure;
use tv_kleene::K3;
use tv_model::PredId;

/// True only where the unary predicate is `No` at each individual, as most are in a program of many
/// variables.
pub fn is_nowhere(s: &Structure, p: PredId) -> bool
    requires { HasArity s.now p.0 1 }
    ensures { IsTrue result → (u : ℕ) → u < s.now.size → value_at s.now p.0 (u ∷ []) ≡ No }
{
    for chunk in 0..s.size().div_ceil(64) {
        if s.unary_word(p, chunk).greatest() != K3::No {
            return false;
        }
    }
    true
}
