//! One change made in a structure.

ghost use Rattle.std.specs.Prelude.{◌≡◌, ◌<◌, ◌≤◌, ℕ, Some, All, true, false};
ghost use Rattle.tv_embedding_laws.specs.Embedding.{IsBelow};
ghost use Rattle.tv_embedding_laws.specs.LogicalStructure.{LogicalStructure};
ghost use Rattle.tv_structure_form.specs.StructureForm.{StructureForm, IsStructure, arities_of, structure_of};
ghost use Rattle.tv_structure_form.specs.Halves.{half_count};
ghost use Rattle.tv_coerce.specs.Changes.{Has, IsPlace, IsOpen, IsLowered};

use crate::change::Change;
use tv_kleene::K3;
use tv_struct::Structure;

/// Makes the change, where it is still unknown what stands there.
#[tactic(auto, using(crate::proofs::Lowering::lowered_value, crate::proofs::Lowering::lowered_summary, crate::proofs::Lowering::lowered_none))]
pub(crate) fn lower(s: &mut Structure, change: Change)
    requires { IsPlace s.old change }
    ensures { IsLowered change s.old s.new }
{
    let _ = s.size();
    match change {
        Change::Value(p, t, k) => {
            if s.get(p, t) == K3::Half {
                s.set(p, t, k);
            }
        }
        Change::Ordinary(u) => s.set_summary(u, false),
    }
}
