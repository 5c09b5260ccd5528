//! Whether a structure stands for one heap.

ghost use Rattle.std.specs.Prelude.{◌≡◌, ◌≢◌, ◌↔◌, ◌<◌, ℕ, List, Any, IsTrue, length};
ghost use Rattle.tv_kleene.specs.declared.K3.TheVariants.{Half};
ghost use Rattle.tv_structure_form.specs.StructureForm.{arities_of, value_at};
ghost use Rattle.tv_struct.specs.StructureRows.{HasArity};
ghost use Rattle.tv_two_valued.specs.TwoValued.{IsTwoValued};

use tv_kleene::K3;
use tv_model::PredId;
use tv_row::Row;
use tv_struct::{Structure, Table, Tuple};

fn is_half(k: K3) -> bool
    ensures { IsTrue result ↔ (k ≡ Half) }
{
    k == K3::Half
}

/// Whether a value of the row is `Half`.
fn has_half(row: &Row) -> bool
    ensures { IsTrue result ↔ Any (λ x. x ≡ Half) row.now }
{
    row.and(&row.not()).has_possible()
}

/// Whether no value of the binary predicate is `Half`.
fn are_pairs_definite(s: &Structure, p: PredId) -> bool
    requires { HasArity s.now p.0 2 }
    ensures { IsTrue result ↔ ((tuple : List ℕ) → value_at s.now p.0 tuple ≢ Half) }
{
    for u in 0..s.size() {
        if has_half(&s.row(p, u)) {
            return false;
        }
    }
    true
}

/// Whether no value of the predicate is `Half`. Takes no memory.
pub fn is_definite(s: &Structure, p: PredId) -> bool
    requires { p.0 < length (arities_of s.now) }
    ensures { IsTrue result ↔ ((tuple : List ℕ) → value_at s.now p.0 tuple ≢ Half) }
{
    let _ = s.size();
    match s.arity(p) {
        0 => !is_half(s.get(p, Tuple::Zero)),
        1 => !has_half(&s.unary_row(p)),
        _ => are_pairs_definite(s, p),
    }
}

/// Whether no value of the structure is `Half`, and no individual is a summary. Takes no memory.
pub fn is_two_valued(s: &Structure) -> bool
    ensures { IsTrue result ↔ IsTwoValued s.now }
{
    if s.summary_row().has_possible() {
        return false;
    }
    for p in 0..s.pred_count() {
        if !is_definite(s, PredId(p)) {
            return false;
        }
    }
    true
}
