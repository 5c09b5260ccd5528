//! Vectors that contradict a structure.

ghost use Rattle.std.specs.Prelude.{[], ◌∷◌, ◌<◌, ◌≡◌, ◌≢◌, Some, All, Any, IsTrue, slice_get};
ghost use Rattle.tv_kleene.specs.declared.K3.TheVariants.{Half};
ghost use Rattle.tv_structure_form.specs.StructureForm.{arities_of};
ghost use Rattle.tv_focus_laws.specs.Written.{vector_writes};
ghost use Rattle.tv_focus.specs.Anchored.{IsAimOver};
ghost use Rattle.tv_focus.specs.Seen.{aim_of};
ghost use Rattle.tv_focus_step_laws.specs.Above.{IsOther, writes_at};
ghost use Rattle.tv_focus_walk.specs.Walk.{HasOther};

use tv_focus::{Aim, Vector};
use tv_kleene::K3;
use tv_model::PredId;
use tv_struct::{Structure, Tuple};

/// Whether both values are definite, and not the same.
fn differs(k: K3, x: K3) -> bool
    ensures known { IsTrue result → k ≢ Half }
    ensures definite { IsTrue result → x ≢ Half }
    ensures other { IsTrue result → k ≢ x }
{
    match (k, x) {
        (K3::No, K3::Yes) | (K3::Yes, K3::No) => true,
        _ => false,
    }
}

/// The same of one of the individual's pairs with an anchor behind it, and the vector's value there.
fn is_apart_before(c: &Structure, p: PredId, anchors: &[u32], u: u32, vector: &[K3]) -> bool
    requires arity { slice_get (arities_of c.now) p.0 ≡ Some 2 }
    requires individual { u < c.now.size }
    requires anchors { All (λ a. a < c.now.size) anchors.now }
    ensures { IsTrue result
        → Any (IsOther c.now p.0) (vector_writes (λ a. u ∷ a ∷ []) anchors.now vector.now) }
{
    match (anchors, vector) {
        ([a, anchors @ ..], [x, vector @ ..]) => {
            differs(c.get(p, Tuple::Two(u, *a)), *x) || is_apart_before(c, p, anchors, u, vector)
        }
        _ => false,
    }
}

/// The same of pairs with an anchor before it.
fn is_apart_behind(c: &Structure, p: PredId, anchors: &[u32], u: u32, vector: &[K3]) -> bool
    requires arity { slice_get (arities_of c.now) p.0 ≡ Some 2 }
    requires individual { u < c.now.size }
    requires anchors { All (λ a. a < c.now.size) anchors.now }
    ensures { IsTrue result
        → Any (IsOther c.now p.0) (vector_writes (λ a. a ∷ u ∷ []) anchors.now vector.now) }
{
    match (anchors, vector) {
        ([a, anchors @ ..], [x, vector @ ..]) => {
            differs(c.get(p, Tuple::Two(*a, u)), *x) || is_apart_behind(c, p, anchors, u, vector)
        }
        _ => false,
    }
}

/// Whether the structure has the other definite value where one of the vector's is.
pub fn is_apart(c: &Structure, p: PredId, aim: &Aim, u: u32, vector: &Vector) -> bool
    requires aim { IsAimOver c.now p.0 (aim_of aim.now) }
    requires individual { u < c.now.size }
    ensures { IsTrue result → HasOther c.now p.0 (aim_of aim.now) u vector.now }
{
    match aim {
        Aim::Alone => differs(c.get(p, Tuple::One(u)), vector.first()),
        Aim::Before(anchors) => is_apart_before(c, p, anchors.as_slice(), u, vector.as_slice()),
        Aim::Behind(anchors) => is_apart_behind(c, p, anchors.as_slice(), u, vector.as_slice()),
    }
}

/// Whether this is so of one of the vectors.
pub fn is_one_apart(c: &Structure, p: PredId, aim: &Aim, u: u32, set: &[Vector]) -> bool
    requires aim { IsAimOver c.now p.0 (aim_of aim.now) }
    requires individual { u < c.now.size }
    ensures { IsTrue result → Any (HasOther c.now p.0 (aim_of aim.now) u) set.now }
{
    match set {
        [] => false,
        [vector, rest @ ..] => is_apart(c, p, aim, u, vector) || is_one_apart(c, p, aim, u, rest),
    }
}
