//! Vectors that a structure may be given, and those that it has.

ghost use Rattle.std.specs.Prelude.{[], ◌∷◌, ◌<◌, ◌+◌, ◌≡◌, ◌≤◌, length, Some, All, IsTrue, slice_get};
ghost use Rattle.tv_structure_form.specs.StructureForm.{arities_of};
ghost use Rattle.tv_focus_laws.specs.Written.{vector_writes};
ghost use Rattle.tv_focus.specs.Anchored.{IsAimOver};
ghost use Rattle.tv_focus.specs.Seen.{aim_of};
ghost use Rattle.tv_focus_step_laws.specs.Above.{HasChoice, HasVectors, copies_so_far, writes_at};
ghost use Rattle.tv_focus_walk.specs.Walk.{Passes, PassAll};

use crate::lent::Lent;
use tv_focus::{Aim, Vector};
use tv_kleene::K3;
use tv_model::PredId;
use tv_struct::{Structure, Tuple};

/// How a vector's values are compared with the structure's.
#[derive(Clone, Copy, Debug, PartialEq, Eq)]
pub enum Test {
    /// They are the same.
    Same,
    /// They are the same, or the structure's are unknown.
    Under,
}

/// Whether the vector's value `x` passes for the structure's value `k`.
fn passes(test: Test, x: K3, k: K3) -> bool
    ensures { IsTrue result → Passes test x k }
{
    match (x, k) {
        (K3::No, K3::No) | (K3::Half, K3::Half) | (K3::Yes, K3::Yes) => true,
        (_, K3::Half) => match test {
            Test::Same => false,
            Test::Under => true,
        },
        _ => false,
    }
}

/// Whether all values at the individual's pairs with an anchor behind it pass.
fn pass_before(test: Test, c: &Structure, p: PredId, anchors: &[u32], u: u32, vector: &[K3]) -> bool
    requires arity { slice_get (arities_of c.now) p.0 ≡ Some 2 }
    requires individual { u < c.now.size }
    requires anchors { All (λ a. a < c.now.size) anchors.now }
    ensures { IsTrue result
        → PassAll test c.now p.0 (vector_writes (λ a. u ∷ a ∷ []) anchors.now vector.now) }
{
    match (anchors, vector) {
        ([a, anchors @ ..], [x, vector @ ..]) => {
            passes(test, *x, c.get(p, Tuple::Two(u, *a)))
                && pass_before(test, c, p, anchors, u, vector)
        }
        _ => true,
    }
}

/// The same at pairs with an anchor before it.
fn pass_behind(test: Test, c: &Structure, p: PredId, anchors: &[u32], u: u32, vector: &[K3]) -> bool
    requires arity { slice_get (arities_of c.now) p.0 ≡ Some 2 }
    requires individual { u < c.now.size }
    requires anchors { All (λ a. a < c.now.size) anchors.now }
    ensures { IsTrue result
        → PassAll test c.now p.0 (vector_writes (λ a. a ∷ u ∷ []) anchors.now vector.now) }
{
    match (anchors, vector) {
        ([a, anchors @ ..], [x, vector @ ..]) => {
            passes(test, *x, c.get(p, Tuple::Two(*a, u)))
                && pass_behind(test, c, p, anchors, u, vector)
        }
        _ => true,
    }
}

/// Whether all values of the vector pass for those that the structure has there.
pub fn does_pass(test: Test, c: &Structure, p: PredId, aim: &Aim, u: u32, vector: &Vector) -> bool
    requires aim { IsAimOver c.now p.0 (aim_of aim.now) }
    requires individual { u < c.now.size }
    ensures { IsTrue result → PassAll test c.now p.0 (writes_at (aim_of aim.now) u vector.now) }
{
    match aim {
        Aim::Alone => passes(test, vector.first(), c.get(p, Tuple::One(u))),
        Aim::Before(anchors) => {
            pass_before(test, c, p, anchors.as_slice(), u, vector.as_slice())
        }
        Aim::Behind(anchors) => {
            pass_behind(test, c, p, anchors.as_slice(), u, vector.as_slice())
        }
    }
}

/// Whether the copies from `at` on have these vectors.
fn has_vectors(c: &Structure, p: PredId, aim: &Aim, at: u32, set: &[Vector]) -> bool
    requires aim { IsAimOver c.now p.0 (aim_of aim.now) }
    requires copies { at + length set.now ≤ c.now.size }
    ensures { IsTrue result → HasVectors c.now p.0 (aim_of aim.now) at set.now }
{
    let _ = c.size();
    match set {
        [] => true,
        [vector, rest @ ..] => {
            does_pass(Test::Same, c, p, aim, at, vector) && has_vectors(c, p, aim, at + 1, rest)
        }
    }
}

/// Whether the copies from `at` on have the choice's vectors.
pub fn has_choice(c: &Structure, p: PredId, aim: &Aim, at: u32, choice: &[Lent<'_>]) -> bool
    requires aim { IsAimOver c.now p.0 (aim_of aim.now) }
    requires copies { at + copies_so_far choice.now ≤ c.now.size }
    ensures { IsTrue result → HasChoice c.now p.0 (aim_of aim.now) at choice.now }
{
    let _ = c.size();
    match choice {
        [] => true,
        [set, rest @ ..] => {
            let vectors = set.as_slice();
            has_vectors(c, p, aim, at, vectors)
                && has_choice(c, p, aim, at + vectors.len() as u32, rest)
        }
    }
}
