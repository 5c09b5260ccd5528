//! Vectors put into a split structure.

ghost use Rattle.std.specs.Prelude.{◌≡◌, ◌<◌, ◌≤◌, ◌+◌, ◌++◌, [], ◌∷◌, length, Some, All, slice_get};
ghost use Rattle.tv_structure_form.specs.StructureForm.{StructureForm, arities_of};
ghost use Rattle.tv_focus_laws.specs.Written.{written, vector_writes};
ghost use Rattle.tv_focus.specs.Anchored.{pair_of, IsAimOver};
ghost use Rattle.tv_focus_step_laws.specs.Above.{writes_at};
ghost use Rattle.tv_focus.specs.Puts.{set_writes, choice_writes, copies_in};
ghost use Rattle.tv_focus.specs.Seen.{aim_of};

use crate::aim::Aim;
use crate::anchors::{Place, pair};
use crate::sets::VectorSet;
use crate::vector::Vector;
use tv_kleene::K3;
use tv_model::PredId;
use tv_struct::{Structure, Tuple};

/// Puts the vector's values at the pairs of the copy `i` and the anchors.
fn put_pairs(t: &mut Structure, p: PredId, place: Place, anchors: &[u32], i: u32, vector: &[K3])
    requires arity { slice_get (arities_of t.old) p.0 ≡ Some 2 }
    requires copy { i < t.old.size }
    requires anchors { All (λ a. a < t.old.size) anchors.now }
    ensures value { t.new
        ≡ written t.old p.0 (vector_writes (λ a. pair_of place a i) anchors.now vector.now) }
    ensures over { arities_of t.new ≡ arities_of t.old }
    ensures size { t.new.size ≡ t.old.size }
{
    match (anchors, vector) {
        ([a, anchors @ ..], [x, vector @ ..]) => {
            t.set(p, pair(place, *a, i), *x);
            put_pairs(t, p, place, anchors, i, vector)
        }
        _ => {}
    }
}

/// Puts the vector's values at the tuples of the copy `i` that are aimed at.
pub fn put_vector(t: &mut Structure, p: PredId, aim: &Aim, i: u32, vector: &Vector)
    requires aim { IsAimOver t.old p.0 (aim_of aim.now) }
    requires copy { i < t.old.size }
    ensures value { t.new ≡ written t.old p.0 (writes_at (aim_of aim.now) i vector.now) }
    ensures over { arities_of t.new ≡ arities_of t.old }
    ensures size { t.new.size ≡ t.old.size }
{
    match aim {
        Aim::Alone => t.set(p, Tuple::One(i), vector.first()),
        Aim::Before(anchors) => put_pairs(
            t,
            p,
            Place::Second,
            anchors.as_slice(),
            i,
            vector.as_slice(),
        ),
        Aim::Behind(anchors) => put_pairs(
            t,
            p,
            Place::First,
            anchors.as_slice(),
            i,
            vector.as_slice(),
        ),
    }
}

/// Puts the vectors of one individual's copies, of which the first is the copy `at`.
#[tactic(auto, using(tv_focus_laws::proofs::Writes::written_append))]
fn put_set(t: &mut Structure, p: PredId, aim: &Aim, at: u32, set: &[Vector])
    requires aim { IsAimOver t.old p.0 (aim_of aim.now) }
    requires copies { at + length set.now ≤ t.old.size }
    requires small { t.old.size ≤ 256 }
    ensures value { t.new ≡ written t.old p.0 (set_writes (aim_of aim.now) at set.now) }
    ensures over { arities_of t.new ≡ arities_of t.old }
    ensures size { t.new.size ≡ t.old.size }
{
    match set {
        [] => {}
        [vector, rest @ ..] => {
            put_vector(t, p, aim, at, vector);
            put_set(t, p, aim, at + 1, rest)
        }
    }
}

/// Puts the vectors of all copies, of which the first is the copy `at`.
#[tactic(auto, using(tv_focus_laws::proofs::Writes::written_append, crate::proofs::Puts::copies_more))]
pub fn put_choice(t: &mut Structure, p: PredId, aim: &Aim, at: u32, choice: &[VectorSet])
    requires aim { IsAimOver t.old p.0 (aim_of aim.now) }
    requires copies { at + copies_in choice.now ≤ t.old.size }
    requires small { t.old.size ≤ 256 }
    ensures value { t.new ≡ written t.old p.0 (choice_writes (aim_of aim.now) at choice.now) }
    ensures over { arities_of t.new ≡ arities_of t.old }
    ensures size { t.new.size ≡ t.old.size }
{
    match choice {
        [] => {}
        [set, rest @ ..] => {
            put_set(t, p, aim, at, set.as_slice());
            put_choice(t, p, aim, at + set.len() as u32, rest)
        }
    }
}
