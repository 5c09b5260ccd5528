//! Whether individuals may go to individuals: what an embedding asks of one and of two of them.

ghost use Rattle.std.specs.Prelude.{◌≡◌, ◌<◌, ◌↔◌, ℕ, List, [], ◌∷◌, length, Some, slice_get, IsTrue};
ghost use Rattle.std.specs.Prelude.{Contains};
ghost use Rattle.std.specs.Bool.{OnFalse};
ghost use Rattle.tv_structure_form.specs.StructureForm.{StructureForm, arities_of, summary_at};
ghost use Rattle.tv_structure_form.specs.TableForm.{AreIndividuals};
ghost use Rattle.tv_struct.specs.TupleForm.{tuple_of};
ghost use Rattle.tv_embed.specs.Fits.{ValueFits, TupleFits, IsCandidate, JoinsUp, ValueNearFits};
ghost use Rattle.tv_embed.specs.Fits.{ValuesJoinUp};
ghost use Rattle.tv_embed.specs.Maps.{image_of};

use crate::maps::is_image;
use tv_model::PredId;
use tv_struct::{Structure, Tuple};

fn arity_of(t: Tuple) -> u8
    ensures { result ≡ length (tuple_of t) }
{
    match t {
        Tuple::Zero => 0,
        Tuple::One(_) => 1,
        Tuple::Two(_, _) => 2,
    }
}

fn value_fits(small: &Structure, large: &Structure, p: PredId, below: Tuple, above: Tuple) -> bool
    requires vocabulary { arities_of small.now ≡ arities_of large.now }
    requires pred { p.0 < length (arities_of small.now) }
    requires same { length (tuple_of below) ≡ length (tuple_of above) }
    requires in_small { AreIndividuals small.now.size (tuple_of below) }
    requires in_large { AreIndividuals large.now.size (tuple_of above) }
    ensures { IsTrue result ↔ ValueFits small.now large.now p.0 (tuple_of below) (tuple_of above) }
{
    if small.arity(p) != arity_of(below) {
        return true;
    }
    small.get(p, below).under(large.get(p, above))
}

/// Whether each predicate of the tuples' arity has a value at `below` that lies under that at `above`.
pub fn tuple_fits(small: &Structure, large: &Structure, below: Tuple, above: Tuple) -> bool
    requires vocabulary { arities_of small.now ≡ arities_of large.now }
    requires same { length (tuple_of below) ≡ length (tuple_of above) }
    requires in_small { AreIndividuals small.now.size (tuple_of below) }
    requires in_large { AreIndividuals large.now.size (tuple_of above) }
    ensures { IsTrue result ↔ TupleFits small.now large.now (tuple_of below) (tuple_of above) }
{
    for p in 0..small.pred_count() {
        if !value_fits(small, large, PredId(p), below, above) {
            return false;
        }
    }
    true
}

/// Whether the predicate's value at `u`, or at the pair of `u` with itself, lies under that of `w`.
fn value_near_fits(small: &Structure, large: &Structure, p: PredId, u: u32, w: u32) -> bool
    requires vocabulary { arities_of small.now ≡ arities_of large.now }
    requires pred { p.0 < length (arities_of small.now) }
    requires in_small { u < small.now.size }
    requires in_large { w < large.now.size }
    ensures { IsTrue result ↔ ValueNearFits small.now large.now p.0 u w }
{
    match small.arity(p) {
        0 => true,
        1 => small
            .get(p, Tuple::One(u))
            .under(large.get(p, Tuple::One(w))),
        _ => small
            .get(p, Tuple::Two(u, u))
            .under(large.get(p, Tuple::Two(w, w))),
    }
}

/// Whether each predicate's values at `u`, alone and as a pair, lie under those at `w`.
fn values_near_fit(small: &Structure, large: &Structure, u: u32, w: u32) -> bool
    requires vocabulary { arities_of small.now ≡ arities_of large.now }
    requires in_small { u < small.now.size }
    requires in_large { w < large.now.size }
    ensures { IsTrue result ↔ ((p : ℕ) → ValueNearFits small.now large.now p u w) }
{
    for p in 0..small.pred_count() {
        if !value_near_fits(small, large, PredId(p), u, w) {
            return false;
        }
    }
    true
}

/// Whether the individual `u` may go to `w`, as far as `u` alone is concerned.
pub fn is_candidate(small: &Structure, large: &Structure, u: u32, w: u32) -> bool
    requires vocabulary { arities_of small.now ≡ arities_of large.now }
    requires in_small { u < small.now.size }
    requires in_large { w < large.now.size }
    ensures { IsTrue result ↔ IsCandidate small.now large.now u w }
{
    (!small.summary(u) || large.summary(w)) && values_near_fit(small, large, u, w)
}

/// Whether the predicate's values allow that the next individual goes to `w` while those before it go to
/// their images.
fn values_join_up(small: &Structure, large: &Structure, images: &[u32], w: u32, p: PredId) -> bool
    requires vocabulary { arities_of small.now ≡ arities_of large.now }
    requires pred { p.0 < length (arities_of small.now) }
    requires next { length images.now < small.now.size }
    requires within { (u : ℕ) → u < length images.now → image_of images.now u < large.now.size }
    requires in_large { w < large.now.size }
    ensures { IsTrue result ↔ ValuesJoinUp small.now large.now images.now w p.0 }
{
    if small.arity(p) != 2 {
        return true;
    }
    let _ = small.size();
    let u = images.len() as u32;
    let below = small.row(p, u);
    let above = large.row(p, w);
    for (x, y) in images.iter().enumerate() {
        if !below.get(x as u32).under(above.get(*y)) {
            return false;
        }
        let back = small.get(p, Tuple::Two(x as u32, u));
        if !back.under(large.get(p, Tuple::Two(*y, w))) {
            return false;
        }
    }
    true
}

/// Whether the next individual may go to `w` while those before it go to their images.
pub fn joins_up(small: &Structure, large: &Structure, images: &[u32], w: u32) -> bool
    requires vocabulary { arities_of small.now ≡ arities_of large.now }
    requires next { length images.now < small.now.size }
    requires within { (u : ℕ) → u < length images.now → image_of images.now u < large.now.size }
    requires in_large { w < large.now.size }
    ensures { IsTrue result ↔ JoinsUp small.now large.now images.now w }
{
    if is_taken(large, images, w) {
        return false;
    }
    for p in 0..small.pred_count() {
        if !values_join_up(small, large, images, w, PredId(p)) {
            return false;
        }
    }
    true
}

/// Whether `w` is an image and stands for one cell alone.
fn is_taken(large: &Structure, images: &[u32], w: u32) -> bool
    requires { w < large.now.size }
    ensures image { IsTrue result → Contains images.now w }
    ensures ordinary { IsTrue result → ¬ IsTrue (summary_at large.now w) }
    ensures free { Contains images.now w → OnFalse result (IsTrue (summary_at large.now w)) }
{
    !large.summary(w) && is_image(images, w)
}
