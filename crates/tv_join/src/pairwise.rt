//! The join of two structures, in place and by rows.

ghost use Rattle.std.specs.Prelude.{◌≡◌, ◌<◌, ◌||◌, ℕ, List, None, length};
ghost use Rattle.tv_blur.specs.Classes.{ChangesOnly};
ghost use Rattle.tv_structure_form.specs.StructureForm.{arities_of, summary_at, value_at, IsStructure};
ghost use Rattle.tv_struct.specs.StructureRows.{HasArity};
ghost use Rattle.tv_join.specs.Keyed.{Counts};
ghost use Rattle.tv_join.specs.Pairwise.{HaveOneShape, IsJoined, HasJoinedValues, HasJoinedSummaries};

use tv_model::PredId;
use tv_struct::{Structure, Tuple};

/// Joins `t` into `s`, which has the same key: each value becomes the join of both, and an individual is a
/// summary where it is one in either.
pub fn join_into(s: &mut Structure, t: &Structure, counted: &[bool])
    requires like { HaveOneShape s.old t.now }
    requires unmarked { s.old.fresh ≡ None }
    requires flags { length counted.now ≡ length (arities_of t.now) }
    requires same { (pred : ℕ) → Counts counted.now pred → (tuple : List ℕ)
        → value_at s.old pred tuple ≡ value_at t.now pred tuple }
    ensures { IsJoined s.old t.now s.new }
{
    join_summaries(s, t);
    let count = t.pred_count();
    for p in 0..count {
        join_next(s, t, counted, p);
    }
    let _ = s.size();
}

/// Joins the values of the next predicate, unless it counts for keys: then both have the same.
fn join_next(s: &mut Structure, t: &Structure, counted: &[bool], p: u32)
    requires like { HaveOneShape s.old t.now }
    requires flags { length counted.now ≡ length (arities_of t.now) }
    requires pred { p < length (arities_of t.now) }
    requires same { Counts counted.now p → (tuple : List ℕ)
        → value_at s.old p tuple ≡ value_at t.now p tuple }
    ensures changes { ChangesOnly p s.old s.new }
    ensures values { HasJoinedValues p s.old t.now s.new }
{
    if counted[p as usize] {
        return;
    }
    join_values(s, t, PredId(p));
}

fn join_summaries(s: &mut Structure, t: &Structure)
    requires size { s.old.size ≡ t.now.size }
    requires unmarked { s.old.fresh ≡ None }
    ensures joined { HasJoinedSummaries s.old t.now s.new }
    ensures first { IsStructure s.old }
    ensures second { IsStructure t.now }
{
    let _ = s.size();
    let count = t.size();
    for u in 0..count {
        let on = is_summary(s, t, u);
        s.set_summary(u, on);
    }
}

/// Whether the individual is a summary in either.
fn is_summary(s: &Structure, t: &Structure, u: u32) -> bool
    requires first { u < s.now.size }
    requires second { u < t.now.size }
    ensures { result ≡ (summary_at s.now u || summary_at t.now u) }
{
    s.summary(u) || t.summary(u)
}

fn join_values(s: &mut Structure, t: &Structure, p: PredId)
    requires like { HaveOneShape s.old t.now }
    requires pred { p.0 < length (arities_of t.now) }
    ensures changes { ChangesOnly p.0 s.old s.new }
    ensures values { HasJoinedValues p.0 s.old t.now s.new }
{
    match t.arity(p) {
        0 => join_value(s, t, p),
        1 => join_row(s, t, p),
        _ => join_rows(s, t, p),
    }
}

fn join_value(s: &mut Structure, t: &Structure, p: PredId)
    requires over { arities_of s.old ≡ arities_of t.now }
    requires arity { HasArity t.now p.0 0 }
    ensures changes { ChangesOnly p.0 s.old s.new }
    ensures values { HasJoinedValues p.0 s.old t.now s.new }
{
    let _ = s.size();
    let joined = s.get(p, Tuple::Zero).join(t.get(p, Tuple::Zero));
    s.set(p, Tuple::Zero, joined);
}

fn join_row(s: &mut Structure, t: &Structure, p: PredId)
    requires like { HaveOneShape s.old t.now }
    requires arity { HasArity t.now p.0 1 }
    ensures changes { ChangesOnly p.0 s.old s.new }
    ensures values { HasJoinedValues p.0 s.old t.now s.new }
{
    let mine = s.unary_row(p);
    let other = t.unary_row(p);
    let joined = mine.join(&other);
    s.set_unary_row(p, &joined);
}

fn join_rows(s: &mut Structure, t: &Structure, p: PredId)
    requires like { HaveOneShape s.old t.now }
    requires arity { HasArity t.now p.0 2 }
    ensures changes { ChangesOnly p.0 s.old s.new }
    ensures values { HasJoinedValues p.0 s.old t.now s.new }
{
    let count = t.size();
    for u in 0..count {
        let mine = s.row(p, u);
        let other = t.row(p, u);
        let joined = mine.join(&other);
        s.set_row(p, u, &joined);
    }
}
