//! Truth of a formula in a plain heap, read off its definition.

ghost use Rattle.std.specs.Prelude.{ℕ, ◌≡◌, ◌↔◌, IsTrue, Contains};
ghost use Rattle.tv_model.specs.Form.{form_of};
ghost use Rattle.tv_model.specs.Truth.{Truth, put};
ghost use Rattle.tv_concrete.specs.Lists.{heap_of, assignment_of};
ghost use Rattle.tv_concrete.specs.Reach.{Connects, Reaches};

use crate::{HeapList, Values};
use tv_model::{Formula, Var};

/// The edges of a closure in a heap: the body, with individuals put for `left` and `right`.
#[derive(Clone, Copy)]
pub(crate) struct Edges<'a> {
    heap: &'a HeapList,
    values: Values,
    left: Var,
    right: Var,
    body: &'a Formula,
}

/// Whether the formula is true in the heap under the values. Takes no memory, and time that grows
/// fast with the heap.
#[cycle(holds)]
pub fn holds(heap: &HeapList, values: Values, f: &Formula) -> bool
    ensures { IsTrue result ↔ Truth (heap_of heap.now) (assignment_of values) (form_of f.now) }
{
    match f {
        Formula::Zero => false,
        Formula::One => true,
        Formula::Atom(pred, terms) => heap.holds_at(*pred, terms, &values),
        Formula::IsNew(v) => heap.fresh == Some(values.at(*v)),
        Formula::Same(v, w) => values.at(*v) == values.at(*w),
        Formula::Not(g) => !holds(heap, values, g),
        Formula::And(g, h) => holds(heap, values, g) && holds(heap, values, h),
        Formula::Or(g, h) => holds(heap, values, g) || holds(heap, values, h),
        Formula::Iff(g, h) => holds(heap, values, g) == holds(heap, values, h),
        Formula::Cond(c, g, h) => {
            if holds(heap, values, c) {
                holds(heap, values, g)
            } else {
                holds(heap, values, h)
            }
        }
        Formula::Exists(v, g) => holds_of_some(heap, values, *v, g),
        Formula::Forall(v, g) => holds_of_all(heap, values, *v, g),
        Formula::Closure {
            from,
            to,
            left,
            right,
            body,
        } => {
            let edges = Edges {
                heap,
                values,
                left: *left,
                right: *right,
                body,
            };
            let allowed = heap.individuals.as_slice();
            reaches(&edges, allowed, values.at(*from), values.at(*to))
        }
    }
}

/// Whether the body is true with the individual put for the variable.
#[cycle(holds)]
fn holds_with(heap: &HeapList, values: Values, v: Var, u: u32, body: &Formula) -> bool
    ensures { IsTrue result ↔ Truth (heap_of heap.now) (put (assignment_of values) v.0 u) (form_of body.now) }
{
    holds(heap, values.with(v, u), body)
}

/// Whether some individual makes the body true.
#[cycle(holds)]
fn holds_of_some(heap: &HeapList, values: Values, v: Var, body: &Formula) -> bool
    ensures { IsTrue result ↔ ((u : ℕ) × Contains (heap_of heap.now).individuals u
        × Truth (heap_of heap.now) (put (assignment_of values) v.0 u) (form_of body.now)) }
{
    for u in heap.individuals.as_slice() {
        if holds_with(heap, values, v, *u, body) {
            return true;
        }
    }
    false
}

/// Whether each individual makes the body true.
#[cycle(holds)]
fn holds_of_all(heap: &HeapList, values: Values, v: Var, body: &Formula) -> bool
    ensures { IsTrue result ↔ ((u : ℕ) → Contains (heap_of heap.now).individuals u
        → Truth (heap_of heap.now) (put (assignment_of values) v.0 u) (form_of body.now)) }
{
    for u in heap.individuals.as_slice() {
        if !holds_with(heap, values, v, *u, body) {
            return false;
        }
    }
    true
}

/// Whether `u` and `w` are individuals that make the body true.
#[cycle(holds)]
fn is_edge(edges: &Edges<'_>, u: u32, w: u32) -> bool
    ensures { IsTrue result ↔ Connects edges.now u w }
{
    let values = edges.values.with(edges.left, u);
    edges.heap.has(u)
        && edges.heap.has(w)
        && holds_with(edges.heap, values, edges.right, w, edges.body)
}

/// Whether a walk leads from `u` to `w` whose stops are allowed: past the first of these, or to it and
/// on from it.
#[cycle(holds)]
fn reaches(edges: &Edges<'_>, allowed: &[u32], u: u32, w: u32) -> bool
    ensures { IsTrue result ↔ Reaches (Connects edges.now) allowed.now u w }
{
    match allowed {
        [] => is_edge(edges, u, w),
        [stop, fewer @ ..] => {
            reaches(edges, fewer, u, w)
                || (reaches(edges, fewer, u, *stop) && reaches(edges, fewer, *stop, w))
        }
    }
}
