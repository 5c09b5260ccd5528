//! The edges of a closure, as they stand in its formula.

ghost use Rattle.std.specs.Prelude.{◌≡◌, ◌≢◌, ◌↔◌, IsTrue};
ghost use Rattle.tv_model.specs.Form.{form_of, vars_of, IsFree};

use tv_model::{Formula, Terms, Var, free};

/// The edges of a closure: the body, read as a relation from `left` to `right`.
#[derive(Clone, Copy)]
pub struct Edges<'f> {
    pub left: Var,
    pub right: Var,
    pub body: &'f Formula,
}

/// Whether the variable stands free in the body and isn't one of the closure's own.
pub fn has_outer(edges: Edges<'_>, v: u8) -> bool
    ensures { IsTrue result ↔ ((v ≢ edges.entry.left.0) × (v ≢ edges.entry.right.0) × IsFree v
        (form_of edges.entry.body.now)) }
{
    if v == edges.left.0 {
        return false;
    }
    if v == edges.right.0 {
        return false;
    }
    free(edges.body, Var(v))
}

/// Whether the edges are those of equal bodies, between the same variables.
pub fn are_same(one: Edges<'_>, other: Edges<'_>) -> bool
    ensures { IsTrue result
        ↔ ((one.entry.left.0 ≡ other.entry.left.0) × (one.entry.right.0 ≡ other.entry.right.0)
        × (form_of one.entry.body.now ≡ form_of other.entry.body.now)) }
{
    one.left.0 == other.left.0
        && one.right.0 == other.right.0
        && are_same_bodies(one.body, other.body)
}

/// Whether the two bodies are equal; atoms, as most bodies are, are compared at once.
fn are_same_bodies(f: &Formula, g: &Formula) -> bool
    ensures { IsTrue result ↔ (form_of f.now ≡ form_of g.now) }
{
    match (f, g) {
        (Formula::Atom(p, ts), Formula::Atom(q, us)) => p.0 == q.0 && are_same_terms(ts, us),
        _ => is_same(f, g),
    }
}

/// Whether the formulas are the same, names of variables and all.
pub fn is_same(f: &Formula, g: &Formula) -> bool
    ensures { IsTrue result ↔ (form_of f.now ≡ form_of g.now) }
{
    match (f, g) {
        (Formula::Zero, Formula::Zero) | (Formula::One, Formula::One) => true,
        (Formula::Atom(p, ts), Formula::Atom(q, us)) => p.0 == q.0 && are_same_terms(ts, us),
        (Formula::IsNew(v), Formula::IsNew(w)) => v.0 == w.0,
        (Formula::Same(v, w), Formula::Same(x, y)) => v.0 == x.0 && w.0 == y.0,
        (Formula::Not(a), Formula::Not(b)) => is_same(a, b),
        (Formula::And(a, b), Formula::And(c, d)) => is_same(a, c) && is_same(b, d),
        (Formula::Or(a, b), Formula::Or(c, d)) => is_same(a, c) && is_same(b, d),
        (Formula::Iff(a, b), Formula::Iff(c, d)) => is_same(a, c) && is_same(b, d),
        (Formula::Cond(a, b, c), Formula::Cond(d, e, g)) => {
            is_same(a, d) && is_same(b, e) && is_same(c, g)
        }
        (Formula::Exists(v, a), Formula::Exists(w, b)) => v.0 == w.0 && is_same(a, b),
        (Formula::Forall(v, a), Formula::Forall(w, b)) => v.0 == w.0 && is_same(a, b),
        (
            Formula::Closure {
                from: a,
                to: b,
                left: c,
                right: d,
                body: g,
            },
            Formula::Closure {
                from: v,
                to: w,
                left: x,
                right: y,
                body: h,
            },
        ) => a.0 == v.0 && b.0 == w.0 && c.0 == x.0 && d.0 == y.0 && is_same(g, h),
        _ => false,
    }
}

fn are_same_terms(ts: &Terms, us: &Terms) -> bool
    ensures { IsTrue result ↔ (vars_of ts.now ≡ vars_of us.now) }
{
    match (ts, us) {
        (Terms::Zero, Terms::Zero) => true,
        (Terms::One(v), Terms::One(w)) => v.0 == w.0,
        (Terms::Two(v, x), Terms::Two(w, y)) => v.0 == w.0 && x.0 == y.0,
        _ => false,
    }
}
