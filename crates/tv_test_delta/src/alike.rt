//! Formulas that are the same up to the numbers of bound variables.

use tv_model::{Change, Formula, Terms, Update, Var};

/// How many binders were passed, and for each variable the number of the last one that binds it, 0 where it
/// is free.
#[derive(Clone, Copy)]
struct Binders {
    count: u32,
    last: [u32; 34],
}

const NONE: Binders = Binders {
    count: 0,
    last: [0; 34],
};

fn with_binder(binders: Binders, v: Var) -> Binders {
    let Binders { count, mut last } = binders;
    let count = count.wrapping_add(1);
    if let Some(place) = last.get_mut(v.0 as usize) {
        *place = count;
    }
    Binders { count, last }
}

/// The binders of two formulas, in which the n-th ones are partners.
#[derive(Clone, Copy)]
struct Sides {
    left: Binders,
    right: Binders,
}

fn with_binders(sides: Sides, v: Var, w: Var) -> Sides {
    Sides {
        left: with_binder(sides.left, v),
        right: with_binder(sides.right, w),
    }
}

fn binder_of(binders: Binders, v: Var) -> u32 {
    binders.last.get(v.0 as usize).copied().unwrap_or(0)
}

/// Whether partners bind both, or neither is bound and they are one.
fn is_partner(sides: Sides, v: Var, w: Var) -> bool {
    let left = binder_of(sides.left, v);
    left == binder_of(sides.right, w) && (left != 0 || v == w)
}

fn are_partners(sides: Sides, a: Terms, b: Terms) -> bool {
    match (a, b) {
        (Terms::Zero, Terms::Zero) => true,
        (Terms::One(v), Terms::One(w)) => is_partner(sides, v, w),
        (Terms::Two(v, x), Terms::Two(w, y)) => {
            is_partner(sides, v, w) && is_partner(sides, x, y)
        }
        _ => false,
    }
}

/// Whether both formulas are the same up to the numbers of bound variables.
fn are_alike(sides: Sides, f: &Formula, g: &Formula) -> bool {
    match (f, g) {
        (Formula::Zero, Formula::Zero) | (Formula::One, Formula::One) => true,
        (Formula::Atom(p, a), Formula::Atom(q, b)) => p == q && are_partners(sides, *a, *b),
        (Formula::IsNew(v), Formula::IsNew(w)) => is_partner(sides, *v, *w),
        (Formula::Same(v, x), Formula::Same(w, y)) => {
            is_partner(sides, *v, *w) && is_partner(sides, *x, *y)
        }
        (Formula::Not(a), Formula::Not(b)) => are_alike(sides, a, b),
        (Formula::And(a, c), Formula::And(b, d))
        | (Formula::Or(a, c), Formula::Or(b, d))
        | (Formula::Iff(a, c), Formula::Iff(b, d)) => {
            are_alike(sides, a, b) && are_alike(sides, c, d)
        }
        (Formula::Cond(a, c, e), Formula::Cond(b, d, h)) => {
            are_alike(sides, a, b) && are_alike(sides, c, d) && are_alike(sides, e, h)
        }
        (Formula::Exists(v, a), Formula::Exists(w, b))
        | (Formula::Forall(v, a), Formula::Forall(w, b)) => {
            are_alike(with_binders(sides, *v, *w), a, b)
        }
        (
            Formula::Closure {
                from,
                to,
                left,
                right,
                body,
            },
            Formula::Closure {
                from: start,
                to: end,
                left: first,
                right: second,
                body: inner,
            },
        ) => {
            let outer = with_binders(sides, *left, *first);
            is_partner(sides, *from, *start)
                && is_partner(sides, *to, *end)
                && are_alike(with_binders(outer, *right, *second), body, inner)
        }
        _ => false,
    }
}

/// The own variables of two updates, as partners.
fn own(a: Terms, b: Terms) -> Option<Sides> {
    let none = Sides {
        left: NONE,
        right: NONE,
    };
    match (a, b) {
        (Terms::Zero, Terms::Zero) => Some(none),
        (Terms::One(v), Terms::One(w)) => Some(with_binders(none, v, w)),
        (Terms::Two(v, x), Terms::Two(w, y)) => Some(with_binders(with_binders(none, v, w), x, y)),
        _ => None,
    }
}

/// Whether both updates are of one predicate and say the same of their own variables.
pub fn are_same(a: &Update, b: &Update) -> bool {
    match (own(a.vars, b.vars), &a.change, &b.change) {
        (Some(_), Change::Free, Change::Free) => a.pred == b.pred,
        (Some(sides), Change::To(f), Change::To(g)) => a.pred == b.pred && are_alike(sides, f, g),
        _ => false,
    }
}
