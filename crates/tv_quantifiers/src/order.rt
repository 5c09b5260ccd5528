//! Which quantifier's variable is put for many individuals at a time.

ghost use Rattle.std.specs.Prelude.{◌≤◌};

use crate::begins_long_run;
use std::cmp::Ordering;
use tv_kleene::K3;
use tv_model::{Formula, Terms, Var, free};
use tv_row::{Row, Word};

/// For how many individuals at a time it doesn't matter whether an atom is read as a column or a row.
const FEW: u32 = 12;

/// How deep the first part of a formula is looked for.
const DEEP: usize = 8;

/// Whether a quantifier over `w` takes longer with `v` put for `count` individuals at a time than one after
/// the other: where `v` isn't free in its body, or more atoms are read as columns. A column of many values
/// takes longer than a row.
fn is_slow_along(body: &Formula, v: Var, w: Var, count: u32) -> bool {
    if !free(body, v) {
        return true;
    }
    if count <= FEW {
        return false;
    }
    let columns_of = columns(body, v);
    columns_of > 0 && columns_of > columns(body, w)
}

/// How many atoms are read as columns where the variable is put for all individuals: they have it first
/// and another variable second.
fn columns(f: &Formula, v: Var) -> usize {
    match f {
        Formula::Atom(_, Terms::Two(x, y)) => usize::from(x.0 == v.0 && y.0 != v.0),
        Formula::Not(g) | Formula::Exists(_, g) | Formula::Forall(_, g) => columns(g, v),
        Formula::And(g, h) | Formula::Or(g, h) | Formula::Iff(g, h) => {
            columns(g, v).saturating_add(columns(h, v))
        }
        Formula::Cond(c, g, h) => columns(c, v).saturating_add(columns(g, v).saturating_add(columns(
            h, v,
        ))),
        _ => 0,
    }
}

/// Whether at most one of the values isn't `No`: a hint, of which nothing is promised.
pub fn has_few(caps: Word) -> bool {
    match caps.first_possible(0) {
        None => true,
        Some(i) => caps.first_possible(i + 1).is_none(),
    }
}

/// Whether at most two of the values aren't `No`: a hint, of which nothing is promised.
pub fn are_few(caps: &Row) -> bool {
    let _ = caps.size();
    let mut from = 0;
    for _ in 0..2 {
        match caps.next_possible(from) {
            None => return true,
            Some(u) => from = u + 1,
        }
    }
    caps.next_possible(from).is_none()
}

/// Whether a predicate of the variable alone stands first in the formula, so that it will be true for few
/// individuals: a hint, of which nothing is promised.
pub fn begins_with(f: &Formula, w: Var) -> bool {
    let mut part = f;
    for _ in 0..DEEP {
        match part {
            Formula::And(g, _) | Formula::Or(g, _) | Formula::Not(g) => part = g,
            Formula::Atom(_, Terms::One(x)) => return x.0 == w.0,
            _ => return false,
        }
    }
    false
}

/// Whether the quantifier over `w` takes longer with `v` put for all individuals at a time than one after the
/// other: the first `count` values of `front` are those of `v`, and `caps` those of `w`. A hint, of which
/// nothing is promised.
pub fn is_slower(body: &Formula, v: Var, w: Var, front: Word, count: u32, caps: &Row) -> bool
    requires { count ≤ 64 }
{
    if begins_long_run(body) {
        return true;
    }
    if are_few(caps) {
        return false;
    }
    if caps.are_possible() && front.least(count) != K3::No {
        return is_slow_along(body, v, w, count);
    }
    match compare_counts(front, caps) {
        Ordering::Less => true,
        Ordering::Equal => is_slow_along(body, v, w, count),
        Ordering::Greater => false,
    }
}

/// Which has fewer values that aren't `No`.
fn compare_counts(word: Word, row: &Row) -> Ordering {
    let _ = row.size();
    let mut i = 0;
    let mut u = 0;
    loop {
        match (word.first_possible(i), row.next_possible(u)) {
            (None, None) => return Ordering::Equal,
            (None, Some(_)) => return Ordering::Less,
            (Some(_), None) => return Ordering::Greater,
            (Some(j), Some(w)) => {
                i = j + 1;
                u = w + 1;
            }
        }
    }
}
