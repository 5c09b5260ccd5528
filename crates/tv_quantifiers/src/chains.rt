//! Runs whose parts hang together like a chain: a part that speaks of a variable speaks of one before it or
//! behind it at most, and of no other of the run. So a run is gone through from the innermost quantifier
//! outwards, one row of values after the other.

ghost use Rattle.std.specs.Prelude.{◌≡◌, ◌<◌, ◌==◌, ◌∷◌, length, drop, IsTrue};
ghost use Rattle.tv_model.specs.Form.{form_of};
ghost use Rattle.tv_model.specs.Free.{is_free};
ghost use Rattle.tv_quantifiers.specs.Chains.{is_outside, is_taken, parts_of, parts_by, AreLower};
ghost use Rattle.tv_quantifiers.specs.Chains.{IsLinked, AreLinked};

use crate::{Level, Quantifier};
use tv_model::{Formula, Var, free};

/// How a formula falls apart.
#[derive(Clone, Copy)]
pub enum Shape<'f> {
    /// Its value is the least of both.
    Two(&'f Formula, &'f Formula),
    /// Its value is the other's, negated.
    Negated(&'f Formula),
    /// It doesn't.
    Whole,
}

/// How the formula falls apart; under "for all", how its negation does.
pub fn split(sign: Quantifier, f: &Formula) -> Shape<'_>
    ensures parts { parts_of sign (form_of f.now) ≡ parts_by result sign (form_of f.now) }
    ensures lower { AreLower result (form_of f.now) }
{
    match (sign, f) {
        (Quantifier::Exists, Formula::And(g, h)) => Shape::Two(g, h),
        (Quantifier::Forall, Formula::Or(g, h)) => Shape::Two(g, h),
        (_, Formula::Not(g)) => Shape::Negated(g),
        _ => Shape::Whole,
    }
}

/// "For all" where the negation of the formula falls apart, and the formula doesn't: a hint, of which nothing
/// is promised.
pub fn sign_of(f: &Formula) -> Quantifier {
    match f {
        Formula::Or(_, _) => Quantifier::Forall,
        Formula::Not(g) => sign_of(g).other(),
        _ => Quantifier::Exists,
    }
}

/// A quantifier of a run, and those behind it.
#[derive(Clone, Copy)]
pub struct Link<'l> {
    pub level: Level,
    pub inner: &'l [Level],
    /// No quantifier of the run stands before it.
    pub is_first: bool,
}

impl<'l> Link<'l> {
    /// The quantifier at the place `k`.
    pub fn at(levels: &'l [Level], k: usize) -> Link<'l>
        requires { k < length levels.now }
        ensures levels { drop k levels.now ≡ result.level ∷ result.inner.now }
        ensures first { result.is_first ≡ (k == 0) }
    {
        let (_, behind) = levels.split_at(k);
        Link {
            level: behind[0],
            inner: &behind[1..],
            is_first: k == 0,
        }
    }

    /// Whether a part stands at this quantifier: it speaks of its variable, and of none behind it. What
    /// speaks of no variable of the run stands at the first.
    pub fn takes(self, f: &Formula) -> bool
        ensures { result
            ≡ is_taken self.entry.is_first self.entry.level.var.0 self.entry.inner.now (form_of f.now) }
    {
        (self.is_first || has(f, self.level.var)) && is_outside(f, self.inner)
    }
}

/// Whether the variable is free in the formula.
fn has(f: &Formula, v: Var) -> bool
    ensures { result ≡ is_free v.0 (form_of f.now) }
{
    free(f, v)
}

/// Whether no variable of the levels is free in the formula.
fn is_outside(f: &Formula, levels: &[Level]) -> bool
    ensures { result ≡ is_outside levels.now (form_of f.now) }
{
    match levels.split_first() {
        None => true,
        Some((level, inner)) => !has(f, level.var) && is_outside(f, inner),
    }
}

/// Whether no variable of the levels behind the first is free in the formula.
fn is_outside_rest(f: &Formula, levels: &[Level]) -> bool
    ensures { result ≡ is_outside (drop 1 levels.now) (form_of f.now) }
{
    match levels.split_first() {
        None => true,
        Some((_, inner)) => is_outside(f, inner),
    }
}

/// Whether each part of the formula is a link of the chain.
pub fn are_linked(f: &Formula, sign: Quantifier, levels: &[Level]) -> bool
    ensures { IsTrue result → AreLinked levels.now (parts_of sign (form_of f.now)) }
{
    match split(sign, f) {
        Shape::Two(g, h) => are_linked(g, sign, levels) && are_linked(h, sign, levels),
        Shape::Negated(g) => are_linked(g, sign.other(), levels),
        Shape::Whole => is_linked(f, levels),
    }
}

fn is_linked(f: &Formula, levels: &[Level]) -> bool
    ensures { IsTrue result → IsLinked levels.now (form_of f.now) }
{
    match levels.split_first() {
        None => true,
        Some((level, inner)) => {
            (!has(f, level.var) || is_outside_rest(f, inner)) && is_linked(f, inner)
        }
    }
}
