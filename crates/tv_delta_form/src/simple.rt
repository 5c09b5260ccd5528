//! Constructors that simplify.

ghost use Rattle.std.specs.Prelude.{◌≡◌, IfOk};
ghost use Rattle.tv_delta_laws.specs.Simple.{simple_not, simple_and, simple_or, simple_exists, simple_forall};
ghost use Rattle.tv_delta_laws.specs.Simple.{simple_cond};
ghost use Rattle.tv_delta_form.specs.Views.{form_at};

use crate::made::{and, cond, exists, forall, not, one, or, zero};
use crate::shared::Shared;
use std::alloc::{AllocError, Global};
use tv_model::Var;

/// The negation, simplified.
pub fn simple_not(alloc: Global, f: &Shared) -> Result<Shared, AllocError>
    ensures { IfOk result (λ x. form_at x ≡ simple_not (form_at f.now)) }
{
    if f.is_zero() {
        one(alloc)
    } else if f.is_one() {
        zero(alloc)
    } else {
        not(alloc, f)
    }
}

/// The conjunction, simplified.
pub fn simple_and(alloc: Global, f: &Shared, g: &Shared) -> Result<Shared, AllocError>
    ensures { IfOk result (λ x. form_at x ≡ simple_and (form_at f.now) (form_at g.now)) }
{
    if f.is_zero() || g.is_zero() {
        zero(alloc)
    } else if f.is_one() {
        g.again()
    } else if g.is_one() {
        f.again()
    } else {
        and(alloc, f, g)
    }
}

/// The disjunction, simplified.
pub fn simple_or(alloc: Global, f: &Shared, g: &Shared) -> Result<Shared, AllocError>
    ensures { IfOk result (λ x. form_at x ≡ simple_or (form_at f.now) (form_at g.now)) }
{
    if f.is_one() || g.is_one() {
        one(alloc)
    } else if f.is_zero() {
        g.again()
    } else if g.is_zero() {
        f.again()
    } else {
        or(alloc, f, g)
    }
}

/// That some individual makes the body true, simplified.
pub fn simple_exists(alloc: Global, v: Var, f: &Shared) -> Result<Shared, AllocError>
    ensures { IfOk result (λ x. form_at x ≡ simple_exists v.0 (form_at f.now)) }
{
    if f.is_zero() {
        zero(alloc)
    } else {
        exists(alloc, v, f)
    }
}

/// That every individual makes the body true, simplified.
pub fn simple_forall(alloc: Global, v: Var, f: &Shared) -> Result<Shared, AllocError>
    ensures { IfOk result (λ x. form_at x ≡ simple_forall v.0 (form_at f.now)) }
{
    if f.is_one() {
        one(alloc)
    } else {
        forall(alloc, v, f)
    }
}

/// The conditional, simplified.
pub fn simple_cond(alloc: Global, c: &Shared, f: &Shared, g: &Shared) -> Result<Shared, AllocError>
    ensures { IfOk result (λ x. form_at x ≡ simple_cond (form_at c.now) (form_at f.now) (form_at g.now)) }
{
    if f.is_one() {
        simple_or(alloc, c, g)
    } else if g.is_zero() {
        simple_and(alloc, c, f)
    } else {
        cond(alloc, c, f, g)
    }
}
