//! Formulas of compiled programs, put together from parts.

ghost use Rattle.std.specs.Prelude.{◌≡◌, [], ◌∷◌, IfOk};
ghost use Rattle.tv_model.specs.Form.{form_of, FAtom, FNot, FAnd, FOr, FIff, FExists, FForall};

use std::alloc::{AllocError, Global};
use tv_model::{Formula, PredId, Terms, Var};

/// `x(v)`
pub fn one_place(x: u32, v: u8) -> Formula
    ensures { form_of result ≡ FAtom x (v ∷ []) }
{
    Formula::Atom(PredId(x), Terms::One(Var(v)))
}

/// `f(v, w)`
pub fn two_places(f: u32, v: u8, w: u8) -> Formula
    ensures { form_of result ≡ FAtom f (v ∷ w ∷ []) }
{
    Formula::Atom(PredId(f), Terms::Two(Var(v), Var(w)))
}

fn boxed(alloc: Global, f: Formula) -> Result<Box<Formula>, AllocError>
    ensures { IfOk result (λ b. form_of b.value ≡ form_of f) }
{
    Ok(Box::new(alloc, f)?)
}

/// `!f`
pub fn negation(alloc: Global, f: Formula) -> Result<Formula, AllocError>
    ensures { IfOk result (λ g. form_of g ≡ FNot (form_of f)) }
{
    Ok(Formula::Not(boxed(alloc, f)?))
}

/// `f & g`
pub fn both(alloc: Global, f: Formula, g: Formula) -> Result<Formula, AllocError>
    ensures { IfOk result (λ h. form_of h ≡ FAnd (form_of f) (form_of g)) }
{
    Ok(Formula::And(boxed(alloc, f)?, boxed(alloc, g)?))
}

/// `f | g`
pub fn either(alloc: Global, f: Formula, g: Formula) -> Result<Formula, AllocError>
    ensures { IfOk result (λ h. form_of h ≡ FOr (form_of f) (form_of g)) }
{
    Ok(Formula::Or(boxed(alloc, f)?, boxed(alloc, g)?))
}

/// `f <-> g`
pub fn alike(alloc: Global, f: Formula, g: Formula) -> Result<Formula, AllocError>
    ensures { IfOk result (λ h. form_of h ≡ FIff (form_of f) (form_of g)) }
{
    Ok(Formula::Iff(boxed(alloc, f)?, boxed(alloc, g)?))
}

/// `E(v) f`
pub fn some(alloc: Global, v: u8, f: Formula) -> Result<Formula, AllocError>
    ensures { IfOk result (λ g. form_of g ≡ FExists v (form_of f)) }
{
    Ok(Formula::Exists(Var(v), boxed(alloc, f)?))
}

/// `A(v) f`
pub fn every(alloc: Global, v: u8, f: Formula) -> Result<Formula, AllocError>
    ensures { IfOk result (λ g. form_of g ≡ FForall v (form_of f)) }
{
    Ok(Formula::Forall(Var(v), boxed(alloc, f)?))
}
