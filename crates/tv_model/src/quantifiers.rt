//! Quantifiers one in the other, gone through without recursion: a text may have thousands of them.

ghost use Rattle.std.specs.Prelude.{◌≡◌, ◌≤◌, IfOk};
ghost use Rattle.tv_model.specs.Form.{form_of, height};
ghost use Rattle.tv_model.specs.Quantifiers.{bound, bound_by, bound_var, renamed};

use crate::{Formula, Var};
use std::alloc::{AllocError, Global};

/// A quantifier with its variable.
#[derive(Clone, Copy, Debug)]
pub enum Binding {
    /// Some individual.
    Exists(Var),
    /// Every individual.
    Forall(Var),
}

impl Binding {
    /// Its variable.
    pub fn var(self) -> Var
        ensures { result.0 ≡ bound_var self }
    {
        match self {
            Binding::Exists(v) | Binding::Forall(v) => v,
        }
    }

    /// The same quantifier of another variable.
    pub fn renamed(self, w: Var) -> Binding
        ensures { result ≡ renamed self w }
    {
        match self {
            Binding::Exists(_) => Binding::Exists(w),
            Binding::Forall(_) => Binding::Forall(w),
        }
    }

    /// The formula under the quantifier.
    pub(crate) fn over(self, alloc: Global, f: Formula) -> Result<Formula, AllocError>
        ensures { IfOk result (λ g. form_of g ≡ bound self (form_of f)) }
    {
        let body = Box::new(alloc, f)?;
        Ok(match self {
            Binding::Exists(v) => Formula::Exists(v, body),
            Binding::Forall(v) => Formula::Forall(v, body),
        })
    }
}

/// The quantifiers at the head of the formula, the outermost first, and what stands under them.
#[tactic(auto, using(crate::proofs::Quantifying::bound_last))]
pub fn at_head(alloc: Global, f: &Formula) -> Result<(Vec<Binding>, &Formula), AllocError>
    ensures parts { IfOk result (λ r. bound_by r.0.items (form_of r.1.now) ≡ form_of f.now) }
    ensures size { IfOk result (λ r. height (form_of r.1.now) ≤ height (form_of f.now)) }
{
    let mut bindings = Vec::new(alloc);
    let mut body = f;
    loop {
        match body {
            Formula::Exists(v, g) => {
                bindings.push(Binding::Exists(*v))?;
                body = g;
            }
            Formula::Forall(v, g) => {
                bindings.push(Binding::Forall(*v))?;
                body = g;
            }
            _ => return Ok((bindings, body)),
        }
    }
}

/// The formula under the quantifiers, of which the first comes to stand outermost.
#[tactic(auto, using(crate::proofs::Quantifying::bound_last))]
pub fn bound_by(
    alloc: Global,
    mut bindings: Vec<Binding>,
    f: Formula,
) -> Result<Formula, AllocError>
    ensures { IfOk result (λ g. form_of g ≡ bound_by bindings.items (form_of f)) }
{
    let mut g = f;
    while let Some(binding) = bindings.pop() {
        g = binding.over(alloc, g)?;
    }
    Ok(g)
}
