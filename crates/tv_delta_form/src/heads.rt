//! Quantifiers one in the other, gone through without recursion: a text may have thousands of them.

ghost use Rattle.std.specs.Prelude.{◌≡◌, ◌+◌, ◌≤◌, IfOk, IfSome, IfNone};
ghost use Rattle.tv_model.specs.Form.{form_of, height};
ghost use Rattle.tv_delta_laws.specs.Simple.{nodes};
ghost use Rattle.tv_model.specs.Quantifiers.{bound, bound_by};

use std::alloc::{AllocError, Global};
use tv_model::{Binding, Formula};

/// The quantifier at the head of the formula, and what stands under it; none where there is none.
pub fn outermost(f: &Formula) -> Option<(Binding, &Formula)>
    ensures parts { IfSome result (λ r. bound r.0 (form_of r.1.now) ≡ form_of f.now) }
    ensures nodes { IfSome result (λ r. nodes (form_of r.1.now) + 1 ≡ nodes (form_of f.now)) }
    ensures height { IfSome result (λ r. height (form_of r.1.now) + 1 ≡ height (form_of f.now)) }
{
    match f {
        Formula::Exists(v, g) => Some((Binding::Exists(*v), g)),
        Formula::Forall(v, g) => Some((Binding::Forall(*v), g)),
        _ => None,
    }
}

/// The quantifiers at the head of the formula, the outermost first, and what stands under them.
#[tactic(auto, using(tv_model::proofs::Quantifying::bound_last))]
pub fn head_of(alloc: Global, f: &Formula) -> Result<(Vec<Binding>, &Formula), AllocError>
    ensures parts { IfOk result (λ r. bound_by r.0.items (form_of r.1.now) ≡ form_of f.now) }
    ensures nodes { IfOk result (λ r. nodes (form_of r.1.now) ≤ nodes (form_of f.now)) }
    ensures height { IfOk result (λ r. height (form_of r.1.now) ≤ height (form_of f.now)) }
{
    let mut bindings = Vec::new(alloc);
    let mut body = f;
    while let Some((binding, g)) = outermost(body) {
        bindings.push(binding)?;
        body = g;
    }
    Ok((bindings, body))
}
