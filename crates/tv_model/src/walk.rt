//! Questions about a formula's tree, and its copy.

ghost use Rattle.std.specs.Prelude.{◌≡◌, ◌↔◌, ◌+◌, ◌++◌, min, Contains, IsTrue, IfOk, OnOk};
ghost use Rattle.tv_model.specs.Form.{form_of, vars_of, IsFree, Mentions, mentioned, height};
ghost use Rattle.tv_model.specs.Quantifiers.{bound};

use crate::quantifiers::{Binding, at_head, bound_by};
use crate::{Formula, PredId, Terms, Var};
use std::alloc::{AllocError, Global};

/// Whether `v` stands free in `f`. Takes no memory.
pub fn free(f: &Formula, v: Var) -> bool
    ensures { IsTrue result ↔ IsFree v.0 (form_of f.now) }
{
    match f {
        Formula::Zero | Formula::One => false,
        Formula::Atom(_, terms) => stands_in(terms, v),
        Formula::IsNew(w) => v.0 == w.0,
        Formula::Same(w, u) => v.0 == w.0 || v.0 == u.0,
        Formula::Not(g) => free(g, v),
        Formula::And(g, h) | Formula::Or(g, h) | Formula::Iff(g, h) => free(g, v) || free(h, v),
        Formula::Cond(c, g, h) => free(c, v) || free(g, v) || free(h, v),
        Formula::Exists(w, g) | Formula::Forall(w, g) => v.0 != w.0 && free(g, v),
        Formula::Closure {
            from,
            to,
            left,
            right,
            body,
        } => { v.0 == from.0 || v.0 == to.0 || (v.0 != left.0 && v.0 != right.0 && free(body, v)) }
    }
}

fn stands_in(terms: &Terms, v: Var) -> bool
    ensures { IsTrue result ↔ Contains (vars_of terms.now) v.0 }
{
    match terms {
        Terms::Zero => false,
        Terms::One(w) => v.0 == w.0,
        Terms::Two(w, u) => v.0 == w.0 || v.0 == u.0,
    }
}

/// Whether an atom of `f` has the predicate `p`. Takes no memory.
pub fn mentions(f: &Formula, p: PredId) -> bool
    ensures { IsTrue result ↔ Mentions p.0 (form_of f.now) }
{
    match f {
        Formula::Zero | Formula::One | Formula::IsNew(_) | Formula::Same(_, _) => false,
        Formula::Atom(q, _) => p.0 == q.0,
        Formula::Not(g) | Formula::Exists(_, g) | Formula::Forall(_, g) => mentions(g, p),
        Formula::And(g, h) | Formula::Or(g, h) | Formula::Iff(g, h) => {
            mentions(g, p) || mentions(h, p)
        }
        Formula::Cond(c, g, h) => mentions(c, p) || mentions(g, p) || mentions(h, p),
        Formula::Closure { body, .. } => mentions(body, p),
    }
}

/// Puts the predicates of the formula's atoms behind the others, in reading order, each as often as it stands
/// there.
pub fn push_mentioned(f: &Formula, found: &mut Vec<u32>) -> Result<(), AllocError>
    ensures { OnOk result (found.new.items ≡ found.old.items ++ mentioned (form_of f.now)) }
{
    match f {
        Formula::Zero | Formula::One | Formula::IsNew(_) | Formula::Same(_, _) => Ok(()),
        Formula::Atom(pred, _) => {
            found.push(pred.0)?;
            Ok(())
        }
        Formula::Not(g) | Formula::Exists(_, g) | Formula::Forall(_, g) => push_mentioned(g, found),
        Formula::And(g, h) | Formula::Or(g, h) | Formula::Iff(g, h) => {
            push_mentioned(g, found)?;
            push_mentioned(h, found)
        }
        Formula::Cond(c, g, h) => {
            push_mentioned(c, found)?;
            push_mentioned(g, found)?;
            push_mentioned(h, found)
        }
        Formula::Closure { body, .. } => push_mentioned(body, found),
    }
}

/// An equal formula in memory of its own.
#[cycle(copy)]
pub fn copy(alloc: Global, f: &Formula) -> Result<Formula, AllocError>
    ensures { IfOk result (λ g. form_of g ≡ form_of f.now) }
{
    Ok(match f {
        Formula::Zero => Formula::Zero,
        Formula::One => Formula::One,
        Formula::Atom(p, terms) => Formula::Atom(*p, *terms),
        Formula::IsNew(v) => Formula::IsNew(*v),
        Formula::Same(v, w) => Formula::Same(*v, *w),
        Formula::Not(g) => Formula::Not(boxed(alloc, g)?),
        Formula::And(g, h) => Formula::And(boxed(alloc, g)?, boxed(alloc, h)?),
        Formula::Or(g, h) => Formula::Or(boxed(alloc, g)?, boxed(alloc, h)?),
        Formula::Iff(g, h) => Formula::Iff(boxed(alloc, g)?, boxed(alloc, h)?),
        Formula::Cond(c, g, h) => {
            Formula::Cond(boxed(alloc, c)?, boxed(alloc, g)?, boxed(alloc, h)?)
        }
        Formula::Exists(v, g) => copy_under(alloc, Binding::Exists(*v), g)?,
        Formula::Forall(v, g) => copy_under(alloc, Binding::Forall(*v), g)?,
        Formula::Closure {
            from,
            to,
            left,
            right,
            body,
        } => Formula::Closure {
            from: *from,
            to: *to,
            left: *left,
            right: *right,
            body: boxed(alloc, body)?,
        },
    })
}

#[cycle(copy)]
fn boxed(alloc: Global, f: &Formula) -> Result<Box<Formula>, AllocError>
    ensures { IfOk result (λ g. form_of g.value ≡ form_of f.now) }
{
    Ok(Box::new(alloc, copy(alloc, f)?)?)
}

// A copy of the body under a copy of the quantifier.
#[cycle(copy)]
fn copy_under(alloc: Global, outermost: Binding, f: &Formula) -> Result<Formula, AllocError>
    ensures { IfOk result (λ g. form_of g ≡ bound outermost (form_of f.now)) }
{
    let (bindings, body) = at_head(alloc, f)?;
    let inner = bound_by(alloc, bindings, copy(alloc, body)?)?;
    outermost.over(alloc, inner)
}

/// The height of the formula's tree, 1 for a leaf; a height past `usize::MAX` counts as that. Takes
/// no memory.
pub fn depth(f: &Formula) -> usize
    ensures { result ≡ min (height (form_of f.now)) usize.MAX }
{
    match f {
        Formula::Zero
        | Formula::One
        | Formula::Atom(_, _)
        | Formula::IsNew(_)
        | Formula::Same(_, _) => 1,
        Formula::Not(g) | Formula::Exists(_, g) | Formula::Forall(_, g) => above(depth(g)),
        Formula::And(g, h) | Formula::Or(g, h) | Formula::Iff(g, h) => {
            above(depth(g).max(depth(h)))
        }
        Formula::Cond(c, g, h) => above(depth(c).max(depth(g).max(depth(h)))),
        Formula::Closure { body, .. } => above(depth(body)),
    }
}

fn above(height: usize) -> usize
    ensures { result ≡ min (height + 1) usize.MAX }
{
    height.saturating_add(1)
}
