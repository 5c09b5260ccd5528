//! Formulas whose parts are shared, made of their parts.

ghost use Rattle.std.specs.Prelude.{◌≡◌, IfOk};
ghost use Rattle.tv_model.specs.Form.{form_of, vars_of, FZero, FOne, FAtom, FIsNew, FSame, FNot, FAnd, FOr};
ghost use Rattle.tv_model.specs.Form.{FIff, FCond, FExists, FForall, FClosure};
ghost use Rattle.tv_delta_laws.specs.Simple.{is_small, is_zero, is_one};
ghost use Rattle.tv_delta_form.specs.Shapes.{shape_form};
ghost use Rattle.tv_delta_form.specs.Sizes.{size_of, leaf_size};
ghost use Rattle.tv_delta_form.specs.Views.{form_at};

use crate::shape::{Shape, unshared};
use crate::shared::{Shared, sized};
use crate::size::{LEAF, ONE, ZERO, is_small_size, node_over, node_over_three, node_over_two};
use std::alloc::{AllocError, Global};
use tv_model::{Formula, PredId, Terms, Var};

impl Shared {
    /// A further reference to the formula, whose parts are shared.
    pub(crate) fn again(&self) -> Result<Shared, AllocError>
        ensures { IfOk result (λ s. form_at s ≡ form_at self.now) }
    {
        Ok(Shared {
            shape: self.shape.clone()?,
            size: self.size,
        })
    }

    /// Whether it is false.
    pub(crate) fn is_zero(&self) -> bool
        ensures { result ≡ is_zero (form_at self.now) }
    {
        self.size.zero
    }

    /// Whether it is true.
    pub(crate) fn is_one(&self) -> bool
        ensures { result ≡ is_one (form_at self.now) }
    {
        self.size.one
    }

    /// Whether it has at most 65,536 nodes and is at most 1,000 high.
    #[tactic(auto, using(crate::proofs::SizeLaws::small_sized))]
    pub(crate) fn is_small(&self) -> bool
        ensures { result ≡ is_small (form_at self.now) }
    {
        is_small_size(self.size)
    }

    /// The formula with parts of its own.
    pub(crate) fn formula(&self, alloc: Global) -> Result<Formula, AllocError>
        ensures { IfOk result (λ f. form_of f ≡ form_at self.now) }
    {
        unshared(alloc, &self.shape)
    }
}

/// False.
pub fn zero(alloc: Global) -> Result<Shared, AllocError>
    ensures { IfOk result (λ s. form_at s ≡ FZero) }
{
    sized(alloc, Shape::Zero, ZERO)
}

/// True.
pub fn one(alloc: Global) -> Result<Shared, AllocError>
    ensures { IfOk result (λ s. form_at s ≡ FOne) }
{
    sized(alloc, Shape::One, ONE)
}

/// An atom.
pub fn atom(alloc: Global, p: PredId, terms: Terms) -> Result<Shared, AllocError>
    ensures { IfOk result (λ s. form_at s ≡ FAtom p.0 (vars_of terms)) }
{
    sized(alloc, Shape::Atom(p, terms), LEAF)
}

fn is_new(alloc: Global, v: Var) -> Result<Shared, AllocError>
    ensures { IfOk result (λ s. form_at s ≡ FIsNew v.0) }
{
    sized(alloc, Shape::IsNew(v), LEAF)
}

fn same(alloc: Global, v: Var, w: Var) -> Result<Shared, AllocError>
    ensures { IfOk result (λ s. form_at s ≡ FSame v.0 w.0) }
{
    sized(alloc, Shape::Same(v, w), LEAF)
}

/// The negation, as it is.
#[tactic(auto, using(crate::proofs::SizeLaws::not_sized))]
pub fn not(alloc: Global, f: &Shared) -> Result<Shared, AllocError>
    ensures { IfOk result (λ s. form_at s ≡ FNot (form_at f.now)) }
{
    let g = f.shape.clone()?;
    sized(alloc, Shape::Not(g), node_over(f.size.nodes, f.size.height))
}

/// The conjunction, as it is.
#[tactic(auto, using(crate::proofs::SizeLaws::and_sized))]
pub fn and(alloc: Global, f: &Shared, g: &Shared) -> Result<Shared, AllocError>
    ensures { IfOk result (λ s. form_at s ≡ FAnd (form_at f.now) (form_at g.now)) }
{
    let x = f.shape.clone()?;
    let y = g.shape.clone()?;
    sized(alloc, Shape::And(x, y), node_over_two(f.size, g.size))
}

/// The disjunction, as it is.
#[tactic(auto, using(crate::proofs::SizeLaws::or_sized))]
pub fn or(alloc: Global, f: &Shared, g: &Shared) -> Result<Shared, AllocError>
    ensures { IfOk result (λ s. form_at s ≡ FOr (form_at f.now) (form_at g.now)) }
{
    let x = f.shape.clone()?;
    let y = g.shape.clone()?;
    sized(alloc, Shape::Or(x, y), node_over_two(f.size, g.size))
}

#[tactic(auto, using(crate::proofs::SizeLaws::iff_sized))]
fn iff(alloc: Global, f: &Shared, g: &Shared) -> Result<Shared, AllocError>
    ensures { IfOk result (λ s. form_at s ≡ FIff (form_at f.now) (form_at g.now)) }
{
    let x = f.shape.clone()?;
    let y = g.shape.clone()?;
    sized(alloc, Shape::Iff(x, y), node_over_two(f.size, g.size))
}

/// The conditional, as it is.
#[tactic(auto, using(crate::proofs::SizeLaws::cond_sized))]
pub fn cond(alloc: Global, c: &Shared, f: &Shared, g: &Shared) -> Result<Shared, AllocError>
    ensures { IfOk result (λ s. form_at s ≡ FCond (form_at c.now) (form_at f.now) (form_at g.now)) }
{
    let z = c.shape.clone()?;
    let x = f.shape.clone()?;
    let y = g.shape.clone()?;
    sized(
        alloc,
        Shape::Cond(z, x, y),
        node_over_three(c.size, f.size, g.size),
    )
}

/// That some individual makes the body true, as it is.
#[tactic(auto, using(crate::proofs::SizeLaws::exists_sized))]
pub fn exists(alloc: Global, v: Var, f: &Shared) -> Result<Shared, AllocError>
    ensures { IfOk result (λ s. form_at s ≡ FExists v.0 (form_at f.now)) }
{
    let g = f.shape.clone()?;
    sized(
        alloc,
        Shape::Exists(v, g),
        node_over(f.size.nodes, f.size.height),
    )
}

/// That every individual makes the body true, as it is.
#[tactic(auto, using(crate::proofs::SizeLaws::forall_sized))]
pub fn forall(alloc: Global, v: Var, f: &Shared) -> Result<Shared, AllocError>
    ensures { IfOk result (λ s. form_at s ≡ FForall v.0 (form_at f.now)) }
{
    let g = f.shape.clone()?;
    sized(
        alloc,
        Shape::Forall(v, g),
        node_over(f.size.nodes, f.size.height),
    )
}

/// The two free variables of a closure, and the two that are bound in its body.
#[derive(Clone, Copy, Debug)]
struct Ends {
    from: Var,
    to: Var,
    left: Var,
    right: Var,
}

#[tactic(auto, using(crate::proofs::SizeLaws::closure_sized))]
fn closure(alloc: Global, ends: Ends, f: &Shared) -> Result<Shared, AllocError>
    ensures { IfOk result (λ s. form_at s
        ≡ FClosure ends.from.0 ends.to.0 ends.left.0 ends.right.0 (form_at f.now)) }
{
    let Ends {
        from,
        to,
        left,
        right,
    } = ends;
    let shape = Shape::Closure {
        from,
        to,
        left,
        right,
        body: f.shape.clone()?,
    };
    sized(alloc, shape, node_over(f.size.nodes, f.size.height))
}

/// The formula with shared parts.
pub fn share(alloc: Global, f: &Formula) -> Result<Shared, AllocError>
    ensures { IfOk result (λ s. form_at s ≡ form_of f.now) }
{
    match f {
        Formula::Zero => zero(alloc),
        Formula::One => one(alloc),
        Formula::Atom(p, terms) => atom(alloc, *p, *terms),
        Formula::IsNew(v) => is_new(alloc, *v),
        Formula::Same(v, w) => same(alloc, *v, *w),
        Formula::Not(g) => not(alloc, &share(alloc, g)?),
        Formula::And(g, h) => and(alloc, &share(alloc, g)?, &share(alloc, h)?),
        Formula::Or(g, h) => or(alloc, &share(alloc, g)?, &share(alloc, h)?),
        Formula::Iff(g, h) => iff(alloc, &share(alloc, g)?, &share(alloc, h)?),
        Formula::Cond(c, g, h) => {
            let z = share(alloc, c)?;
            cond(alloc, &z, &share(alloc, g)?, &share(alloc, h)?)
        }
        Formula::Exists(v, g) => exists(alloc, *v, &share(alloc, g)?),
        Formula::Forall(v, g) => forall(alloc, *v, &share(alloc, g)?),
        Formula::Closure {
            from,
            to,
            left,
            right,
            body,
        } => {
            let ends = Ends {
                from: *from,
                to: *to,
                left: *left,
                right: *right,
            };
            closure(alloc, ends, &share(alloc, body)?)
        }
    }
}
