//! Formulas whose parts are counted references: a part that stands in several formulas is there once.

ghost use Rattle.std.specs.Prelude.{◌≡◌, IfOk};
ghost use Rattle.tv_model.specs.Form.{form_of};
ghost use Rattle.tv_delta_form.specs.Shapes.{shape_form};

use std::alloc::{AllocError, Global};
use std::rc::Rc;
use tv_model::{Formula, PredId, Terms, Var};

/// A formula whose parts are shared; its kinds are those of `Formula`.
#[derive(Debug, Drop)]
pub enum Shape {
    Zero,
    One,
    Atom(PredId, Terms),
    IsNew(Var),
    Same(Var, Var),
    Not(Rc<Shape>),
    And(Rc<Shape>, Rc<Shape>),
    Or(Rc<Shape>, Rc<Shape>),
    Iff(Rc<Shape>, Rc<Shape>),
    Cond(Rc<Shape>, Rc<Shape>, Rc<Shape>),
    Exists(Var, Rc<Shape>),
    Forall(Var, Rc<Shape>),
    Closure {
        from: Var,
        to: Var,
        left: Var,
        right: Var,
        body: Rc<Shape>,
    },
}

/// The formula with parts of its own.
#[cycle(unshared)]
pub fn unshared(alloc: Global, f: &Shape) -> Result<Formula, AllocError>
    ensures { IfOk result (λ g. form_of g ≡ shape_form f.now) }
{
    match f {
        Shape::Zero => Ok(Formula::Zero),
        Shape::One => Ok(Formula::One),
        Shape::Atom(p, terms) => Ok(Formula::Atom(*p, *terms)),
        Shape::IsNew(v) => Ok(Formula::IsNew(*v)),
        Shape::Same(v, w) => Ok(Formula::Same(*v, *w)),
        Shape::Not(g) => Ok(Formula::Not(part(alloc, g)?)),
        Shape::And(g, h) => Ok(Formula::And(part(alloc, g)?, part(alloc, h)?)),
        Shape::Or(g, h) => Ok(Formula::Or(part(alloc, g)?, part(alloc, h)?)),
        Shape::Iff(g, h) => Ok(Formula::Iff(part(alloc, g)?, part(alloc, h)?)),
        Shape::Cond(c, g, h) => Ok(Formula::Cond(
            part(alloc, c)?,
            part(alloc, g)?,
            part(alloc, h)?,
        )),
        Shape::Exists(v, g) => Ok(Formula::Exists(*v, part(alloc, g)?)),
        Shape::Forall(v, g) => Ok(Formula::Forall(*v, part(alloc, g)?)),
        Shape::Closure {
            from,
            to,
            left,
            right,
            body,
        } => Ok(Formula::Closure {
            from: *from,
            to: *to,
            left: *left,
            right: *right,
            body: part(alloc, body)?,
        }),
    }
}

#[cycle(unshared)]
fn part(alloc: Global, f: &Shape) -> Result<Box<Formula>, AllocError>
    ensures { IfOk result (λ b. form_of b.value ≡ shape_form f.now) }
{
    Ok(Box::new(alloc, unshared(alloc, f)?)?)
}
