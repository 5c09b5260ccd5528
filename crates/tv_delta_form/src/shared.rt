//! A formula whose parts are shared, beside its size.

ghost use Rattle.std.specs.Prelude.{◌≡◌, IfOk};
ghost use Rattle.tv_delta_form.specs.Shapes.{shape_form};
ghost use Rattle.tv_delta_form.specs.Sizes.{size_of};

use crate::shape::Shape;
use crate::size::Size;
use std::alloc::{AllocError, Global};
use std::rc::Rc;

/// A formula whose parts are shared, and its size.
#[derive(Debug, Drop)]
pub struct Shared {
    pub(crate) shape: Rc<Shape>,
    pub(crate) size: Size,
    ghost sized: { size ≡ size_of (shape_form shape.value) },
}

/// The formula with this shape and size.
pub fn sized(alloc: Global, shape: Shape, size: Size) -> Result<Shared, AllocError>
    requires { size ≡ size_of (shape_form shape) }
    ensures { IfOk result (λ s. shape_form s.shape.value ≡ shape_form shape) }
{
    Ok(Shared {
        shape: Rc::new(alloc, shape)?,
        size,
    })
}
