//! Sets of vectors that are lent, in place of copies.

ghost use Rattle.std.specs.Prelude.{◌≡◌, IfOk};

use std::alloc::{AllocError, Global};
use std::marker::Model;
use tv_focus::{Vector, VectorSet, copied};

/// A set of vectors, lent by the choices of a stage.
#[derive(Drop)]
pub struct Lent<'a> {
    vectors: &'a [Vector],
}

impl<'a> Model for Lent<'a> {
    ghost use Rattle.std.specs.Prelude.{List};
    ghost use Rattle.tv_kleene.specs.declared.K3.{K3};

    ghost Value = { List (List K3) };

    ghost view = { λ l. l.vectors.now };
}

impl<'a> Lent<'a> {
    /// The set of these vectors.
    pub fn of(vectors: &'a [Vector]) -> Lent<'a>
        ensures { result ≡ vectors.now }
    {
        Lent { vectors }
    }

    /// The vectors, in order.
    pub fn as_slice(&self) -> &[Vector]
        ensures { result.now ≡ self.now }
    {
        self.vectors
    }
}

/// Equal sets in memory of their own.
pub fn owned(alloc: Global, choice: &[Lent<'_>]) -> Result<Vec<VectorSet>, AllocError>
    ensures { IfOk result (λ sets. sets.items ≡ choice.now) }
{
    let mut sets = Vec::with_capacity(alloc, choice.len())?;
    for set in choice {
        sets.push(copied(alloc, set.as_slice())?)?;
    }
    Ok(sets)
}
