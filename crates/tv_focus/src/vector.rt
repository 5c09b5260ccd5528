//! Small lists of truth values.

ghost use Rattle.std.specs.Prelude.{◌≡◌, ◌∷◌, ◌++◌, [], length, IfOk, OnOk, slice_index_or};
ghost use Rattle.tv_kleene.specs.declared.K3.TheVariants.{No};

use std::alloc::{AllocError, Global};
use std::marker::Model;
use tv_kleene::K3;

/// The values of a copy of an individual at the tuples that are aimed at.
#[derive(Debug, Drop)]
pub struct Vector {
    values: Vec<K3>,
}

impl Model for Vector {
    ghost use Rattle.std.specs.Prelude.{List};
    ghost use Rattle.tv_kleene.specs.declared.K3.{K3};

    ghost Value = { List K3 };

    ghost view = { λ v. v.values.items };
}

impl Vector {
    /// The vector of no values.
    pub(crate) fn empty(alloc: Global) -> Vector
        ensures { result ≡ [] }
    {
        Vector {
            values: Vec::new(alloc),
        }
    }

    /// The vector of these values.
    pub(crate) fn of(values: Vec<K3>) -> Vector
        ensures { result ≡ values.items }
    {
        Vector { values }
    }

    /// The vector of copies of these values.
    pub(crate) fn copied(alloc: Global, values: &[K3]) -> Result<Vector, AllocError>
        ensures { IfOk result (λ v. v ≡ values.now) }
    {
        Ok(Vector {
            values: Vec::from_slice(alloc, values)?,
        })
    }

    /// The vector that begins with `first` and goes on with these values.
    pub(crate) fn prefixed(alloc: Global, first: K3, rest: &[K3]) -> Result<Vector, AllocError>
        ensures { IfOk result (λ v. v ≡ first ∷ rest.now) }
    {
        let mut values = Vec::with_capacity(alloc, rest.len() + 1)?;
        values.push(first)?;
        values.extend_from_slice(rest)?;
        Ok(Vector { values })
    }

    /// The values in order.
    pub fn as_slice(&self) -> &[K3]
        ensures { result.now ≡ self.now }
    {
        self.values.as_slice()
    }

    /// The first value, `No` where there is none.
    pub fn first(&self) -> K3
        ensures { result ≡ slice_index_or self.now 0 No }
    {
        match self.as_slice() {
            [] => K3::No,
            [k, ..] => *k,
        }
    }
}
