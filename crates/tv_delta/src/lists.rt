//! Copies of lists of plain values and of names.

ghost use Rattle.std.specs.Prelude.{◌≡◌, IfOk};

use std::alloc::{AllocError, Global};
use tv_model::{Edges, Names, Vars, copy_bytes};

/// A copy of the variables.
pub fn copy_vars(alloc: Global, vars: &Vars) -> Result<Vars, AllocError>
    ensures { IfOk result (λ x. x ≡ vars.now) }
{
    Ok(Vars::from_vec(Vec::from_slice(alloc, vars.as_slice())?))
}

/// A copy of the edges.
pub fn copy_edges(alloc: Global, edges: &Edges) -> Result<Edges, AllocError>
    ensures { IfOk result (λ x. x ≡ edges.now) }
{
    Ok(Edges::from_vec(Vec::from_slice(alloc, edges.as_slice())?))
}

/// A copy of the names.
#[tactic(auto, using(crate::proofs::Copies::same_more))]
pub fn copy_names(alloc: Global, names: &Names) -> Result<Names, AllocError>
    ensures { IfOk result (λ x. x ≡ names.now) }
{
    let names = names.as_slice();
    let mut out = Vec::with_capacity(alloc, names.len())?;
    for name in names {
        out.push(copy_bytes(alloc, name)?)?;
    }
    Ok(Names::from_vec(out))
}
