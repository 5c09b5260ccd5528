//! All tuples of individuals, and values with a tuple put for variables.

ghost use Rattle.std.specs.Prelude.{◌≡◌, ◌∷◌, ◌++◌, IfOk, OnOk, map};
ghost use Rattle.std.specs.List.{flat_map};
ghost use Rattle.tv_model.specs.Form.{vars_of};
ghost use Rattle.tv_model.specs.Truth.{put_all};
ghost use Rattle.tv_concrete.specs.Lists.{assignment_of};
ghost use Rattle.tv_concrete.specs.Tuples.{tuples_of};

use crate::{Tuple, Values};
use std::alloc::{AllocError, Global};
use tv_model::{Items, Terms};

/// All lists of `n` of the individuals.
pub(crate) fn tuples(alloc: Global, individuals: &[u32], n: u8) -> Result<Items<Tuple>, AllocError>
    ensures { IfOk result (λ all. all ≡ tuples_of individuals.now n) }
{
    if n == 0 {
        let mut all = Items::new(alloc);
        all.push(Items::new(alloc))?;
        return Ok(all);
    }
    let shorter = tuples(alloc, individuals, n - 1)?;
    longer(alloc, individuals, shorter.as_slice())
}

/// Each of the tuples with each of the individuals put in front.
fn longer(alloc: Global, individuals: &[u32], shorter: &[Tuple]) -> Result<Items<Tuple>, AllocError>
    ensures { IfOk result
        (λ all. all ≡ flat_map (λ tuple. map (λ u. u ∷ tuple) individuals.now) shorter.now) }
{
    let mut all = Items::new(alloc);
    for tuple in shorter {
        put_in_front(alloc, individuals, tuple, &mut all)?;
    }
    Ok(all)
}

fn put_in_front(
    alloc: Global,
    individuals: &[u32],
    tuple: &Tuple,
    all: &mut Items<Tuple>,
) -> Result<(), AllocError>
    ensures { OnOk result (all.new ≡ all.old ++ map (λ u. u ∷ tuple.now) individuals.now) }
{
    for u in individuals {
        all.push(cons(alloc, *u, tuple)?)?;
    }
    Ok(())
}

fn cons(alloc: Global, u: u32, tuple: &Tuple) -> Result<Tuple, AllocError>
    ensures { IfOk result (λ all. all ≡ u ∷ tuple.now) }
{
    let mut items = Vec::new(alloc);
    items.push(u)?;
    items.extend_from_slice(tuple.as_slice())?;
    Ok(Items::from_vec(items))
}

/// The values with the tuple put for the variables, one after the other.
pub fn put_tuple(values: Values, vars: &Terms, tuple: &[u32]) -> Values
    ensures { assignment_of result ≡ put_all (assignment_of values) (vars_of vars.now) tuple.now }
{
    match (vars, tuple) {
        (Terms::One(v), [u, ..]) => values.with(*v, *u),
        (Terms::Two(v, _), [u]) => values.with(*v, *u),
        (Terms::Two(v, w), [u, x, ..]) => values.with(*v, *u).with(*w, *x),
        _ => values,
    }
}
