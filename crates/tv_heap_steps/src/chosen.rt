//! All lists of so many individuals.

ghost use Rattle.std.specs.Prelude.{◌≡◌, [], ◌∷◌, ◌++◌, IfOk, OnOk, length, map};
ghost use Rattle.std.specs.List.{flat_map, range_with_len};
ghost use Rattle.tv_concrete.specs.Tuples.{tuples_of};

use std::alloc::{AllocError, Global};
use tv_model::{Items, Var};
use tv_struct::Numbers;

/// The number, and the others behind it.
fn put_first(alloc: Global, u: u32, list: &[u32]) -> Result<Numbers, AllocError>
    ensures { IfOk result (λ all. all ≡ u ∷ list.now) }
{
    let mut all = Vec::new(alloc);
    all.push(u)?;
    all.extend_from_slice(list)?;
    Ok(Items::from_vec(all))
}

/// Pushes the list with each number below `size` in front.
fn push_each(
    alloc: Global,
    size: u32,
    list: &[u32],
    lists: &mut Vec<Numbers>,
) -> Result<(), AllocError>
    ensures { OnOk result (lists.new.items
        ≡ lists.old.items ++ map (λ u. u ∷ list.now) (range_with_len 0 size)) }
{
    for u in 0..size {
        let longer = put_first(alloc, u, list)?;
        lists.push(longer)?;
    }
    Ok(())
}

/// Each of the lists with each number below `size` in front.
fn longer(alloc: Global, size: u32, lists: &[Numbers]) -> Result<Vec<Numbers>, AllocError>
    ensures { IfOk result (λ all. all.items
        ≡ flat_map (λ list. map (λ u. u ∷ list) (range_with_len 0 size)) lists.now) }
{
    let mut all = Vec::new(alloc);
    for list in lists {
        push_each(alloc, size, list.as_slice(), &mut all)?;
    }
    Ok(all)
}

/// The list of no numbers.
fn shortest(alloc: Global) -> Result<Vec<Numbers>, AllocError>
    ensures { IfOk result (λ lists. lists.items ≡ [] ∷ []) }
{
    let mut lists = Vec::new(alloc);
    lists.push(Items::new(alloc))?;
    Ok(lists)
}

/// All lists of numbers below `size`, one for each of the variables.
pub(crate) fn all_chosen(
    alloc: Global,
    size: u32,
    picks: &[Var],
) -> Result<Vec<Numbers>, AllocError>
    ensures { IfOk result (λ lists. lists.items ≡ tuples_of (range_with_len 0 size) (length picks.now)) }
{
    match picks {
        [] => shortest(alloc),
        [_, rest @ ..] => {
            let shorter = all_chosen(alloc, size, rest)?;
            longer(alloc, size, shorter.as_slice())
        }
    }
}
