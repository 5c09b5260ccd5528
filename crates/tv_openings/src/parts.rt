//! In how many copies the individuals of a structure may stand.

ghost use Rattle.std.specs.Prelude.{◌≡◌, ◌<◌, ◌≤◌, ◌+◌, ◌-◌, ◌∷◌, ◌++◌, IfOk, OnOk, map, sum};
ghost use Rattle.std.specs.Prelude.{if◌then◌else◌};
ghost use Rattle.std.specs.List.{range_with_len};
ghost use Rattle.tv_openings.specs.Parts.{AreAllParts, HasPlaceFor, HavePlace};
ghost use Rattle.tv_structure_form.specs.StructureForm.{summary_at};

use std::alloc::{AllocError, Global};
use tv_model::Items;
use tv_struct::Structure;

/// Numbers of copies, individual by individual.
pub(crate) type Parts = Items<u32>;

/// The number, and the others behind it.
fn put_first(alloc: Global, part: u32, parts: &[u32]) -> Result<Parts, AllocError>
    ensures { IfOk result (λ all. all ≡ part ∷ parts.now) }
{
    let mut all = Vec::new(alloc);
    all.push(part)?;
    all.extend_from_slice(parts)?;
    Ok(Items::from_vec(all))
}

/// Pushes for each number of copies from 1 to `most` the list that has it in front.
fn push_each(
    alloc: Global,
    most: u32,
    parts: &[u32],
    lists: &mut Vec<Parts>,
) -> Result<(), AllocError>
    requires { most ≤ 256 }
    ensures { OnOk result (lists.new.items
        ≡ lists.old.items ++ map (λ n. (n + 1) ∷ parts.now) (range_with_len 0 most)) }
{
    for n in 0..most {
        let list = put_first(alloc, n + 1, parts)?;
        lists.push(list)?;
    }
    Ok(())
}

/// How many copies of the individual `u` there may be at most, before so many of those behind it.
fn most_copies(s: &Structure, u: u32, cells: u32, parts: &[u32]) -> u32
    requires can { HasPlaceFor s.now u cells }
    requires place { sum parts.now + u < cells }
    ensures { result ≡ (if summary_at s.now u then cells - (sum parts.now + u) else 1) }
{
    if s.summary(u) {
        let taken: u32 = parts.iter().sum();
        cells - (taken + u)
    } else {
        1
    }
}

/// Each list with each number of copies of the individual `u` in front.
fn longer(
    alloc: Global,
    s: &Structure,
    u: u32,
    cells: u32,
    lists: &[Parts],
) -> Result<Vec<Parts>, AllocError>
    requires can { HasPlaceFor s.now u cells }
    requires all { AreAllParts s.now cells (u + 1) lists.now }
    ensures { IfOk result (λ longer. AreAllParts s.now cells u longer.items) }
{
    let mut longer = Vec::new(alloc);
    for parts in lists {
        let most = most_copies(s, u, cells, parts.as_slice());
        push_each(alloc, most, parts.as_slice(), &mut longer)?;
    }
    Ok(longer)
}

/// The list of no numbers, if each individual has place for one copy.
fn shortest(alloc: Global, s: &Structure, cells: u32) -> Result<Vec<Parts>, AllocError>
    ensures { IfOk result (λ lists. AreAllParts s.now cells s.now.size lists.items) }
{
    let mut lists = Vec::new(alloc);
    if s.size() > cells {
        return Ok(lists);
    }
    lists.push(Items::new(alloc))?;
    Ok(lists)
}

/// All numbers of copies of the individuals that are so many together at most.
pub(crate) fn all_parts(alloc: Global, s: &Structure, cells: u32) -> Result<Vec<Parts>, AllocError>
    requires { cells ≤ 256 }
    ensures { IfOk result (λ lists. AreAllParts s.now cells 0 lists.items) }
{
    let mut lists = shortest(alloc, s, cells)?;
    let mut left = s.size();
    while left > 0 {
        left -= 1;
        lists = longer(alloc, s, left, cells, lists.as_slice())?;
    }
    Ok(lists)
}
