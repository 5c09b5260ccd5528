//! Structures without summaries below which all small heaps of a structure lie.

ghost use Rattle.std.specs.Prelude.{◌≡◌, ◌≤◌, IfOk, None};
ghost use Rattle.tv_openings.specs.Openings.{AreAllOpenings, CanOpen, IsCleared};
ghost use Rattle.tv_openings.specs.Parts.{AreAllParts, HavePlace};
ghost use Rattle.tv_structure_form.specs.StructureForm.{split};

use crate::parts::{Parts, all_parts};
use std::alloc::{AllocError, Global};
use tv_struct::Structure;

/// The structure with each summary as an ordinary individual.
fn cleared(mut t: Structure) -> Structure
    ensures { IsCleared t result }
{
    for u in 0..t.size() {
        t.set_summary(u, false);
    }
    t
}

/// The structure with so many copies of its individuals, none of them a summary.
fn opening(alloc: Global, s: &Structure, parts: &Parts, cells: u32) -> Result<Structure, AllocError>
    requires can { CanOpen s.now cells }
    requires parts { HavePlace s.now cells 0 parts.now }
    ensures { IfOk result (IsCleared (split s.now parts.now)) }
{
    let _ = s.size();
    let t = s.split(alloc, parts.as_slice())?;
    Ok(cleared(t))
}

/// The opening for each of the lists.
fn open_each(
    alloc: Global,
    s: &Structure,
    lists: &[Parts],
    cells: u32,
) -> Result<Vec<Structure>, AllocError>
    requires can { CanOpen s.now cells }
    requires parts { AreAllParts s.now cells 0 lists.now }
    ensures { IfOk result (λ all. AreAllOpenings s.now cells all.items) }
{
    let _ = s.size();
    let mut all = Vec::new(alloc);
    for parts in lists {
        let t = opening(alloc, s, parts, cells)?;
        all.push(t)?;
    }
    Ok(all)
}

/// The openings of the structure: it with all numbers of copies of its individuals that are at most `cells`
/// together, without summaries. Each heap of so few individuals that embeds in the structure embeds in one of
/// them.
pub fn openings(alloc: Global, s: &Structure, cells: u32) -> Result<Vec<Structure>, AllocError>
    requires unmarked { s.now.fresh ≡ None }
    requires cells { cells ≤ 256 }
    ensures { IfOk result (λ all. AreAllOpenings s.now cells all.items) }
{
    let lists = all_parts(alloc, s, cells)?;
    open_each(alloc, s, lists.as_slice(), cells)
}
