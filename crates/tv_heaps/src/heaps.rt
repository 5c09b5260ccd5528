//! All heaps of few cells that belong to a structure.

ghost use Rattle.std.specs.Prelude.{◌≡◌, ◌≤◌, IfOk, None};
ghost use Rattle.tv_heaps.specs.Heaps.{AreHeapsIn};
ghost use Rattle.tv_heaps.specs.Judging.{IsReadyBook};
ghost use Rattle.tv_model.specs.Program.{program_of};
ghost use Rattle.tv_structure_form.specs.StructureForm.{IsOver};

use crate::error::HeapsError;
use crate::listed::{Listed, Wanted, look_at_all};
use crate::rulebook::Rulebook;
use tv_eval::Scratch;
use tv_model::Items;
use tv_openings::openings;
use tv_struct::{Structure, Structures};

/// All heaps of at most `cells` individuals with which a run may begin and that embed in the structure, up to
/// copies: each structure that is given stands for one, and each such heap is a copy of one that is given.
/// The scratch is given back as it was.
///
/// # Errors
/// `TooMany` where more than `most` structures had to be looked at, `Memory` where there was none.
pub fn heaps_in(
    book: &Rulebook,
    s: &Structure,
    cells: u32,
    most: u64,
    scratch: &mut Scratch,
) -> Result<Structures, HeapsError>
    requires ready { IsReadyBook book.now scratch.old }
    requires over { IsOver book.now.program.now.vocab s.now }
    requires unmarked { s.now.fresh ≡ None }
    requires cells { cells ≤ 256 }
    ensures heaps { IfOk result (AreHeapsIn (program_of book.now.program.now) cells s.now) }
    ensures scratch { scratch.new ≡ scratch.old }
{
    let waiting = openings(book.alloc, s, cells)?;
    let found = Items::new(book.alloc);
    let mut listed = Listed { waiting, found };
    let wanted = Wanted { above: s, cells };
    look_at_all(book, &wanted, &mut listed, most, scratch)?;
    let Listed { waiting: _, found } = listed;
    Ok(found)
}
