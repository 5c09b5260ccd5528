//! Which heaps are wanted.

ghost use Rattle.std.specs.Prelude.{◌≡◌, ◌↔◌, IfOk, IsTrue, None};
ghost use Rattle.tv_embedding_laws.specs.Embedding.{IsHeapOf};
ghost use Rattle.tv_heaps.specs.Judging.{IsReadyBook};
ghost use Rattle.tv_model.specs.Program.{program_of};
ghost use Rattle.tv_model.specs.Run.{IsStart};
ghost use Rattle.tv_structure_form.specs.StructureForm.{IsOver, arities_of, structure_of};
ghost use Rattle.tv_two_valued.specs.TwoValued.{IsTwoValued, heap_of};

use crate::rulebook::Rulebook;
use std::alloc::{AllocError, Global};
use tv_embed::find;
use tv_eval::Scratch;
use tv_replay_judge::{first_unlike, first_unmet};
use tv_struct::Structure;

/// Whether a run may begin with the heap that `t` stands for.
fn is_start(book: &Rulebook, t: &Structure, scratch: &mut Scratch) -> Result<bool, AllocError>
    requires ready { IsReadyBook book.now scratch.old }
    requires over { IsOver book.now.program.now.vocab t.now }
    requires unmarked { t.now.fresh ≡ None }
    requires two_valued { IsTwoValued t.now }
    ensures start { IfOk result
        (λ is. IsTrue is ↔ IsStart (program_of book.now.program.now) (heap_of t.now)) }
    ensures scratch { scratch.new ≡ scratch.old }
{
    let _ = t.size();
    if first_unlike(book.program, t, scratch).is_some() {
        return Ok(false);
    }
    let unmet = first_unmet(book.alloc, book.program, book.properties, t, scratch)?;
    Ok(unmet.is_none())
}

/// Whether the heap that `t` stands for embeds in `s`. The only error is lack of memory.
pub fn lies_in(alloc: Global, t: &Structure, s: &Structure) -> Result<bool, AllocError>
    requires two_valued { IsTwoValued t.now }
    requires over { arities_of t.now ≡ arities_of s.now }
    ensures { IfOk result (λ lies. IsTrue lies ↔ IsHeapOf (heap_of t.now) (structure_of s.now)) }
{
    let _ = t.size();
    let map = find(alloc, t, s)?;
    Ok(map.is_some())
}

/// Whether a run may begin with the heap that `t` stands for, and it embeds in `s`.
pub(crate) fn is_start_in(
    book: &Rulebook,
    s: &Structure,
    t: &Structure,
    scratch: &mut Scratch,
) -> Result<bool, AllocError>
    requires ready { IsReadyBook book.now scratch.old }
    requires over { IsOver book.now.program.now.vocab t.now }
    requires above { IsOver book.now.program.now.vocab s.now }
    requires unmarked { t.now.fresh ≡ None }
    requires two_valued { IsTwoValued t.now }
    ensures start { IfOk result (λ is. IsTrue is
        ↔ (IsStart (program_of book.now.program.now) (heap_of t.now)
        × IsHeapOf (heap_of t.now) (structure_of s.now))) }
    ensures scratch { scratch.new ≡ scratch.old }
{
    if !is_start(book, t, scratch)? {
        return Ok(false);
    }
    let lies = lies_in(book.alloc, t, s)?;
    Ok(lies)
}
