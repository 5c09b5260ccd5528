//! Heaps that are listed by splitting unknown values one at a time, with coerce in between.

ghost use Rattle.std.specs.Prelude.{◌≡◌, ◌++◌, ◌∷◌, [], IfOk, OnOk};
ghost use Rattle.tv_openings.specs.Gaps.{IsGap};
ghost use Rattle.tv_heaps.specs.Judging.{IsReadyBook};
ghost use Rattle.tv_heaps.specs.Listed.{HasSplit, HasLookedAtAll, NarrowsTo, IsUnderWay, IsWaitingFor};
ghost use Rattle.tv_heaps.specs.Listed.{wish_of};
ghost use Rattle.tv_kleene.specs.declared.K3.TheVariants.{No, Yes};
ghost use Rattle.tv_struct.specs.TupleForm.{tuple_of};
ghost use Rattle.tv_structure_form.specs.StructureForm.{IsOver, with_value};

use crate::error::HeapsError;
use crate::judged::is_start_in;
use crate::rulebook::Rulebook;
use std::alloc::{AllocError, Global};
use tv_coerce::{closed_rules_can_be_tried, coerce};
use tv_eval::Scratch;
use tv_kleene::K3;
use tv_openings::{Gap, first_gap};
use tv_struct::{Structure, Structures, Table};

/// A structure, and how many individuals the heaps may have that are wanted of it.
#[derive(Clone, Copy)]
pub(crate) struct Wanted<'a> {
    pub above: &'a Structure,
    pub cells: u32,
}

/// What was found so far, and the structures without summaries that are still to be split.
#[derive(Drop)]
pub(crate) struct Listed {
    pub waiting: Vec<Structure>,
    pub found: Structures,
}

/// Puts behind what waits the structure with each of the values of the entry.
fn push_both(
    alloc: Global,
    t: &Structure,
    gap: Gap,
    waiting: &mut Vec<Structure>,
) -> Result<(), AllocError>
    requires { IsGap t.now gap }
    ensures { OnOk result (waiting.new.items ≡ waiting.old.items
        ++ with_value t.now gap.pred.0 (tuple_of gap.tuple) Yes
        ∷ with_value t.now gap.pred.0 (tuple_of gap.tuple) No ∷ []) }
{
    let mut one = t.copy(alloc)?;
    one.set(gap.pred, gap.tuple, K3::Yes);
    waiting.push(one)?;
    let mut none = t.copy(alloc)?;
    none.set(gap.pred, gap.tuple, K3::No);
    waiting.push(none)?;
    Ok(())
}

/// The greatest structure below `w` that is stable, if there is one.
fn narrowed(
    book: &Rulebook,
    wanted: &Wanted,
    w: &Structure,
    scratch: &mut Scratch,
) -> Result<Option<Structure>, AllocError>
    requires ready { IsReadyBook book.now scratch.old }
    requires waiting { IsWaitingFor (wish_of book.now wanted.now) w.now }
    ensures narrowed { IfOk result (NarrowsTo (wish_of book.now wanted.now) w.now) }
    ensures scratch { scratch.new ≡ scratch.old }
{
    closed_rules_can_be_tried();
    let _ = w.size();
    let found = coerce(book.alloc, book.closed, w, scratch)?;
    Ok(found)
}

/// Puts the structure with each value of its first unknown entry to those that wait; or the structure to what
/// was found where no value is unknown, and it stands for a heap that is wanted.
fn sort_in(
    book: &Rulebook,
    wanted: &Wanted,
    t: Structure,
    listed: &mut Listed,
    scratch: &mut Scratch,
) -> Result<(), AllocError>
    requires ready { IsReadyBook book.now scratch.old }
    requires above { IsOver book.now.program.now.vocab wanted.now.above.now }
    requires waiting { IsWaitingFor (wish_of book.now wanted.now) t }
    requires under_way { IsUnderWay (wish_of book.now wanted.now) listed.old }
    ensures split { OnOk result (HasSplit (wish_of book.now wanted.now) t listed.old listed.new) }
    ensures scratch { scratch.new ≡ scratch.old }
{
    if let Some(gap) = first_gap(&t) {
        push_both(book.alloc, &t, gap, &mut listed.waiting)?;
        return Ok(());
    }
    if !is_start_in(book, wanted.above, &t, scratch)? {
        return Ok(());
    }
    listed.found.push(t)?;
    Ok(())
}

/// Narrows the structure and sorts in what is left of it.
fn look_at(
    book: &Rulebook,
    wanted: &Wanted,
    w: &Structure,
    listed: &mut Listed,
    scratch: &mut Scratch,
) -> Result<(), AllocError>
    requires ready { IsReadyBook book.now scratch.old }
    requires above { IsOver book.now.program.now.vocab wanted.now.above.now }
    requires waiting { IsWaitingFor (wish_of book.now wanted.now) w.now }
    requires under_way { IsUnderWay (wish_of book.now wanted.now) listed.old }
    ensures split { OnOk result (HasSplit (wish_of book.now wanted.now) w.now listed.old listed.new) }
    ensures scratch { scratch.new ≡ scratch.old }
{
    match narrowed(book, wanted, w, scratch)? {
        None => Ok(()),
        Some(t) => {
            sort_in(book, wanted, t, listed, scratch)?;
            Ok(())
        }
    }
}

/// Looks at all that waits, and at what that makes, while it is no more than `most` structures.
pub(crate) fn look_at_all(
    book: &Rulebook,
    wanted: &Wanted,
    listed: &mut Listed,
    most: u64,
    scratch: &mut Scratch,
) -> Result<(), HeapsError>
    requires ready { IsReadyBook book.now scratch.old }
    requires above { IsOver book.now.program.now.vocab wanted.now.above.now }
    requires under_way { IsUnderWay (wish_of book.now wanted.now) listed.old }
    ensures done { OnOk result (HasLookedAtAll (wish_of book.now wanted.now) listed.old listed.new) }
    ensures scratch { scratch.new ≡ scratch.old }
{
    for _ in 0..most {
        let Some(w) = listed.waiting.pop() else {
            return Ok(());
        };
        look_at(book, wanted, &w, listed, scratch)?;
    }
    if !listed.waiting.is_empty() {
        return Err(HeapsError::TooMany);
    }
    Ok(())
}
