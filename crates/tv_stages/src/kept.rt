//! The structures that go on behind a stage, in memory of their own.

ghost use Rattle.std.specs.Prelude.{◌≡◌, ◌++◌, IfOk, OnOk};
ghost use Rattle.tv_stages_laws.specs.Stages.{kept_at, kept_behind, kept_by};

use std::alloc::{AllocError, Global};
use tv_stages_laws::{Fate, FocusRow, FocusedAt};
use tv_struct::Structures;

/// Puts the structure that goes on, if one does, behind the others.
fn push_kept(alloc: Global, fate: &Fate, out: &mut Structures) -> Result<(), AllocError>
    ensures { OnOk result (out.new ≡ out.old ++ kept_by fate.now) }
{
    match fate {
        Fate::Dropped(_) => Ok(()),
        Fate::Kept(t) => out.push(t.copy(alloc)?),
    }
}

/// Puts what goes on from a structure at hand behind the others.
fn push_kept_at(alloc: Global, x: &FocusedAt, out: &mut Structures) -> Result<(), AllocError>
    ensures { OnOk result (out.new ≡ out.old ++ kept_at x.now) }
{
    for choice in x.choices.as_slice() {
        push_kept(alloc, &choice.fate, out)?;
    }
    Ok(())
}

/// What is at hand behind the turn of an atom.
pub(crate) fn kept_behind(alloc: Global, row: &FocusRow) -> Result<Structures, AllocError>
    ensures { IfOk result (λ structures. structures ≡ kept_behind row.now) }
{
    let mut out = Structures::new(alloc);
    for x in row.at_hand.as_slice() {
        push_kept_at(alloc, x, &mut out)?;
    }
    Ok(out)
}

/// What is at hand before the first turn.
pub(crate) fn kept_by(alloc: Global, fate: &Fate) -> Result<Structures, AllocError>
    ensures { IfOk result (λ structures. structures ≡ kept_by fate.now) }
{
    let mut out = Structures::new(alloc);
    push_kept(alloc, fate, &mut out)?;
    Ok(out)
}
