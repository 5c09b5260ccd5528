//! Which steps are fair, and lead to heaps of few cells.

ghost use Rattle.std.specs.Prelude.{◌≡◌, ◌↔◌, IfOk, IsTrue};
ghost use Rattle.tv_heap_steps.specs.Steps.{IsAcceptedMove, IsReadyToWalk, IsUnbrokenBy, program_in};
ghost use Rattle.tv_replay_judge.specs.Ready.{IsReadyToEvaluate};

use crate::walker::Walker;
use std::alloc::AllocError;
use tv_eval::Scratch;
use tv_model::{Mode, PredId};
use tv_replay_judge::first_unmet;
use tv_replay_step::Moved;

/// Whether nothing is broken that counts in the mode.
fn is_unbroken(mode: Mode, broken: Option<PredId>) -> bool
    ensures { IsTrue result ↔ IsUnbrokenBy mode broken }
{
    match mode {
        Mode::Given => broken.is_none(),
        Mode::Recompute => true,
    }
}

/// Whether the heap to which the step leads has few cells and meets the rules, and no given update is broken
/// where the mode asks for them. The scratch is given back as it was.
pub(crate) fn is_accepted(
    walker: &Walker<'_>,
    moved: &Moved,
    scratch: &mut Scratch,
) -> Result<bool, AllocError>
    requires ready { IsReadyToWalk walker.now scratch.old }
    requires heap { IsReadyToEvaluate (program_in walker.now) moved.now.heap scratch.old }
    ensures accepted { IfOk result (λ yes. IsTrue yes
        ↔ IsAcceptedMove (program_in walker.now) walker.now.mode walker.now.cells moved.now) }
    ensures scratch { scratch.new ≡ scratch.old }
{
    if moved.heap.size() > walker.cells {
        return Ok(false);
    }
    if !is_unbroken(walker.mode, moved.broken) {
        return Ok(false);
    }
    let ordered = &walker.ordered;
    let unmet = first_unmet(
        ordered.alloc,
        ordered.program,
        walker.properties,
        &moved.heap,
        scratch,
    )?;
    Ok(unmet.is_none())
}
