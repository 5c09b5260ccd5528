//! The new heap of a step.

ghost use Rattle.std.specs.Prelude.{◌≡◌, map, IfOk, IfSome};
ghost use Rattle.std.specs.List.{AllByRecursion};
ghost use Rattle.tv_eval.specs.ScratchForm.{IsMadeFor};
ghost use Rattle.tv_model.specs.Program.{update_of};
ghost use Rattle.tv_model.specs.Valid.{IsValid};
ghost use Rattle.tv_structure_form.specs.StructureForm.{IsOver};
ghost use Rattle.tv_update.specs.Redefined.{AreAllDefined};
ghost use Rattle.tv_replay_step.specs.Free.{CanCopy, IsFinished, IsFree};
ghost use Rattle.tv_replay_step.specs.Turns.{program_in};

use crate::free::put_free;
use crate::step::EdgeAction;
use std::alloc::AllocError;
use tv_eval::Scratch;
use tv_model::Update;
use tv_struct::Structure;
use tv_trace::Move;
use tv_update::redefine;

/// The given structure with the values for what the updates leave free, and with each definition evaluated.
pub fn finished(
    turn: &EdgeAction<'_>,
    updates: &[Update],
    step: &Move,
    given: &Structure,
    scratch: &mut Scratch,
) -> Result<Structure, AllocError>
    requires valid { IsValid (program_in turn.now) }
    requires order { AreAllDefined (program_in turn.now) (map (λ p. p.0) turn.now.order.now) }
    requires over { IsOver turn.now.program.now.vocab given.now }
    requires values { IfSome step.now.values (λ s. AllByRecursion (λ w.
        IsFree (update_of w) → CanCopy s given.now w.pred.0) updates.now) }
    requires scratch { IsMadeFor (program_in turn.now) 256 scratch.old }
    ensures finished { IfOk result
        (IsFinished (program_in turn.now) (map update_of updates.now) step.now.values given.now) }
    ensures scratch { scratch.new ≡ scratch.old }
{
    let mut heap = given.copy(turn.alloc)?;
    if let Some(values) = &step.values {
        put_free(values, updates, &mut heap);
    }
    redefine(turn.alloc, turn.program, turn.order, &mut heap, scratch)?;
    Ok(heap)
}
