//! One step of a run.

ghost use Rattle.std.specs.Prelude.{◌≡◌, ◌↔◌, None, IfOk, IfErr, IsTrue, map};
ghost use Rattle.tv_eval.specs.AssignmentForm.{assignment_of};
ghost use Rattle.tv_eval.specs.ScratchForm.{IsMadeFor};
ghost use Rattle.tv_model.specs.Program.{action_of, program_of};
ghost use Rattle.tv_replay_laws.specs.Stuck.{HasRoom};
ghost use Rattle.tv_model.specs.Valid.{IsValid};
ghost use Rattle.tv_structure_form.specs.StructureForm.{IsOver};
ghost use Rattle.tv_trace.specs.Meaning.{IsMoveOn};
ghost use Rattle.tv_two_valued.specs.TwoValued.{IsTwoValued};
ghost use Rattle.tv_update.specs.Redefined.{AreAllDefined};
ghost use Rattle.tv_replay_step.specs.Stepped.{Halts, IsMoved};
ghost use Rattle.tv_replay_step.specs.Turns.{Acts, CanTurn, IsPickedFor, IsReadyFor, StaysFor, TurnFails};
ghost use Rattle.tv_replay_step.specs.Turns.{Turns, action_in};

use crate::enabled::is_enabled;
use crate::finished::finished;
use crate::free::gives_all;
use crate::moved::{Halt, Moved};
use crate::picks::put_picked;
use crate::updated::updated;
use std::alloc::Global;
use tv_eval::{Assignment, Scratch};
use tv_model::{Action, Edge, Program};
use tv_replay_judge::first_differing;
use tv_replay_laws::Why;
use tv_struct::{Structure, Table};
use tv_trace::Move;
use tv_update::Order;

/// The most individuals of a heap.
const MAX_INDIVIDUALS: u32 = 256;

/// A program, an order of its definitions, and where memory comes from.
#[derive(Clone, Copy)]
pub struct Ordered<'a> {
    pub alloc: Global,
    pub program: &'a Program,
    pub order: &'a Order,
}

/// An edge of a program and its action, an order of the program's definitions, and where memory comes from.
#[derive(Clone, Copy)]
pub struct EdgeAction<'a> {
    pub alloc: Global,
    pub program: &'a Program,
    pub order: &'a Order,
    pub edge: &'a Edge,
    pub action: &'a Action,
}

/// Where the action leads from the heap `s`, under individuals for its picked variables by which its
/// precondition is true; `Values` where it leaves a predicate free for which there are no values.
fn act(
    turn: &EdgeAction<'_>,
    s: &Structure,
    picks: &Assignment,
    step: &Move,
    scratch: &mut Scratch,
) -> Result<Moved, Halt>
    requires can { CanTurn turn.now s.now picks.now step.now scratch.old }
    ensures acts { IfOk result (Acts turn.now s.now picks.now step.now) }
    ensures halt { IfErr result
        (StaysFor (action_in turn.now) (assignment_of picks.now) s.now step.now.values) }
    ensures scratch { scratch.new ≡ scratch.old }
{
    let action = turn.action;
    let updates = action.updates.as_slice();
    let given = updated(turn, s, picks, scratch)?;
    if !gives_all(step, updates, given.size()) {
        return Err(Halt::Stuck(Why::Values));
    }
    let heap = finished(turn, updates, step, &given, scratch)?;
    let broken = first_differing(turn.program, action, &given, &heap);
    let node = turn.edge.to;
    Ok(Moved { node, heap, broken })
}

/// Whether the action adds no individual, or one to fewer than 256.
fn has_room(action: &Action, s: &Structure) -> bool
    ensures { IsTrue result ↔ HasRoom (action_of action.now) s.now }
{
    if action.fresh {
        s.size() < MAX_INDIVIDUALS
    } else {
        true
    }
}

/// Where the edge leads from the heap `s`, under these individuals for its picked variables.
fn turn_picked(
    turn: &EdgeAction<'_>,
    s: &Structure,
    picks: &Assignment,
    step: &Move,
    scratch: &mut Scratch,
) -> Result<Moved, Halt>
    requires ready { IsReadyFor turn.now s.now step.now scratch.old }
    requires picked { IsPickedFor turn.now s.now step.now picks.now }
    ensures moved { IfOk result (Turns turn.now s.now step.now) }
    ensures halt { IfErr result (TurnFails turn.now s.now step.now) }
    ensures scratch { scratch.new ≡ scratch.old }
{
    if !is_enabled(turn.action, s, picks, scratch) {
        return Err(Halt::Stuck(Why::Precondition));
    }
    if !has_room(turn.action, s) {
        return Err(Halt::Stuck(Why::Individuals));
    }
    act(turn, s, picks, step, scratch)
}

/// Where the edge leads from the heap `s`, by the picks and values of the step.
fn make_turn(
    turn: &EdgeAction<'_>,
    s: &Structure,
    step: &Move,
    scratch: &mut Scratch,
) -> Result<Moved, Halt>
    requires ready { IsReadyFor turn.now s.now step.now scratch.old }
    ensures moved { IfOk result (Turns turn.now s.now step.now) }
    ensures halt { IfErr result (TurnFails turn.now s.now step.now) }
    ensures scratch { scratch.new ≡ scratch.old }
{
    let vars = turn.action.picks.as_slice();
    let chosen = step.picks.as_slice();
    match put_picked(Assignment::new(), vars, chosen, s.size()) {
        Some(picks) => turn_picked(turn, s, &picks, step, scratch),
        None => Err(Halt::Stuck(Why::Picks)),
    }
}

/// The heap to which the step leads from the heap `s` at the node: along its edge, under its picks and with
/// its values. The definitions are evaluated anew in an order of the program's that was found before. The
/// scratch is given back as it was.
///
/// # Errors
/// `Stuck` exactly where the step can't be made, with the first reason that holds; `Memory` where there was
/// none for the new heap.
pub fn next(
    ordered: &Ordered<'_>,
    node: u32,
    s: &Structure,
    step: &Move,
    scratch: &mut Scratch,
) -> Result<Moved, Halt>
    requires valid { IsValid (program_of ordered.now.program.now) }
    requires order { AreAllDefined (program_of ordered.now.program.now)
        (map (λ p. p.0) ordered.now.order.now) }
    requires over { IsOver ordered.now.program.now.vocab s.now }
    requires unmarked { s.now.fresh ≡ None }
    requires two_valued { IsTwoValued s.now }
    requires step { IsMoveOn ordered.now.program.now ordered.now.program.now.vocab step.now }
    requires scratch { IsMadeFor (program_of ordered.now.program.now) 256 scratch.old }
    ensures moved { IfOk result
        (IsMoved (program_of ordered.now.program.now) step.now (record { node = node; heap = s.now })) }
    ensures halt { IfErr result
        (Halts (program_of ordered.now.program.now) step.now (record { node = node; heap = s.now })) }
    ensures scratch { scratch.new ≡ scratch.old }
{
    let _ = s.size();
    let edge = &ordered.program.edges.as_slice()[step.edge as usize];
    if edge.from != node {
        return Err(Halt::Stuck(Why::Edge));
    }
    let action = &ordered.program.actions.as_slice()[edge.action as usize];
    let turn = EdgeAction {
        alloc: ordered.alloc,
        program: ordered.program,
        order: ordered.order,
        edge,
        action,
    };
    make_turn(&turn, s, step, scratch)
}
