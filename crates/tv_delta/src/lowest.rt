//! The definitions that a formula rests on, worked out from the lowest on: a stack of this module's own holds
//! those that wait, so that no call goes through one definition after the other.

ghost use Rattle.std.specs.Prelude.{◌≡◌, ◌+◌, ◌≤◌, ◌<◌, ◌++◌, ◌∷◌, [], length, All, IfOk, IfSome, OnOk};
ghost use Rattle.tv_model.specs.Form.{form_of};
ghost use Rattle.tv_model.specs.Program.{program_of};
ghost use Rattle.tv_model.specs.Valid.{IsValid};
ghost use Rattle.tv_delta_laws.specs.Simple.{nodes};
ghost use Rattle.tv_delta.specs.Opening.{AreKnownAt};
ghost use Rattle.tv_delta.specs.Lowest.{IsWaiting, IsSight, power, weight};

use crate::atoms::{Start, atom_end, atom_start};
use crate::flags::{is_flagged, pred_count};
use crate::memo::Memo;
use crate::opening::{Opening, delta_of};
use std::alloc::{AllocError, Global};
use tv_delta_form::Stop;
use tv_model::{Formula, PredId, Terms};

/// An atom.
#[derive(Clone, Copy, Debug)]
pub struct Asked {
    pub pred: PredId,
    pub args: Terms,
}

/// An atom whose definition is opened, and the atoms of affected predicates in it that weren't looked at; the
/// last of these comes next.
#[derive(Debug, Drop)]
pub struct Waiting {
    pub atom: Asked,
    /// How many more definitions may be opened inside this one.
    pub room: usize,
    pub opened: Formula,
    pub left: Vec<Asked>,
}

/// What is seen of an atom: whether it has a delta, or its definition.
#[derive(Debug, Drop)]
pub enum Sight {
    Known(bool),
    Opened(Waiting),
}

/// Puts the atoms of affected predicates that don't stand under a closure behind `out`, the last one first.
fn push_atoms(o: &Opening<'_>, f: &Formula, out: &mut Vec<Asked>) -> Result<(), AllocError>
    ensures { OnOk result (length out.new.items ≤ length out.old.items + nodes (form_of f.now)) }
{
    match f {
        Formula::Zero
        | Formula::One
        | Formula::IsNew(_)
        | Formula::Same(_, _)
        | Formula::Closure { .. } => Ok(()),
        Formula::Atom(pred, args) => {
            if is_flagged(o.affected, *pred) {
                out.push(Asked {
                    pred: *pred,
                    args: *args,
                })?;
            }
            Ok(())
        }
        Formula::Not(g) | Formula::Exists(_, g) | Formula::Forall(_, g) => push_atoms(o, g, out),
        Formula::And(g, h) | Formula::Or(g, h) | Formula::Iff(g, h) => {
            push_atoms(o, h, out)?;
            push_atoms(o, g, out)
        }
        Formula::Cond(c, g, h) => {
            push_atoms(o, h, out)?;
            push_atoms(o, g, out)?;
            push_atoms(o, c, out)
        }
    }
}

/// The atoms of affected predicates, the last one first.
fn atoms_of(alloc: Global, o: &Opening<'_>, f: &Formula) -> Result<Vec<Asked>, AllocError>
    ensures { IfOk result (λ atoms. length atoms.items ≤ nodes (form_of f.now)) }
{
    let mut atoms = Vec::new(alloc);
    push_atoms(o, f, &mut atoms)?;
    Ok(atoms)
}

/// What is seen of the atom.
fn sight_of(
    alloc: Global,
    o: &Opening<'_>,
    memo: &Memo,
    atom: Asked,
    room: usize,
) -> Result<Sight, AllocError>
    requires valid { IsValid (program_of o.now.program.now) }
    requires known { AreKnownAt o.now memo.now.entries.items }
    ensures { IfOk result (IsSight o.now room) }
{
    if atom.pred.0 as usize >= pred_count(o.program) {
        return Ok(Sight::Known(false));
    }
    match atom_start(alloc, o, memo, atom.pred, atom.args) {
        Start::Done(d) => Ok(Sight::Known(d.is_ok())),
        Start::Inside(opened) => {
            let left = atoms_of(alloc, o, &opened)?;
            Ok(Sight::Opened(Waiting {
                atom,
                room,
                opened,
                left,
            }))
        }
    }
}

/// Works out the atom, all of whose definition is known: whether it has a delta.
fn conclude(
    alloc: Global,
    o: &Opening<'_>,
    memo: &mut Memo,
    w: &Waiting,
) -> Result<bool, AllocError>
    requires known { AreKnownAt o.now memo.old.entries.items }
    requires waiting { IsWaiting o.now w.now }
    ensures { AreKnownAt o.now memo.new.entries.items }
{
    let depth = pred_count(o.program).saturating_sub(1);
    let d = delta_of(alloc, o, depth, memo, &w.opened);
    match atom_end(alloc, o, memo, w.atom.pred, w.atom.args, d) {
        Ok(_) => Ok(true),
        Err(Stop::Unformed) => Ok(false),
        Err(Stop::Memory) => Err(AllocError),
    }
}

/// The next atom to be looked at; there is none where something was found to have no delta.
fn next_of(w: &mut Waiting, formed: bool) -> Option<Asked>
    ensures same { (w.new.atom ≡ w.old.atom) × (w.new.room ≡ w.old.room) × (w.new.opened ≡ w.old.opened) }
    ensures fewer { IfSome result (λ a. length w.new.left.items + 1 ≡ length w.old.left.items) }
    ensures no_more { length w.new.left.items ≤ length w.old.left.items }
{
    if formed { w.left.pop() } else { None }
}

/// Looks at an atom in the definition that was opened last: whether nothing was found to have no delta.
#[tactic(auto, using(crate::proofs::LowestLaws::all_pushed, crate::proofs::LowestLaws::weighs_alone, crate::proofs::LowestLaws::weighs_inside))]
fn look(
    alloc: Global,
    o: &Opening<'_>,
    memo: &Memo,
    stack: &mut Vec<Waiting>,
    w: Waiting,
    a: Asked,
) -> Result<bool, AllocError>
    requires valid { IsValid (program_of o.now.program.now) }
    requires known { AreKnownAt o.now memo.now.entries.items }
    requires waiting { IsWaiting o.now w }
    requires stack { All (IsWaiting o.now) stack.old.items }
    ensures stack { OnOk result (All (IsWaiting o.now) stack.new.items) }
    ensures weight { OnOk result
        (weight stack.new.items < weight (stack.old.items ++ w ∷ []) + power w.room) }
{
    let room = w.room;
    stack.push(w)?;
    if room == 0 {
        return Ok(true);
    }
    match sight_of(alloc, o, memo, a, room - 1)? {
        Sight::Known(formed) => Ok(formed),
        Sight::Opened(next) => {
            stack.push(next)?;
            Ok(true)
        }
    }
}

/// Goes on with the definition that was opened last: whether nothing was found to have no delta.
#[tactic(auto, using(crate::proofs::LowestLaws::waits_on, crate::proofs::LowestLaws::weighs_without, crate::proofs::LowestLaws::goes_on))]
fn advance(
    alloc: Global,
    o: &Opening<'_>,
    memo: &mut Memo,
    stack: &mut Vec<Waiting>,
    w: Waiting,
    formed: bool,
) -> Result<bool, AllocError>
    requires valid { IsValid (program_of o.now.program.now) }
    requires known { AreKnownAt o.now memo.old.entries.items }
    requires waiting { IsWaiting o.now w }
    requires stack { All (IsWaiting o.now) stack.old.items }
    ensures known { AreKnownAt o.now memo.new.entries.items }
    ensures stack { OnOk result (All (IsWaiting o.now) stack.new.items) }
    ensures weight { OnOk result (weight stack.new.items < weight (stack.old.items ++ w ∷ [])) }
{
    let mut w = w;
    match next_of(&mut w, formed) {
        None => {
            let concluded = conclude(alloc, o, memo, &w)?;
            Ok(formed && concluded)
        }
        Some(a) => look(alloc, o, memo, stack, w, a),
    }
}

/// Works out what the stack has: whether all of it has a delta.
#[tactic(auto, using(crate::proofs::LowestLaws::last_popped, crate::proofs::LowestLaws::rest_popped, crate::proofs::LowestLaws::lighter))]
fn finish(
    alloc: Global,
    o: &Opening<'_>,
    memo: &mut Memo,
    stack: &mut Vec<Waiting>,
) -> Result<bool, AllocError>
    requires valid { IsValid (program_of o.now.program.now) }
    requires known { AreKnownAt o.now memo.old.entries.items }
    requires stack { All (IsWaiting o.now) stack.old.items }
    ensures { AreKnownAt o.now memo.new.entries.items }
{
    let mut formed = true;
    while let Some(w) = stack.pop() {
        formed = advance(alloc, o, memo, stack, w, formed)?;
    }
    Ok(formed)
}

/// Works out an atom: whether it has a delta.
#[tactic(auto, using(crate::proofs::LowestLaws::all_pushed))]
fn work_out_atom(
    alloc: Global,
    o: &Opening<'_>,
    memo: &mut Memo,
    a: Asked,
) -> Result<bool, AllocError>
    requires valid { IsValid (program_of o.now.program.now) }
    requires known { AreKnownAt o.now memo.old.entries.items }
    ensures { AreKnownAt o.now memo.new.entries.items }
{
    match sight_of(alloc, o, memo, a, pred_count(o.program))? {
        Sight::Known(formed) => Ok(formed),
        Sight::Opened(w) => {
            let mut stack = Vec::new(alloc);
            stack.push(w)?;
            finish(alloc, o, memo, &mut stack)
        }
    }
}

/// Works out the atoms of the formula, one after the other, up to the first that has no delta. What is found
/// is put into `memo`.
pub fn work_out(
    alloc: Global,
    o: &Opening<'_>,
    memo: &mut Memo,
    f: &Formula,
) -> Result<(), AllocError>
    requires valid { IsValid (program_of o.now.program.now) }
    requires known { AreKnownAt o.now memo.old.entries.items }
    ensures { AreKnownAt o.now memo.new.entries.items }
{
    let mut atoms = atoms_of(alloc, o, f)?;
    while let Some(a) = atoms.pop() {
        if !work_out_atom(alloc, o, memo, a)? {
            return Ok(());
        }
    }
    Ok(())
}
