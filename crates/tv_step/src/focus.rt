//! Focus in a step: the structures at hand, atom by atom.

ghost use Rattle.std.specs.Prelude.{◌≡◌, ◌≤◌, ◌++◌, [], ◌∷◌, length, map, unwrap_or, All, IfOk, IfErr};
ghost use Rattle.std.specs.Prelude.{IsTrue, OnOk};
ghost use Rattle.tv_focus.specs.Stage.{IsWithinLimits};
ghost use Rattle.tv_model.specs.declared.program.Program.{Program};
ghost use Rattle.tv_model.specs.Form.{form_of};
ghost use Rattle.tv_step_laws.specs.Parts.{AreFrom};
ghost use Rattle.tv_step_laws.specs.Shaped.{IsShaped};
ghost use Rattle.tv_step_laws.specs.Transfer.{Focuses, focus_places, places_in};
ghost use Rattle.tv_rules.specs.Closing.{closed_rules};
ghost use Rattle.tv_rules.specs.EntryForms.{rules_of};
ghost use Rattle.tv_step.specs.Places.{focus_place, AreWaitingAt, HasWaiting};
ghost use Rattle.tv_step.specs.Setting.{form_in, IsReadyToStep, IsStableIn};
ghost use Rattle.tv_step.specs.Steps.{Adds, IsPlace, KeepsLimits, IsFocusCause, AreFocusedWithin};
ghost use Rattle.tv_step.specs.Steps.{IsCauseOfFocus};
ghost use Rattle.tv_step.specs.Waiting.{IsShared};

use crate::changed::{Parent, Reach, Redefined};
use crate::coerced::{Ending, coerce_all};
use crate::setting::Setting;
use crate::waiting::{Shared, waiting_at};
use std::alloc::AllocError;
use std::rc::Rc;
use tv_coerce::RuleSet;
use tv_eval::Scratch;
use tv_focus::{FocusAtoms, Focused, into_focused, is_known};
use tv_focus_walk::{Walk, walk_choices};
use tv_model::Formula;
use tv_struct::{StageError, Structure, Structures};

/// An atom of a focus formula, by its number, and the rules that a choice of it may leave unmet in a
/// structure that was stable. The atoms of a formula share its list, and those of an action the rules.
#[derive(Drop)]
pub struct Turn<'a> {
    pub formula: Rc<FocusAtoms<'a>>,
    pub atom: usize,
    pub waiting: Rc<RuleSet>,
}

/// The atoms of the formulas, formula by formula. All share the rules that wait.
pub fn turns<'a>(
    x: &Setting,
    shared: &mut Shared,
    formulas: &'a [Formula],
) -> Result<Vec<Turn<'a>>, AllocError>
    requires few { length x.now.program.now.vocab.preds ≤ 512 }
    requires rules { rules_of x.now.closed.now ≡ closed_rules (form_in x.now) }
    requires shared { IsShared (form_in x.now) (rules_of x.now.closed.now) shared.old }
    ensures places { IfOk result
        (λ turns. map focus_place turns.items ≡ focus_places (map form_of formulas.now)) }
    ensures waiting { IfOk result (λ turns. All (HasWaiting x.now.program.now) turns.items) }
    ensures shared { OnOk result (IsShared (form_in x.now) (rules_of x.now.closed.now) shared.new) }
{
    if formulas.is_empty() {
        return Ok(Vec::new(x.alloc));
    }
    let waiting = waiting_at(x, shared, formulas)?;
    let mut turns = Vec::new(x.alloc);
    for formula in formulas {
        let atoms = Rc::new(x.alloc, FocusAtoms::new(x.alloc, formula)?)?;
        push_turns(&atoms, &waiting, &mut turns)?;
    }
    Ok(turns)
}

/// Puts the atoms of the formula behind the others, each with these rules.
fn push_turns<'a>(
    atoms: &Rc<FocusAtoms<'a>>,
    waiting: &Rc<RuleSet>,
    turns: &mut Vec<Turn<'a>>,
) -> Result<(), AllocError>
    ensures places { OnOk result (map focus_place turns.new.items
        ≡ map focus_place turns.old.items ++ places_in (form_of atoms.now.value)) }
    ensures waiting { OnOk result
        ((program : Program) → AreWaitingAt program (form_of atoms.now.value) waiting.now.value
        → All (HasWaiting program) turns.old.items → All (HasWaiting program) turns.new.items) }
{
    for atom in 0..atoms.count() {
        let formula = atoms.clone()?;
        let waiting = waiting.clone()?;
        turns.push(Turn {
            formula,
            atom,
            waiting,
        })?;
    }
    Ok(())
}

/// Puts what focus on the atom makes of the stable `s` behind the others: `s` itself where the atom's values
/// are known, and else its choices, each coerced or dropped.
fn push_focused(
    x: &Setting,
    turn: &Turn<'_>,
    s: Structure,
    scratch: &mut Scratch,
    out: &mut Structures,
) -> Result<(), StageError>
    requires ready { IsReadyToStep x.now scratch.old }
    requires place { IsPlace (form_in x.now) (focus_place turn.now) }
    requires waiting { HasWaiting x.now.program.now turn.now }
    requires shaped { IsShaped (form_in x.now) s }
    requires stable { IsStableIn (form_in x.now) s }
    ensures out { OnOk result (Adds (Focuses (form_in x.now) (focus_place turn.now)) s out.old out.new) }
    ensures within { OnOk result (IsWithinLimits s (focus_place turn.now).formula turn.now.atom) }
    ensures cause { IfErr result (IsFocusCause (focus_place turn.now) (s ∷ [])) }
    ensures scratch { scratch.new ≡ scratch.old }
{
    match into_focused(x.alloc, &turn.formula, turn.atom, s)? {
        Focused::Same(s) => Ok(out.push(s)?),
        Focused::Choices(from, choices) => {
            let parent = Parent {
                from: &from,
                reach: Reach::Anywhere,
                redefined: Redefined::none(),
            };
            Ok(coerce_all(
                x,
                Ending::Open,
                &turn.waiting,
                &parent,
                choices,
                scratch,
                out,
            )?)
        }
        Focused::Many(from, choosing) => {
            let walk = Walk {
                alloc: x.alloc,
                program: x.program,
                closed: x.closed,
                waiting: &turn.waiting,
                from: &from,
                choosing: &choosing,
            };
            Ok(walk_choices(&walk, scratch, out)?)
        }
    }
}

/// The structures at hand after the atom, of those before it.
pub fn focus_all(
    x: &Setting,
    turn: &Turn<'_>,
    at_hand: Structures,
    scratch: &mut Scratch,
) -> Result<Structures, StageError>
    requires ready { IsReadyToStep x.now scratch.old }
    requires place { IsPlace (form_in x.now) (focus_place turn.now) }
    requires waiting { HasWaiting x.now.program.now turn.now }
    requires shaped { All (IsShaped (form_in x.now)) at_hand }
    requires stable { All (IsStableIn (form_in x.now)) at_hand }
    ensures out { IfOk result (AreFrom (Focuses (form_in x.now) (focus_place turn.now)) at_hand) }
    ensures within { OnOk result (KeepsLimits (focus_place turn.now) at_hand) }
    ensures cause { IfErr result (IsFocusCause (focus_place turn.now) at_hand) }
    ensures scratch { scratch.new ≡ scratch.old }
{
    let mut out = Structures::new(x.alloc);
    for s in at_hand.into_vec() {
        push_focused(x, turn, s, scratch, &mut out)?;
    }
    Ok(out)
}

/// Copies of the structures.
fn copies(x: &Setting, structures: &[Structure]) -> Result<Structures, AllocError>
    ensures { IfOk result (λ ss. ss ≡ structures.now) }
{
    let mut out = Structures::new(x.alloc);
    for s in structures {
        out.push(s.copy(x.alloc)?)?;
    }
    Ok(out)
}

/// The structures at hand in memory of their own, so that focus can take them over.
pub fn own_at_hand(
    x: &Setting,
    found: Option<Structures>,
    start: &[Structure],
) -> Result<Structures, AllocError>
    ensures { IfOk result (λ ss. ss ≡ unwrap_or found start.now) }
{
    match found {
        None => copies(x, start),
        Some(structures) => Ok(structures),
    }
}

/// The structures at hand: those that focus made, if there was an atom, and else those to begin with.
pub fn at_hand<'a>(found: &'a Option<Structures>, start: &'a [Structure]) -> &'a [Structure]
    ensures { result.now ≡ unwrap_or found.now start.now }
{
    match found {
        None => start,
        Some(structures) => structures.as_slice(),
    }
}

/// Whether the atom's values are known in all these structures, so that focus leaves them as they are.
fn are_known(x: &Setting, turn: &Turn<'_>, at_hand: &[Structure]) -> Result<bool, AllocError>
    requires place { IsPlace (form_in x.now) (focus_place turn.now) }
    requires shaped { All (IsShaped (form_in x.now)) at_hand.now }
    requires stable { All (IsStableIn (form_in x.now)) at_hand.now }
    ensures out { IfOk result (λ known. IsTrue known
        → AreFrom (Focuses (form_in x.now) (focus_place turn.now)) at_hand.now at_hand.now) }
    ensures within { IfOk result (λ known. IsTrue known → KeepsLimits (focus_place turn.now) at_hand.now) }
{
    for s in at_hand {
        if !is_known(x.alloc, &turn.formula, turn.atom, s)? {
            return Ok(false);
        }
    }
    Ok(true)
}

/// What is found after the atom, where this was found before it: nothing else, where the atom's values are
/// known in the structures at hand.
pub fn after_turn(
    x: &Setting,
    turn: &Turn<'_>,
    found: Option<Structures>,
    start: &[Structure],
    scratch: &mut Scratch,
) -> Result<Option<Structures>, StageError>
    requires ready { IsReadyToStep x.now scratch.old }
    requires place { IsPlace (form_in x.now) (focus_place turn.now) }
    requires waiting { HasWaiting x.now.program.now turn.now }
    requires shaped { All (IsShaped (form_in x.now)) (unwrap_or found start.now) }
    requires stable { All (IsStableIn (form_in x.now)) (unwrap_or found start.now) }
    ensures out { IfOk result (λ after. AreFrom (Focuses (form_in x.now) (focus_place turn.now))
        (unwrap_or found start.now) (unwrap_or after start.now)) }
    ensures within { OnOk result (KeepsLimits (focus_place turn.now) (unwrap_or found start.now)) }
    ensures cause { IfErr result (IsFocusCause (focus_place turn.now) (unwrap_or found start.now)) }
    ensures scratch { scratch.new ≡ scratch.old }
{
    if are_known(x, turn, at_hand(&found, start))? {
        return Ok(found);
    }
    let at_hand = own_at_hand(x, found, start)?;
    Ok(Some(focus_all(x, turn, at_hand, scratch)?))
}
