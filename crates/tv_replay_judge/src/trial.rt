//! A rule is tried in a heap: its variables get individuals one after the other, and an individual is passed
//! over as soon as a conjunct of the body is false, or the head is true, whatever the variables that are left
//! stand for. The values for all individuals that a variable may stand for are found by rows.

ghost use Rattle.std.specs.Prelude.{◌≡◌, ◌↔◌, ◌<◌, ℕ, [], ◌∷◌, IsTrue, IsFalse, Contains};
ghost use Rattle.tv_coerce_members.specs.Members.{numbers_of};
ghost use Rattle.tv_eval.specs.AssignmentForm.{assignment_of};
ghost use Rattle.tv_model.specs.Form.{form_of, IsFree};
ghost use Rattle.tv_model.specs.Truth.{Truth, put};
ghost use Rattle.tv_two_valued.specs.TwoValued.{heap_of};
ghost use Rattle.tv_replay_judge.specs.Trying.{CanTellIn, CanTellAlong, CanTryIn, IsGranted, IsMetFrom};
ghost use Rattle.tv_replay_judge.specs.Trying.{IsMetUnder, IsRowOf, IsRuledOut, IsCheckStart};
ghost use Rattle.tv_replay_judge.specs.Trying.{implication_of};

use tv_eval::{Assignment, Evaluator};
use tv_kleene::K3;
use tv_model::{Formula, Var, free};
use tv_row::Row;
use tv_struct::{Structure, Table};
use tv_two_valued::holds;

/// A rule's body, and its head as a formula.
#[derive(Clone, Copy)]
pub(crate) struct Implication<'a> {
    pub body: &'a Formula,
    pub head: &'a Formula,
}

/// Whether none of the variables is free in the formula.
fn is_settled(f: &Formula, rest: &[Var]) -> bool
    ensures { IsTrue result → (v : ℕ) → Contains (numbers_of rest.now) v → ¬ IsFree v (form_of f.now) }
{
    for v in rest {
        if free(f, *v) {
            return false;
        }
    }
    true
}

// ---- before any variable stands for an individual

/// Whether the formula is true whatever the variables that are left stand for. It may be so where this isn't
/// seen.
fn is_granted<'a>(
    s: &Structure,
    evaluator: &mut Evaluator<'_, 'a>,
    f: &'a Formula,
    rest: &[Var],
    a: &Assignment,
) -> bool
    requires can { CanTellIn evaluator.old s.now (numbers_of rest.now) a.now (form_of f.now) }
    ensures granted { IsTrue result
        → IsGranted (heap_of s.now) (numbers_of rest.now) (assignment_of a.now) (form_of f.now) }
    ensures same { evaluator.new ≡ evaluator.old }
{
    is_settled(f, rest) && holds(evaluator, f, a)
}

/// Whether the formula may be true once the variables that are left stand for individuals.
fn may_hold_whole<'a>(
    s: &Structure,
    evaluator: &mut Evaluator<'_, 'a>,
    f: &'a Formula,
    rest: &[Var],
    a: &Assignment,
) -> bool
    requires can { CanTellIn evaluator.old s.now (numbers_of rest.now) a.now (form_of f.now) }
    ensures out { IsFalse result
        → IsRuledOut (heap_of s.now) (numbers_of rest.now) (assignment_of a.now) (form_of f.now) }
    ensures same { evaluator.new ≡ evaluator.old }
{
    !is_settled(f, rest) || holds(evaluator, f, a)
}

/// Whether each conjunct of the formula may be true once the variables that are left stand for individuals.
fn may_hold<'a>(
    s: &Structure,
    evaluator: &mut Evaluator<'_, 'a>,
    f: &'a Formula,
    rest: &[Var],
    a: &Assignment,
) -> bool
    requires can { CanTellIn evaluator.old s.now (numbers_of rest.now) a.now (form_of f.now) }
    ensures out { IsFalse result
        → IsRuledOut (heap_of s.now) (numbers_of rest.now) (assignment_of a.now) (form_of f.now) }
    ensures same { evaluator.new ≡ evaluator.old }
{
    match f {
        Formula::And(g, h) => {
            may_hold(s, evaluator, g, rest, a) && may_hold(s, evaluator, h, rest, a)
        }
        _ => may_hold_whole(s, evaluator, f, rest, a),
    }
}

// ---- by rows

/// Whether the variable is the last that the formula waits for.
fn is_last(f: &Formula, v: Var, rest: &[Var]) -> bool
    ensures { IsTrue result → (w : ℕ) → Contains (numbers_of rest.now) w → ¬ IsFree w (form_of f.now) }
{
    free(f, v) && is_settled(f, rest)
}

/// Whose turn it is in the walk: a variable, those that are left behind it, and what the others stand for.
#[derive(Clone, Copy)]
pub(crate) struct Turn<'r, 'p> {
    pub v: Var,
    pub rest: &'r [Var],
    pub a: &'p Assignment,
}

/// Where the formula may be true, by the individuals that the variable may stand for: `Yes` wherever it may.
fn row_whole<'a>(
    s: &Structure,
    evaluator: &mut Evaluator<'_, 'a>,
    f: &'a Formula,
    turn: &Turn<'_, '_>,
) -> Row
    requires can { CanTellAlong evaluator.old s.now turn.now (form_of f.now) }
    ensures row { IsRowOf s.now.size
        (λ u. IsRuledOut (heap_of s.now) (numbers_of turn.now.rest.now)
        (put (assignment_of turn.now.a.now) turn.now.v.0 u) (form_of f.now)) result }
    ensures same { evaluator.new ≡ evaluator.old }
{
    if is_last(f, turn.v, turn.rest) {
        evaluator.row(f, turn.v, turn.a)
    } else {
        Row::of(s.size(), K3::Yes)
    }
}

/// Where each conjunct of the formula may be true.
fn body_row<'a>(
    s: &Structure,
    evaluator: &mut Evaluator<'_, 'a>,
    f: &'a Formula,
    turn: &Turn<'_, '_>,
) -> Row
    requires can { CanTellAlong evaluator.old s.now turn.now (form_of f.now) }
    ensures row { IsRowOf s.now.size
        (λ u. IsRuledOut (heap_of s.now) (numbers_of turn.now.rest.now)
        (put (assignment_of turn.now.a.now) turn.now.v.0 u) (form_of f.now)) result }
    ensures same { evaluator.new ≡ evaluator.old }
{
    match f {
        Formula::And(g, h) => {
            let left = body_row(s, evaluator, g, turn);
            let right = body_row(s, evaluator, h, turn);
            left.and(&right)
        }
        _ => row_whole(s, evaluator, f, turn),
    }
}

/// Where the formula may be false, by the individuals that the variable may stand for: `Yes` wherever it may.
fn lacking_row<'a>(
    s: &Structure,
    evaluator: &mut Evaluator<'_, 'a>,
    f: &'a Formula,
    turn: &Turn<'_, '_>,
) -> Row
    requires can { CanTellAlong evaluator.old s.now turn.now (form_of f.now) }
    ensures row { IsRowOf s.now.size
        (λ u. IsGranted (heap_of s.now) (numbers_of turn.now.rest.now)
        (put (assignment_of turn.now.a.now) turn.now.v.0 u) (form_of f.now)) result }
    ensures same { evaluator.new ≡ evaluator.old }
{
    if is_last(f, turn.v, turn.rest) {
        evaluator.row(f, turn.v, turn.a).not()
    } else {
        Row::of(s.size(), K3::Yes)
    }
}

/// The individuals that the variable has to be tried with: those at which the rule may be broken.
fn places_for<'a>(
    s: &Structure,
    evaluator: &mut Evaluator<'_, 'a>,
    trial: &Implication<'a>,
    turn: &Turn<'_, '_>,
) -> Row
    requires ready { CanTryIn evaluator.old s.now (implication_of trial.now) }
    requires variable { turn.now.v.0 < 32 }
    requires walk { IsCheckStart s.now.size (implication_of trial.now)
        (turn.now.v.0 ∷ numbers_of turn.now.rest.now) turn.now.a.now }
    ensures row { IsRowOf s.now.size
        (λ u. IsMetFrom (heap_of s.now) (implication_of trial.now) (numbers_of turn.now.rest.now)
        (put (assignment_of turn.now.a.now) turn.now.v.0 u)) result }
    ensures same { evaluator.new ≡ evaluator.old }
{
    let body = body_row(s, evaluator, trial.body, turn);
    if !body.has_yes() {
        return body;
    }
    let lacking = lacking_row(s, evaluator, trial.head, turn);
    body.and(&lacking)
}

// ---- the walk

/// Whether the head is true, or the body isn't.
fn is_met<'a>(
    s: &Structure,
    evaluator: &mut Evaluator<'_, 'a>,
    trial: &Implication<'a>,
    a: &Assignment,
) -> bool
    requires ready { CanTryIn evaluator.old s.now (implication_of trial.now) }
    requires walk { IsCheckStart s.now.size (implication_of trial.now) [] a.now }
    ensures met { IsTrue result
        ↔ IsMetUnder (heap_of s.now) (implication_of trial.now) (assignment_of a.now) }
    ensures same { evaluator.new ≡ evaluator.old }
{
    if holds(evaluator, trial.body, a) {
        holds(evaluator, trial.head, a)
    } else {
        true
    }
}

/// Whether the rule is met however the variables that are left get individuals.
fn is_met_from<'a>(
    s: &Structure,
    evaluator: &mut Evaluator<'_, 'a>,
    trial: &Implication<'a>,
    rest: &[Var],
    a: &Assignment,
) -> bool
    requires ready { CanTryIn evaluator.old s.now (implication_of trial.now) }
    requires walk { IsCheckStart s.now.size (implication_of trial.now) (numbers_of rest.now) a.now }
    ensures met { IsTrue result
        ↔ IsMetFrom (heap_of s.now) (implication_of trial.now) (numbers_of rest.now) (assignment_of a.now) }
    ensures same { evaluator.new ≡ evaluator.old }
{
    match rest {
        [] => is_met(s, evaluator, trial, a),
        [v, rest @ ..] => {
            let turn = Turn { v: *v, rest, a };
            let places = places_for(s, evaluator, trial, &turn);
            let mut from = 0;
            while let Some(u) = places.next_yes(from) {
                if !is_met_from(s, evaluator, trial, rest, &a.with(*v, u)) {
                    return false;
                }
                from = u + 1;
            }
            true
        }
    }
}

/// Whether the rule is met under all assignments, where none of its variables stands for an individual yet.
pub(crate) fn is_met_by_all<'a>(
    s: &Structure,
    evaluator: &mut Evaluator<'_, 'a>,
    trial: &Implication<'a>,
    vars: &[Var],
    a: &Assignment,
) -> bool
    requires ready { CanTryIn evaluator.old s.now (implication_of trial.now) }
    requires walk { IsCheckStart s.now.size (implication_of trial.now) (numbers_of vars.now) a.now }
    ensures met { IsTrue result
        ↔ IsMetFrom (heap_of s.now) (implication_of trial.now) (numbers_of vars.now) (assignment_of a.now) }
    ensures same { evaluator.new ≡ evaluator.old }
{
    if !may_hold(s, evaluator, trial.body, vars, a) {
        return true;
    }
    if is_granted(s, evaluator, trial.head, vars, a) {
        return true;
    }
    is_met_from(s, evaluator, trial, vars, a)
}
