//! The first predicate that an action updates in another way than its definition says.

ghost use Rattle.std.specs.Prelude.{◌≡◌, ◌↔◌, IsTrue, length, is_some, map};
ghost use Rattle.std.specs.Option.{option_map};
ghost use Rattle.tv_model.specs.Form.{vars_of};
ghost use Rattle.tv_model.specs.Program.{action_of, kind_of, pred_of, program_of, update_of};
ghost use Rattle.tv_model.specs.Step.{update_for};
ghost use Rattle.tv_model.specs.Valid.{IsValid};
ghost use Rattle.tv_structure_form.specs.StructureForm.{IsOver, IsStructure};
ghost use Rattle.tv_struct.specs.StructureRows.{HasArity};
ghost use Rattle.tv_replay_laws.specs.Judged.{IsFirst};
ghost use Rattle.tv_replay_judge.specs.Same.{HasSameValues, HasVariables, IsSameAt};

use crate::values::are_equal;
use tv_model::{Action, Kind, Pred, PredId, Program, Terms, Update};
use tv_struct::{Structure, Table, Tuple};

/// Whether both structures have the same values of the binary predicate.
fn have_same_rows(s: &Structure, t: &Structure, p: PredId) -> bool
    requires left { HasArity s.now p.0 2 }
    requires right { HasArity t.now p.0 2 }
    requires size { s.now.size ≡ t.now.size }
    ensures { IsTrue result ↔ HasSameValues s.now t.now p.0 2 }
{
    for u in 0..t.size() {
        if !s.row(p, u).equals(&t.row(p, u)) {
            return false;
        }
    }
    true
}

/// Whether both structures have the same values of the predicate, which has a place for each of the
/// variables.
fn have_same_values(s: &Structure, t: &Structure, p: PredId, vars: Terms) -> bool
    requires left { HasArity s.now p.0 (length (vars_of vars)) }
    requires right { HasArity t.now p.0 (length (vars_of vars)) }
    requires size { s.now.size ≡ t.now.size }
    ensures { IsTrue result ↔ HasSameValues s.now t.now p.0 (length (vars_of vars)) }
{
    match vars {
        Terms::Zero => are_equal(s.get(p, Tuple::Zero), t.get(p, Tuple::Zero)),
        Terms::One(_) => s.unary_row(p).equals(&t.unary_row(p)),
        Terms::Two(_, _) => have_same_rows(s, t, p),
    }
}

/// Whether one of the updates is of the predicate.
fn has_update(updates: &[Update], p: PredId) -> bool
    ensures { result ≡ is_some (update_for p.0 (map update_of updates.now)) }
{
    match updates {
        [] => false,
        [w, rest @ ..] => w.pred.0 == p.0 || has_update(rest, p),
    }
}

/// Whether the predicate isn't both defined and updated, or has the same values in both structures.
fn is_same_at(action: &Action, given: &Structure, new: &Structure, p: PredId, pred: &Pred) -> bool
    requires left { HasArity given.now p.0 pred.now.arity }
    requires right { HasArity new.now p.0 pred.now.arity }
    requires size { given.now.size ≡ new.now.size }
    requires variables { HasVariables pred.now.arity (kind_of pred.now.kind) }
    ensures { IsTrue result ↔ IsSameAt (action_of action.now) given.now new.now p.0 (pred_of pred.now) }
{
    match &pred.kind {
        Kind::Core => true,
        Kind::Defined { vars, .. } => {
            !has_update(action.updates.as_slice(), p) || have_same_values(given, new, p, *vars)
        }
    }
}

/// The first defined predicate that the action updates and of which the structures have different values;
/// none where there is none. Takes no memory.
pub fn first_differing(
    program: &Program,
    action: &Action,
    given: &Structure,
    new: &Structure,
) -> Option<PredId>
    requires valid { IsValid (program_of program.now) }
    requires structures { IsStructure given.now × IsStructure new.now }
    requires over { IsOver program.now.vocab given.now × IsOver program.now.vocab new.now }
    requires size { given.now.size ≡ new.now.size }
    ensures first { IsFirst (program_of program.now).preds (IsSameAt (action_of action.now) given.now new.now)
        (option_map (λ p. p.0) result) }
{
    for (number, pred) in program.vocab.preds.as_slice().iter().enumerate() {
        let p = PredId(number as u32);
        if !is_same_at(action, given, new, p, pred) {
            return Some(p);
        }
    }
    None
}
