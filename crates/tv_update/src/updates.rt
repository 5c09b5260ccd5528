//! The updates of an action, made in a structure.

ghost use Rattle.std.specs.Prelude.{◌≡◌, ◌<◌, ◌≤◌, Some, None, length, OnOk, if◌then◌else◌};
ghost use Rattle.std.specs.List.{AllByRecursion};
ghost use Rattle.tv_model.specs.Program.{UpdateForm, program_of, update_of};
ghost use Rattle.tv_structure_form.specs.StructureForm.{IsOver};
ghost use Rattle.tv_eval.specs.AssignmentForm.{assignment_of};
ghost use Rattle.tv_eval.specs.Bound.{bound_structure, bound_room};
ghost use Rattle.tv_update_laws.specs.Applied.{used_update, kind_at};
ghost use Rattle.tv_update.specs.Applying.{AreMadeIn};
ghost use Rattle.tv_update.specs.Held.{rows_held};
ghost use Rattle.tv_update.specs.Rows.{HasRows, IsLike, change_rows};
ghost use Rattle.tv_update.specs.Updated.{CanMake};

use crate::application::Application;
use crate::rows::Rows;
use std::alloc::AllocError;
use tv_eval::{Assignment, Evaluator};
use tv_model::{Change, Kind, Mode, PredId, Program, Update};
use tv_struct::Structure;

/// Whether updates of the predicate count: those of defined predicates don't where these are
/// evaluated anew.
pub fn counts(program: &Program, mode: Mode, p: PredId) -> bool
    requires { p.0 < length program.now.vocab.preds }
    ensures { (w : UpdateForm) → used_update mode (kind_at (program_of program.now) p.0) (Some w)
        ≡ (if result then Some w else None) }
{
    match mode {
        Mode::Given => true,
        Mode::Recompute => matches!(
            program.vocab.preds.as_slice()[p.0 as usize].kind,
            Kind::Core
        ),
    }
}

/// Holds the values that the update gives in the evaluator's structure.
fn fill_change<'a>(
    e: &mut Evaluator<'_, 'a>,
    picks: &Assignment,
    w: &'a Update,
    rows: &mut Rows,
) -> Result<(), AllocError>
    requires can { CanMake (bound_structure e.old) picks.now (bound_room e.old) (update_of w.now) }
    requires size { (rows.old.size ≡ (bound_structure e.old).size) × (rows.old.size ≤ 256) }
    ensures values { OnOk result
        (rows_held rows.new (update_of w.now).vars ≡ change_rows (bound_structure e.old)
        (assignment_of picks.now) (update_of w.now).vars (update_of w.now).change) }
    ensures size { rows.new.size ≡ rows.old.size }
    ensures same { e.new ≡ e.old }
{
    match &w.change {
        Change::Free => rows.fill_half(w.vars),
        Change::To(f) => rows.fill(e, w.vars, f, picks),
    }
}

/// Makes one update in `t`: its predicate gets the values that the evaluator has for it.
#[inline(never)]
#[tactic(auto, using(crate::proofs::RowLaws::change_rows_are_rows, crate::proofs::RowLaws::few_vars))]
fn make<'a>(
    e: &mut Evaluator<'_, 'a>,
    picks: &Assignment,
    w: &'a Update,
    t: &mut Structure,
    rows: &mut Rows,
) -> Result<(), AllocError>
    requires can { CanMake (bound_structure e.old) picks.now (bound_room e.old) (update_of w.now) }
    requires like { IsLike (bound_structure e.old) t.old }
    requires size { rows.old.size ≡ t.old.size }
    ensures made { OnOk result (HasRows t.old t.new w.now.pred.0 (length (update_of w.now).vars)
        (change_rows (bound_structure e.old) (assignment_of picks.now) (update_of w.now).vars
        (update_of w.now).change)) }
    ensures size { rows.new.size ≡ rows.old.size }
    ensures same { e.new ≡ e.old }
{
    let _ = t.size();
    fill_change(e, picks, w, rows)?;
    rows.put(t, w.pred, w.vars);
    Ok(())
}

/// Makes the updates that count in `t`, all read in the evaluator's structure.
#[tactic(auto, using(crate::proofs::Made::none_made, crate::proofs::Made::passed_over))]
pub fn make_all<'a>(
    applied: &Application<'a>,
    e: &mut Evaluator<'_, 'a>,
    updates: &'a [Update],
    t: &mut Structure,
    rows: &mut Rows,
) -> Result<(), AllocError>
    requires over { IsOver applied.now.program.now.vocab (bound_structure e.old) }
    requires can { AllByRecursion (λ w. CanMake (bound_structure e.old) applied.now.picks.now
        (bound_room e.old) (update_of w)) updates.now }
    requires like { IsLike (bound_structure e.old) t.old }
    requires size { rows.old.size ≡ t.old.size }
    ensures made { OnOk result (AreMadeIn applied.now (bound_structure e.old) updates.now t.old t.new) }
    ensures size { rows.new.size ≡ rows.old.size }
    ensures same { e.new ≡ e.old }
{
    match updates {
        [] => Ok(()),
        [w, rest @ ..] => {
            make_all(applied, e, rest, t, rows)?;
            if counts(applied.program, applied.mode, w.pred) {
                make(e, applied.picks, w, t, rows)
            } else {
                Ok(())
            }
        }
    }
}
