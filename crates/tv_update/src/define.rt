//! Definitions, evaluated in a structure.

ghost use Rattle.std.specs.Prelude.{ℕ, ◌≡◌, ◌<◌, List, Option, length, map, OnOk};
ghost use Rattle.std.specs.List.{AllByRecursion};
ghost use Rattle.tv_model.specs.Form.{form_of, vars_of};
ghost use Rattle.tv_model.specs.Program.{program_of};
ghost use Rattle.tv_model.specs.Rules.{blank};
ghost use Rattle.tv_model.specs.Valid.{IsValid};
ghost use Rattle.tv_structure_form.specs.StructureForm.{IsOver};
ghost use Rattle.tv_struct.specs.StructureRows.{HasArity};
ghost use Rattle.tv_eval.specs.ScratchForm.{IsMadeFor};
ghost use Rattle.tv_update.specs.Defined.{IsEvaluated, AreEvaluated};
ghost use Rattle.tv_update.specs.Plan.{IsOrdered};
ghost use Rattle.tv_update.specs.Rows.{CanFill, HasRows, rows_for};

use crate::rows::Rows;
use std::alloc::AllocError;
use tv_eval::{Assignment, Evaluator, Scratch};
use tv_model::{Formula, Kind, PredId, Program, Terms};
use tv_struct::Structure;

/// Puts the values of a definition in `t` into its predicate.
fn evaluate(
    p: PredId,
    vars: Terms,
    body: &Formula,
    t: &mut Structure,
    rows: &mut Rows,
    scratch: &mut Scratch,
) -> Result<(), AllocError>
    requires arity { HasArity t.old p.0 (length (vars_of vars)) }
    requires can { (places : List (Option ℕ)) → CanFill t.old places (vars_of vars) scratch.old
        (form_of body.now) }
    requires size { rows.old.size ≡ t.old.size }
    ensures rows { OnOk result (HasRows t.old t.new p.0 (length (vars_of vars))
        (rows_for t.old blank (vars_of vars) (form_of body.now))) }
    ensures size { rows.new.size ≡ rows.old.size }
    ensures scratch { scratch.new ≡ scratch.old }
{
    let mut e = Evaluator::new(t, scratch);
    let filled = rows.fill(&mut e, vars, body, &Assignment::new());
    e.finish(scratch);
    filled?;
    rows.put(t, p, vars);
    Ok(())
}

/// Gives the predicate the values of its definition in `t`, if it has one.
#[inline(never)]
fn define(
    program: &Program,
    p: PredId,
    t: &mut Structure,
    rows: &mut Rows,
    scratch: &mut Scratch,
) -> Result<(), AllocError>
    requires valid { IsValid (program_of program.now) }
    requires pred { p.0 < length program.now.vocab.preds }
    requires over { IsOver program.now.vocab t.old }
    requires size { rows.old.size ≡ t.old.size }
    requires scratch { IsMadeFor (program_of program.now) 256 scratch.old }
    ensures evaluated { OnOk result (IsEvaluated (program_of program.now) p.0 t.old t.new) }
    ensures size { rows.new.size ≡ rows.old.size }
    ensures scratch { scratch.new ≡ scratch.old }
{
    let _ = t.size();
    match &program.vocab.preds.as_slice()[p.0 as usize].kind {
        Kind::Core => Ok(()),
        Kind::Defined { vars, body } => evaluate(p, *vars, body, t, rows, scratch),
    }
}

/// Gives these predicates the values of their definitions in the structure that comes of it, where
/// no definition rests on a predicate behind its own.
#[tactic(auto, using(crate::proofs::Defines::none_evaluated))]
pub fn define_all(
    program: &Program,
    order: &[PredId],
    t: &mut Structure,
    rows: &mut Rows,
    scratch: &mut Scratch,
) -> Result<(), AllocError>
    requires valid { IsValid (program_of program.now) }
    requires preds { AllByRecursion (λ p. p.0 < length program.now.vocab.preds) order.now }
    requires ordered { IsOrdered (program_of program.now) (map (λ p. p.0) order.now) }
    requires over { IsOver program.now.vocab t.old }
    requires size { rows.old.size ≡ t.old.size }
    requires scratch { IsMadeFor (program_of program.now) 256 scratch.old }
    ensures evaluated { OnOk result (AreEvaluated (program_of program.now) (map (λ p. p.0) order.now)
        t.old t.new) }
    ensures size { rows.new.size ≡ rows.old.size }
    ensures scratch { scratch.new ≡ scratch.old }
{
    match order {
        [] => Ok(()),
        [p, later @ ..] => {
            define(program, *p, t, rows, scratch)?;
            define_all(program, later, t, rows, scratch)
        }
    }
}
