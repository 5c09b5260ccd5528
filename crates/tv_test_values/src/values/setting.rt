//! Formulas as texts: what the action of a program sets n(v, w) to.

ghost use Rattle.std.specs.Prelude.{ℕ, ◌≡◌, ◌⊎◌, ◌≤◌, IfOk};
ghost use Rattle.tv_model.specs.Form.{form_of};
ghost use Rattle.tv_model.specs.Program.{program_of};
ghost use Rattle.tv_model.specs.Valid.{IsValid};
ghost use Rattle.tv_test_values.specs.Setting.{IsSetting};

use std::alloc::Global;
use std::test::Fail;
use tv_eval::made_scratches_fit;
use tv_model::{Change, Formula, Program, Terms, Var};
use tv_test_reader::{PREDICATES, program};

/// The program that sets n(v, w) to the formula, which may speak of a new individual.
pub fn program_with(alloc: Global, formula: &str) -> Result<Program, Fail>
    ensures { IfOk result (λ p. IsValid (program_of p)) }
{
    let parts = format!(in alloc; "%new {{ n(v, w) = {formula} }}")?;
    program(alloc, PREDICATES, parts.as_str())
}

/// What a program's action sets n(v, w) to.
#[derive(Drop)]
pub struct Setting<'a> {
    pub v: Var,
    pub w: Var,
    pub formula: &'a Formula,
}

/// The setting of the program's action, if it picks nothing.
pub fn setting_of(program: &Program) -> Result<Setting<'_>, Fail>
    requires { IsValid (program_of program.now) }
    ensures { IfOk result (λ s. IsSetting program.now s.v.0 s.w.0 (form_of s.formula.now)) }
{
    made_scratches_fit();
    let actions = program.actions.as_slice();
    if actions.len() == 0 {
        return Err(Fail::new("no action"));
    }
    let action = &actions[0];
    if action.picks.len() > 0 {
        return Err(Fail::new("something is picked"));
    }
    let updates = action.updates.as_slice();
    if updates.len() == 0 {
        return Err(Fail::new("no update"));
    }
    let update = &updates[0];
    match (&update.vars, &update.change) {
        (Terms::Two(v, w), Change::To(formula)) => Ok(Setting {
            v: *v,
            w: *w,
            formula,
        }),
        _ => Err(Fail::new("no formula")),
    }
}
