//! Preconditions that are sure: whether in a structure that coerce and focus leave at hand, under some
//! individuals that the action may pick, its precondition is `Yes`.

ghost use Rattle.std.specs.Prelude.{◌≡◌, ◌<◌, ◌↔◌, ◌∷◌, All, Any, Contains, IsTrue, IfOk, IfErr, length};
ghost use Rattle.tv_eval.specs.AssignmentForm.{assignment_of};
ghost use Rattle.tv_kleene.specs.declared.K3.TheVariants.{Yes};
ghost use Rattle.tv_model.specs.Program.{action_of, picks_of, program_of};
ghost use Rattle.tv_model.specs.Valid.{IsValid, IsVariable};
ghost use Rattle.tv_structure_form.specs.StructureForm.{IsOver, structure_of};
ghost use Rattle.tv_step_laws.specs.Shaped.{IsShaped};
ghost use Rattle.tv_step_laws.specs.Transfer.{IsActionOf};
ghost use Rattle.tv_step.specs.AtHand.{IsFocusFault};
ghost use Rattle.tv_update_laws.specs.Picks.{precondition_value};
ghost use Rattle.tv_losses.specs.Cases.{ArePicked, ArePickedBut, IsCase, action_in};
ghost use Rattle.tv_losses.specs.Enabled.{IsEnabled, IsEnabledAtHand, IsEnabledWith};

use crate::case::Case;
use tv_eval::Assignment;
use tv_kleene::K3;
use tv_model::{Action, Var};
use tv_step::Stepper;
use tv_struct::{StageError, Structure};

/// Whether the precondition is `Yes` under the picked individuals, or there is none.
fn is_sure(c: &Case, picks: &Assignment, stepper: &mut Stepper) -> bool
    requires case { IsCase c.now stepper.old }
    requires picks { ArePicked (action_in c.now) c.now.from.now picks.now }
    ensures value { IsTrue result ↔ (precondition_value (structure_of c.now.from.now)
        (assignment_of picks.now) (action_in c.now).pre ≡ Yes) }
    ensures same { stepper.new ≡ stepper.old }
{
    let _ = c.from.size();
    match &c.action.pre {
        None => true,
        Some(pre) => stepper.value(pre, c.from, picks) == K3::Yes,
    }
}

/// Whether the precondition is sure for some individuals that are put for the variables that are left.
#[cycle(enabled)]
fn is_enabled_with(c: &Case, left: &[Var], picks: &Assignment, stepper: &mut Stepper) -> bool
    requires case { IsCase c.now stepper.old }
    requires left { All IsVariable (picks_of left.now) }
    requires picks { ArePickedBut (action_in c.now) c.now.from.now (picks_of left.now) picks.now }
    ensures value { IsTrue result
        ↔ IsEnabledWith (action_in c.now) c.now.from.now (picks_of left.now) (assignment_of picks.now) }
    ensures same { stepper.new ≡ stepper.old }
{
    match left {
        [] => is_sure(c, picks, stepper),
        [v, rest @ ..] => is_enabled_by_some(c, *v, rest, picks, stepper),
    }
}

/// Whether it is sure for some individual that is put for `v`, and some for the variables that are left.
#[cycle(enabled)]
fn is_enabled_by_some(
    c: &Case,
    v: Var,
    left: &[Var],
    picks: &Assignment,
    stepper: &mut Stepper,
) -> bool
    requires case { IsCase c.now stepper.old }
    requires variable { IsVariable v.0 }
    requires left { All IsVariable (picks_of left.now) }
    requires picks { ArePickedBut (action_in c.now) c.now.from.now (v.0 ∷ picks_of left.now) picks.now }
    ensures value { IsTrue result ↔ IsEnabledWith (action_in c.now) c.now.from.now
        (v.0 ∷ picks_of left.now) (assignment_of picks.now) }
    ensures same { stepper.new ≡ stepper.old }
{
    for u in 0..c.from.size() {
        if is_enabled_with(c, left, &picks.with(v, u), stepper) {
            return true;
        }
    }
    false
}

/// Whether the action is surely enabled in the structure.
fn is_enabled(c: &Case, stepper: &mut Stepper) -> bool
    requires valid { IsValid (program_of stepper.old.program) }
    requires action { Contains (program_of stepper.old.program).actions (action_in c.now) }
    requires shaped { IsShaped (program_of stepper.old.program) c.now.from.now }
    ensures value { IsTrue result ↔ IsEnabled (action_in c.now) c.now.from.now }
    ensures same { stepper.new ≡ stepper.old }
{
    let picks = c.action.picks.as_slice();
    is_enabled_with(c, picks, &Assignment::new(), stepper)
}

/// Whether the action is surely enabled in one of the structures.
fn is_enabled_in_some(action: &Action, structures: &[Structure], stepper: &mut Stepper) -> bool
    requires valid { IsValid (program_of stepper.old.program) }
    requires action { Contains (program_of stepper.old.program).actions (action_of action.now) }
    requires shaped { All (IsShaped (program_of stepper.old.program)) structures.now }
    ensures value { IsTrue result ↔ Any (IsEnabled (action_of action.now)) structures.now }
    ensures same { stepper.new ≡ stepper.old }
{
    for from in structures {
        if is_enabled(&Case { action, from }, stepper) {
            return true;
        }
    }
    false
}

/// Whether in a structure that coerce and the focus of the edge's action leave at hand of `s`, under some
/// individuals that the action may pick, its precondition is `Yes`, or it has none. `Splits` only where a
/// focus atom has over 4,096 choices, `Individuals` only where a choice has over 256 individuals.
pub fn is_enabled_at_hand(
    stepper: &mut Stepper,
    edge: u32,
    action: &Action,
    s: &Structure,
) -> Result<bool, StageError>
    requires valid { IsValid (program_of stepper.old.program) }
    requires edge { edge < length stepper.old.program.edges }
    requires action { IsActionOf (program_of stepper.old.program) edge (action_of action.now) }
    requires over { IsOver stepper.old.program.vocab s.now }
    ensures value { IfOk result (λ enabled. IsTrue enabled
        ↔ IsEnabledAtHand (program_of stepper.old.program) (action_of action.now) s.now) }
    ensures cause { IfErr result
        (IsFocusFault (program_of stepper.old.program) (action_of action.now) s.now) }
    ensures same { stepper.new ≡ stepper.old }
{
    let found = stepper.at_hand(edge, s)?;
    Ok(is_enabled_in_some(action, found.as_slice(), stepper))
}
