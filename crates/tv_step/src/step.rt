//! Abstract steps.

ghost use Rattle.std.specs.Prelude.{◌≡◌, ◌<◌, All, length, unwrap_or, IfOk, IfErr, OnOk};
ghost use Rattle.tv_eval.specs.ScratchForm.{IsMadeFor};
ghost use Rattle.tv_model.specs.Program.{program_of};
ghost use Rattle.tv_model.specs.Valid.{IsValid};
ghost use Rattle.tv_rules.specs.Closing.{closed_rules};
ghost use Rattle.tv_rules.specs.EntryForms.{rules_of};
ghost use Rattle.tv_structure_form.specs.StructureForm.{IsOver};
ghost use Rattle.tv_step_laws.specs.Parts.{AreFrom};
ghost use Rattle.tv_step_laws.specs.Shaped.{IsShaped};
ghost use Rattle.tv_step_laws.specs.Transfer.{focus_places};
ghost use Rattle.tv_step.specs.Job.{action_in, IsJob};
ghost use Rattle.tv_step.specs.Setting.{form_in, IsReadyToStep, IsStableIn};
ghost use Rattle.tv_step.specs.Steps.{AreFocusedWithin, AreResultsOf, AreValuesOf, IsCauseOfFocus};
ghost use Rattle.tv_step.specs.Steps.{IsCauseOfStep, IsCauseOfUpdates};
ghost use Rattle.tv_step.specs.Steps.{KeepsUpdateLimits, StepsIn};
ghost use Rattle.tv_step.specs.StepAnswer.{AnswersStep};

use crate::focus::{after_turn, at_hand};
use crate::job::{Job, edge_at, job_of};
use crate::messages::{Values, values_of};
use crate::order::in_order;
use crate::picks::{Case, apply_action};
use crate::setting::Setting;
use crate::waiting::shared_sets;
use std::alloc::Global;
use tv_coerce::coerce;
use tv_eval::Scratch;
use tv_model::{Mode, Program};
use tv_rules::Closed;
use tv_struct::{StageError, Structure, Structures};
use tv_update::order_of;

/// What an abstract step gives: its results, strictly sorted, and the value of each message of the action.
#[derive(Debug, Drop)]
pub struct StepOut {
    pub results: Structures,
    pub messages: Values,
}

/// What the structures at hand give, one after the other.
fn given<'a, 'b>(
    x: &'a Setting<'a, 'a>,
    job: &'a Job<'b>,
    at_hand: &'a [Structure],
    scratch: &mut Scratch,
) -> Result<Structures, StageError>
    requires ready { IsReadyToStep x.now scratch.old }
    requires job { IsJob x.now.program.now x.now.mode job.now }
    requires shaped { All (IsShaped (form_in x.now)) at_hand.now }
    requires stable { All (IsStableIn (form_in x.now)) at_hand.now }
    ensures out { IfOk result (AreFrom (StepsIn (form_in x.now) x.now.mode (action_in job.now)) at_hand.now) }
    ensures within { OnOk result (All (KeepsUpdateLimits (action_in job.now)) at_hand.now) }
    ensures cause { IfErr result (IsCauseOfUpdates (action_in job.now) at_hand.now) }
    ensures scratch { scratch.new ≡ scratch.old }
{
    let mut out = Structures::new(x.alloc);
    for from in at_hand {
        let _ = from.size();
        let case = Case {
            setting: x,
            job,
            from,
        };
        apply_action(&case, scratch, &mut out)?;
    }
    Ok(out)
}

/// The structures at hand after the action's focus, of those to begin with; none where the values of its
/// atoms are known, since these are at hand then.
pub fn focused(
    x: &Setting,
    job: &Job,
    start: &[Structure],
    scratch: &mut Scratch,
) -> Result<Option<Structures>, StageError>
    requires ready { IsReadyToStep x.now scratch.old }
    requires job { IsJob x.now.program.now x.now.mode job.now }
    requires shaped { All (IsShaped (form_in x.now)) start.now }
    requires stable { All (IsStableIn (form_in x.now)) start.now }
    ensures out { IfOk result
        (λ found. AreFocusedWithin (form_in x.now) (focus_places (action_in job.now).focus) start.now
        (unwrap_or found start.now)) }
    ensures cause { IfErr result
        (IsCauseOfFocus (form_in x.now) (focus_places (action_in job.now).focus) start.now) }
    ensures scratch { scratch.new ≡ scratch.old }
{
    let mut found = None;
    for turn in job.turns.as_slice() {
        found = after_turn(x, turn, found, start, scratch)?;
    }
    Ok(found)
}

/// The step of a structure that is coerced: `start` has what coerce left of it.
pub fn step_from(
    x: &Setting,
    job: &Job,
    start: &[Structure],
    scratch: &mut Scratch,
) -> Result<StepOut, StageError>
    requires ready { IsReadyToStep x.now scratch.old }
    requires job { IsJob x.now.program.now x.now.mode job.now }
    requires shaped { All (IsShaped (form_in x.now)) start.now }
    requires stable { All (IsStableIn (form_in x.now)) start.now }
    ensures results { IfOk result
        (λ out. AreResultsOf (form_in x.now) x.now.mode (action_in job.now) start.now out.results) }
    ensures values { IfOk result
        (λ out. AreValuesOf (form_in x.now) (action_in job.now) start.now out.messages) }
    ensures cause { IfErr result (IsCauseOfStep (form_in x.now) (action_in job.now) start.now) }
    ensures scratch { scratch.new ≡ scratch.old }
{
    let found = focused(x, job, start, scratch)?;
    let at_hand = at_hand(&found, start);
    let messages = values_of(x, job.action.messages.as_slice(), at_hand, scratch)?;
    let given = given(x, job, at_hand, scratch)?;
    let results = in_order(given)?;
    Ok(StepOut { results, messages })
}

/// The abstract step of a structure along an edge: its results, strictly sorted, and the values of the
/// messages. `Splits` only where a stage of the step has over 4,096 choices, `Individuals` only where it
/// makes a structure of over 256 individuals; where it does either, the answer is one of the two or `Memory`.
/// For many steps a `Stepper` makes once what this makes anew.
pub fn abstract_step(
    alloc: Global,
    program: &Program,
    closed: &Closed,
    edge: u32,
    mode: Mode,
    s: &Structure,
    scratch: &mut Scratch,
) -> Result<StepOut, StageError>
    requires valid { IsValid (program_of program.now) }
    requires closed { rules_of closed.now ≡ closed_rules (program_of program.now) }
    requires edge { edge < length program.now.edges }
    requires over { IsOver program.now.vocab s.now }
    requires scratch { IsMadeFor (program_of program.now) 256 scratch.old }
    ensures step { AnswersStep (program_of program.now) mode edge s.now result }
    ensures scratch { scratch.new ≡ scratch.old }
{
    let x = Setting {
        alloc,
        program,
        mode,
        closed,
    };
    let _ = s.size();
    let start = coerce(alloc, closed, s, scratch)?;
    let order = order_of(alloc, program)?;
    let mut shared = shared_sets(&x)?;
    let job = job_of(&x, &mut shared, &order, edge_at(program, edge).action, true)?;
    step_from(&x, &job, start.as_slice(), scratch)
}
