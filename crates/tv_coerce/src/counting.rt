//! Members of a base rule are counted, one by one.

ghost use Rattle.std.specs.Prelude.{◌≡◌, ◌≢◌, ℕ, Bool, Some, All, slice_get};
ghost use Rattle.tv_kleene.specs.declared.K3.TheVariants.{Yes};
ghost use Rattle.tv_eval.specs.AssignmentForm.{assignment_of};
ghost use Rattle.tv_eval.specs.Bound.{bound_structure, bound_room};
ghost use Rattle.tv_eval_laws.specs.Value.{value};
ghost use Rattle.tv_coerce_members.specs.Members.{AreSteps, MemberForm};
ghost use Rattle.tv_structure_form.specs.StructureForm.{structure_of};
ghost use Rattle.tv_coerce.specs.Counting.{CanTest, CountTells, IsAt, IsBarring, IsIdle, Lacks, counted};
ghost use Rattle.tv_coerce.specs.Counting.{members_in};
ghost use Rattle.tv_coerce.specs.Counting.{count_of};
ghost use Rattle.tv_coerce.specs.Lacking.{CanValue, IsLacking, lacking_too};

use crate::trial::{Trial, is_no};
use tv_coerce_members::Step;
use tv_eval::{Assignment, Evaluator};
use tv_kleene::K3;

/// How two counts count together.
fn counted(j: K3, k: K3) -> K3
    ensures { result ≡ counted j k }
{
    match j {
        K3::No => K3::No,
        K3::Half => { if k == K3::Yes { K3::Half } else { K3::No } }
        K3::Yes => k,
    }
}

/// How the value of a member counts.
fn count_of(literal: bool, k: K3) -> K3
    ensures { result ≡ count_of literal k }
{
    if literal || k == K3::Yes { k } else { K3::No }
}

/// How the step's member counts.
fn count_step<'a>(
    trial: &Trial<'a, '_>,
    evaluator: &mut Evaluator<'_, 'a>,
    step: &Step,
    a: &Assignment,
) -> K3
    requires structure { bound_structure evaluator.old ≡ trial.now.structure.now }
    requires can { CanTest trial.now (bound_room evaluator.old) a.now step.now }
    ensures tells { (m : MemberForm) → slice_get (members_in trial.now) step.now.member ≡ Some m
        → CountTells (value (structure_of trial.now.structure.now) (assignment_of a.now) m.form ≢ Yes)
        (IsBarring trial.now.structure.now (assignment_of a.now) m) result }
    ensures same { evaluator.new ≡ evaluator.old }
{
    let members = trial.shape.members.as_slice();
    count_of(
        step.literal,
        evaluator.value(&members[step.member].formula, a),
    )
}

/// How the members that are tested together count.
pub(crate) fn count<'a>(
    trial: &Trial<'a, '_>,
    evaluator: &mut Evaluator<'_, 'a>,
    steps: &[Step],
    a: &Assignment,
) -> K3
    requires structure { bound_structure evaluator.old ≡ trial.now.structure.now }
    requires can { All (CanTest trial.now (bound_room evaluator.old) a.now) steps.now }
    ensures tells { (left : ℕ) (last : Bool) → AreSteps (members_in trial.now) left last steps.now
        → CountTells
        (Lacks (IsAt left last) trial.now.structure.now (assignment_of a.now) (members_in trial.now))
        (IsIdle (IsAt left last) trial.now.structure.now (assignment_of a.now)
        (members_in trial.now)) result }
    ensures same { evaluator.new ≡ evaluator.old }
{
    let mut found = K3::Yes;
    for step in steps {
        found = counted(found, count_step(trial, evaluator, step, a));
        if is_no(found) {
            return found;
        }
    }
    found
}

/// Which members aren't `Yes`.
#[derive(Clone, Copy, Debug, PartialEq, Eq)]
pub(crate) enum Missing {
    Nothing,
    /// The one of that number.
    Member(usize),
    Several,
}

/// The members that aren't `Yes`: those so far, and the one of that number, if its value isn't.
fn lacking_too(found: Missing, number: usize, value: K3) -> Missing
    ensures { result ≡ lacking_too found number value }
{
    if value == K3::Yes {
        return found;
    }
    match found {
        Missing::Nothing => Missing::Member(number),
        Missing::Member(_) | Missing::Several => Missing::Several,
    }
}

/// Which members aren't `Yes` under the assignment.
pub(crate) fn lacking<'a>(
    trial: &Trial<'a, '_>,
    evaluator: &mut Evaluator<'_, 'a>,
    a: &Assignment,
) -> Missing
    requires structure { bound_structure evaluator.old ≡ trial.now.structure.now }
    requires can { CanValue trial.now (bound_room evaluator.old) a.now }
    ensures lacking { IsLacking trial.now.structure.now (assignment_of a.now) (members_in trial.now) result }
    ensures same { evaluator.new ≡ evaluator.old }
{
    let members = trial.shape.members.as_slice();
    let mut found = Missing::Nothing;
    for number in 0..members.len() {
        let value = evaluator.value(&members[number].formula, a);
        found = lacking_too(found, number, value);
    }
    found
}
