//! Actions, made ready for steps.

ghost use Rattle.std.specs.Prelude.{◌≡◌, ◌<◌, ◌^◌, length, slice_get, IfOk, OnOk, Some};
ghost use Rattle.tv_model.specs.Program.{action_of, program_of};
ghost use Rattle.tv_model.specs.Valid.{IsValid};
ghost use Rattle.tv_rules.specs.Closing.{closed_rules};
ghost use Rattle.tv_rules.specs.EntryForms.{rules_of};
ghost use Rattle.tv_step.specs.Job.{AreJobs, IsJob};
ghost use Rattle.tv_step.specs.Setting.{form_in};
ghost use Rattle.tv_step.specs.Waiting.{IsShared};

use crate::focus::{Turn, turns};
use crate::setting::Setting;
use crate::waiting::{Shared, shared_sets, waiting_after};
use std::alloc::{AllocError, Global};
use std::rc::Rc;
use tv_coerce::RuleSet;
use tv_model::{Action, Edge, Items, Program};
use tv_rules::Numbers;
use tv_update::{Order, Plan, order_of, plan_for};

/// An action, made ready for steps: what these need of it that depends on no structure.
#[derive(Drop)]
pub struct Job<'a> {
    pub action: &'a Action,
    pub number: u32,
    /// The atoms of its focus formulas, in order.
    pub turns: Vec<Turn<'a>>,
    /// The rules that it may leave unmet in a structure that was stable: actions that may leave all so share
    /// them.
    pub waiting: Rc<RuleSet>,
    pub plan: Plan,
    /// By each predicate numbers of rules that came of its definition: actions share them.
    pub defining: Rc<Items<Numbers>>,
}

/// The greatest number of an action that an edge may name.
const MAX_NUMBER: usize = u32::MAX as usize;

/// The action of this number.
fn action_at(program: &Program, number: u32) -> &Action
    requires { number < length program.now.actions }
    ensures { slice_get (program_of program.now).actions number ≡ Some (action_of result.now) }
{
    &program.actions.as_slice()[number as usize]
}

/// The action of this number, made ready.
pub fn job_of<'a>(
    x: &Setting<'a, '_>,
    shared: &mut Shared,
    order: &Order,
    number: u32,
    is_named: bool,
) -> Result<Job<'a>, AllocError>
    requires valid { IsValid (form_in x.now) }
    requires rules { rules_of x.now.closed.now ≡ closed_rules (form_in x.now) }
    requires shared { IsShared (form_in x.now) (rules_of x.now.closed.now) shared.old }
    requires number { number < length x.now.program.now.actions }
    ensures job { IfOk result (IsJob x.now.program.now x.now.mode) }
    ensures number { IfOk result (λ job. job.number ≡ number) }
    ensures shared { OnOk result (IsShared (form_in x.now) (rules_of x.now.closed.now) shared.new) }
{
    let action = action_at(x.program, number);
    let turns = turns(x, shared, action.focus.as_slice())?;
    let waiting = waiting_after(x, shared, action, is_named)?;
    let plan = plan_for(x.alloc, x.program, order, number, x.mode)?;
    let defining = shared.defining.clone()?;
    Ok(Job {
        action,
        number,
        turns,
        waiting,
        plan,
        defining,
    })
}

/// For each action whether an edge names it.
fn named_flags(alloc: Global, program: &Program) -> Result<Vec<bool>, AllocError> {
    let mut named = vec![in alloc; false; program.actions.len()]?;
    for edge in program.edges.as_slice() {
        if let Some(flag) = named.get_mut(edge.action as usize) {
            *flag = true;
        }
    }
    Ok(named)
}

/// Whether the flag of this number is set.
fn is_set(flags: &[bool], number: usize) -> bool {
    flags.get(number).copied().unwrap_or(false)
}

/// All actions of the program, made ready, by their numbers.
pub fn jobs<'a>(x: &Setting<'a, '_>) -> Result<Vec<Job<'a>>, AllocError>
    requires valid { IsValid (form_in x.now) }
    requires rules { rules_of x.now.closed.now ≡ closed_rules (form_in x.now) }
    ensures { IfOk result (λ jobs. AreJobs x.now.program.now x.now.mode jobs.items) }
{
    let count = x.program.actions.len();
    let mut shared = shared_sets(x)?;
    let order = order_of(x.alloc, x.program)?;
    let named = named_flags(x.alloc, x.program)?;
    let mut jobs = Vec::with_capacity(x.alloc, count)?;
    for number in 0..count {
        let is_named = is_set(named.as_slice(), number);
        jobs.push(job_of(
            x,
            &mut shared,
            &order,
            number.min(MAX_NUMBER) as u32,
            is_named,
        )?)?;
    }
    Ok(jobs)
}

/// The edge of this number.
pub fn edge_at(program: &Program, edge: u32) -> Edge
    requires { edge < length program.now.edges }
    ensures { slice_get program.now.edges edge ≡ Some result }
{
    program.edges.as_slice()[edge as usize]
}

/// The action of this number, of those that were made ready.
pub fn job_at<'a, 'b>(jobs: &'b [Job<'a>], number: u32) -> &'b Job<'a>
    requires { number < length jobs.now }
    ensures job { slice_get jobs.now number ≡ Some result.now }
    ensures fits { number < 2 ^ 32 }
{
    &jobs[number as usize]
}
