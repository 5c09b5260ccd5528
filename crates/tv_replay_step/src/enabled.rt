//! Whether the precondition of an action is true.

ghost use Rattle.std.specs.Prelude.{◌≡◌, ◌↔◌, IfSome, IsTrue};
ghost use Rattle.tv_eval.specs.AssignmentForm.{assignment_of};
ghost use Rattle.tv_model.specs.Form.{form_of};
ghost use Rattle.tv_model.specs.Program.{action_of};
ghost use Rattle.tv_model.specs.Truth.{Truth};
ghost use Rattle.tv_two_valued.specs.TwoValued.{heap_of};
ghost use Rattle.tv_replay_step.specs.Ready.{CanAsk};

use tv_eval::{Assignment, Evaluator, Scratch};
use tv_model::{Action, Formula};
use tv_struct::Structure;
use tv_two_valued::holds;

/// Whether the formula is true in the heap that `s` stands for. The scratch is given back as it was.
fn is_true(f: &Formula, s: &Structure, picks: &Assignment, scratch: &mut Scratch) -> bool
    requires { CanAsk s.now picks.now scratch.old (form_of f.now) }
    ensures truth { IsTrue result ↔ Truth (heap_of s.now) (assignment_of picks.now) (form_of f.now) }
    ensures scratch { scratch.new ≡ scratch.old }
{
    let mut evaluator = Evaluator::new(s, scratch);
    let answer = holds(&mut evaluator, f, picks);
    evaluator.finish(scratch);
    answer
}

/// Whether the action's precondition is true in the heap that `s` stands for; an action without one may
/// always be made. The scratch is given back as it was.
pub fn is_enabled(action: &Action, s: &Structure, picks: &Assignment, scratch: &mut Scratch) -> bool
    requires { IfSome (action_of action.now).pre (CanAsk s.now picks.now scratch.old) }
    ensures enabled { IsTrue result
        ↔ IfSome (action_of action.now).pre (Truth (heap_of s.now) (assignment_of picks.now)) }
    ensures scratch { scratch.new ≡ scratch.old }
{
    match &action.pre {
        None => true,
        Some(pre) => is_true(pre, s, picks, scratch),
    }
}
