//! The individuals that a step picks.

ghost use Rattle.std.specs.Prelude.{◌<◌, IfSome, IfNone};
ghost use Rattle.std.specs.List.{AllByRecursion};
ghost use Rattle.tv_model.specs.Program.{picks_of};
ghost use Rattle.tv_replay_step.specs.Picked.{AreOneEach, PutsPicked};

use tv_eval::Assignment;
use tv_model::Var;

/// The assignment with the chosen individuals put for the picked variables, one after the other; none where
/// they aren't one individual of a heap of that size for each variable.
pub fn put_picked(a: Assignment, picks: &[Var], chosen: &[u32], size: u32) -> Option<Assignment>
    requires { AllByRecursion (λ v. v.0 < 32) picks.now }
    ensures some { IfSome result (PutsPicked size a (picks_of picks.now) chosen.now) }
    ensures none { IfNone result (¬ AreOneEach size (picks_of picks.now) chosen.now) }
{
    match picks {
        [] => { if chosen.is_empty() { Some(a) } else { None } }
        [v, vars @ ..] => match chosen {
            [] => None,
            [u, us @ ..] => {
                if *u < size {
                    put_picked(a.with(*v, *u), vars, us, size)
                } else {
                    None
                }
            }
        },
    }
}
