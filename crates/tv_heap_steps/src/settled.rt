//! Which programs leave nothing free.

ghost use Rattle.std.specs.Prelude.{◌≡◌, ◌↔◌, IsTrue, map};
ghost use Rattle.tv_heap_steps.specs.Settled.{AreAllSettled, AreSettled};
ghost use Rattle.tv_model.specs.Program.{CFree, action_of, update_of};

use tv_model::{Action, Change, Update};

/// Whether the update leaves its predicate free.
fn is_free(update: &Update) -> bool
    ensures { IsTrue result ↔ ((update_of update.now).change ≡ CFree) }
{
    match update.change {
        Change::Free => true,
        Change::To(_) => false,
    }
}

/// Whether no update leaves its predicate free.
fn are_settled(updates: &[Update]) -> bool
    ensures { IsTrue result ↔ AreSettled (map update_of updates.now) }
{
    for update in updates {
        if is_free(update) {
            return false;
        }
    }
    true
}

/// Whether no action leaves a predicate free.
pub fn are_all_settled(actions: &[Action]) -> bool
    ensures { IsTrue result ↔ AreAllSettled (map action_of actions.now) }
{
    for action in actions {
        if !are_settled(action.updates.as_slice()) {
            return false;
        }
    }
    true
}
