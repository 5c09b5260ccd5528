//! Goals, by what one step tells of them.

ghost use Rattle.std.specs.Prelude.{◌≡◌, ◌↔◌, IsTrue, Some, slice_get};
ghost use Rattle.tv_trail.specs.Aims.{Raises, IsThere};

use std::cmp::Ordering;
use tv_kleene::K3;
use tv_struct::Structure;
use tv_trail_laws::Goal;

/// Whether the value of that number is there, and is this one.
fn has_value(values: &[K3], number: usize, value: K3) -> bool
    ensures { IsTrue result ↔ (slice_get values.now number ≡ Some value) }
{
    match values.get(number).copied() {
        None => false,
        Some(k) => k == value,
    }
}

/// Whether the goal is a message of the edge, and its value among these is that of the goal.
pub(crate) fn raises(goal: &Goal, edge: u32, values: &[K3]) -> bool
    ensures { IsTrue result ↔ Raises goal.now edge values.now }
{
    match *goal {
        Goal::Structure { .. } => false,
        Goal::Message {
            edge: asked,
            number,
            value,
        } => asked == edge && has_value(values, number as usize, value),
    }
}

/// Whether the goal is this structure at this node.
pub(crate) fn is_there(goal: &Goal, node: u32, s: &Structure) -> bool
    ensures { IsTrue result ↔ IsThere goal.now node s.now }
{
    match *goal {
        Goal::Message { .. } => false,
        Goal::Structure {
            node: asked,
            structure,
        } => asked == node && s.compare(structure) == Ordering::Equal,
    }
}
