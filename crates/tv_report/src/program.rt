//! What a report speaks of in a program.

ghost use Rattle.std.specs.Prelude.{◌≡◌};
ghost use Rattle.std.specs.Option.{option_map};
ghost use Rattle.tv_model.specs.Program.{program_of, message_of};
ghost use Rattle.tv_report.specs.Lines.{message_at};

use tv_model::{Message, Program};

/// The message of an edge's action, by both numbers.
pub(crate) fn message(program: &Program, edge: u32, number: u32) -> Option<&Message>
    ensures { option_map (λ m. message_of m.now) result ≡ message_at (program_of program.now) edge number }
{
    let edge = program.edges.as_slice().get(edge as usize)?;
    let action = program.actions.as_slice().get(edge.action as usize)?;
    action.messages.as_slice().get(number as usize)
}
