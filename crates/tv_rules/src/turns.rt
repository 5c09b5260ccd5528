//! Which closed rules are best tried first, and which last. Hints, of which nothing is promised.

use crate::entries::Entry;
use std::alloc::{AllocError, Global};
use tv_coerce_members::{Shape, Step};
use tv_row::Flags;

/// When a rule that waits is tried: one of a later turn when none of an earlier one waits.
#[derive(Clone, Copy, Debug, PartialEq, Eq)]
pub enum Turn {
    First,
    Later,
    Last,
}

/// Whether the other turn isn't before that one.
fn is_from(turn: Turn, other: Turn) -> bool {
    match turn {
        Turn::First => true,
        Turn::Later => other != Turn::First,
        Turn::Last => other == Turn::Last,
    }
}

/// Whether a member that is tested isn't a literal.
fn has_other(steps: &[Step]) -> bool {
    for step in steps {
        if !step.literal {
            return true;
        }
    }
    false
}

/// Whether a rule of that shape has a member that is no literal, and at most one variable.
fn is_slow(shape: &Shape) -> bool {
    match shape.levels.as_slice() {
        [level] => shape.variables.len() < 2
            && (has_other(level.own.as_slice()) || has_other(level.last.as_slice())),
        _ => false,
    }
}

/// When a closed rule of that shape is tried: the more variables, the more it settles at once, and a slow one
/// would be asked about once more after each change that others make.
fn turn_of(shape: &Shape) -> Turn {
    if is_slow(shape) {
        return Turn::Last;
    }
    if shape.variables.len() < 3 {
        Turn::Later
    } else {
        Turn::First
    }
}

/// The flags of the rules, of those that are kept so, whose turn is as late as that, or later.
pub fn tried_from(
    alloc: Global,
    turn: Turn,
    shapes: &[Shape],
    entries: &[Entry],
) -> Result<Flags, AllocError> {
    let mut flags = Flags::of(alloc, entries.len(), false)?;
    for (number, entry) in entries.iter().enumerate() {
        if entry.base < shapes.len() && is_from(turn, turn_of(&shapes[entry.base])) {
            flags.put(number, true);
        }
    }
    Ok(flags)
}
