//! What a step is asked of.

ghost use Rattle.std.specs.Prelude.{◌≤◌, length};

use crate::{HeapList, Values};
use tv_model::{Action, Mode, Program};

/// An action of a program in a mode. The program has at most 512 predicates.
#[derive(Clone, Copy)]
pub struct Acting<'a> {
    pub program: &'a Program,
    pub mode: Mode,
    pub action: &'a Action,
    ghost few: { length program.now.vocab.preds ≤ 512 },
}

/// What the variables stand for in a step, and the heaps before, amid and behind it.
#[derive(Clone, Copy)]
pub struct Step<'a> {
    pub picked: Values,
    pub old: &'a HeapList,
    pub middle: &'a HeapList,
    pub new: &'a HeapList,
}
