//! What is applied to a structure.

use tv_eval::Assignment;
use tv_model::{Action, Mode, Program};

/// An action of a program, applied in a mode under individuals for its picked variables.
#[derive(Clone, Copy, Debug)]
pub struct Application<'a> {
    pub program: &'a Program,
    pub action: &'a Action,
    pub mode: Mode,
    pub picks: &'a Assignment,
}
