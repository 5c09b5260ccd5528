//! What stages are recorded of.

use std::alloc::Global;
use tv_eval::Scratch;
use tv_losses_unmet::Declared;
use tv_model::{Mode, Program};
use tv_rules::Closed;
use tv_step::Stepper;

/// A program in a mode, and its closed rules.
#[derive(Clone, Copy)]
pub(crate) struct Task<'a, 'b> {
    pub alloc: Global,
    pub program: &'a Program,
    pub mode: Mode,
    pub closed: &'b Closed,
}

/// What tries rules, declarations and whole steps of a program.
#[derive(Drop)]
pub(crate) struct Tools<'a> {
    pub declared: Declared<'a>,
    pub scratch: Scratch,
    pub stepper: Stepper<'a>,
}
