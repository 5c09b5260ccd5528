//! What a step goes by.

use std::alloc::Global;
use tv_model::{Mode, Program};
use tv_rules::Closed;

/// A program in a mode, its closed rules, and where memory comes from.
#[derive(Clone, Copy)]
pub struct Setting<'a, 'b> {
    pub alloc: Global,
    pub program: &'a Program,
    pub mode: Mode,
    pub closed: &'b Closed,
}
