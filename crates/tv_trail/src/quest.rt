//! What a trail is looked for by.

use std::alloc::Global;
use tv_model::{Mode, Program};
use tv_struct::Structures;
use tv_trail_laws::Goal;
use tv_work::Task;

/// A program and a mode, the initial structures, and how many structures may be met.
#[derive(Clone, Copy)]
pub(crate) struct Request<'a> {
    pub alloc: Global,
    pub program: &'a Program,
    pub initial: &'a Structures,
    pub mode: Mode,
    pub max: u64,
}

/// A task of the worklist, and the goal that a trail is to lead to.
#[derive(Clone, Copy)]
pub(crate) struct Quest<'a, 'b> {
    pub task: Task<'a, 'b>,
    pub goal: Goal<'b>,
}
