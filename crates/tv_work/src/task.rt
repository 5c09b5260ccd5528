//! What a search is asked, and what it goes by.

use std::alloc::Global;
use tv_model::{Mode, Program};
use tv_struct::{Numbers, Structure};

/// A program and a mode, the initial structures, and how many structures may be listed; for each node the
/// numbers of the edges that leave it.
#[derive(Clone, Copy)]
pub struct Task<'a, 'b> {
    pub alloc: Global,
    pub program: &'a Program,
    pub leaving: &'b [Numbers],
    pub initial: &'a [Structure],
    pub mode: Mode,
    pub max: u64,
}
