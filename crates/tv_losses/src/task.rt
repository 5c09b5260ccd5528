//! What losses are looked for in.

use std::alloc::Global;
use tv_listing::Listing;
use tv_model::{Mode, Program};
use tv_struct::Structure;

/// A program in a mode, the initial structures, and what the analysis listed.
#[derive(Clone, Copy)]
pub(crate) struct Task<'a, 'b> {
    pub alloc: Global,
    pub program: &'a Program,
    pub mode: Mode,
    pub initial: &'a [Structure],
    pub listing: &'b Listing,
}
