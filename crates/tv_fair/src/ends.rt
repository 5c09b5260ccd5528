//! The ends of a step.

use tv_concrete::{HeapList, Values};

/// What the variables stand for in a step, and the heaps before and behind it.
#[derive(Clone, Copy)]
pub struct Ends<'a> {
    pub picked: Values,
    pub old: &'a HeapList,
    pub new: &'a HeapList,
}
