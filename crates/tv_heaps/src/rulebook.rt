//! What heaps are judged by.

use std::alloc::Global;
use tv_model::{Program, Rules};
use tv_rules::Closed;

/// A program, and the rules by which heaps of it are found and judged.
#[derive(Clone, Copy)]
pub struct Rulebook<'a> {
    pub alloc: Global,
    /// A valid program.
    pub program: &'a Program,
    /// Its closed rules.
    pub closed: &'a Closed,
    /// The rules that its properties stand for, predicate by predicate.
    pub properties: &'a Rules,
}
