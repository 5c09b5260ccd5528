//! What steps of small heaps are made and judged by.

use tv_model::{Mode, Rules};
use tv_replay_step::Ordered;

/// What steps of small heaps are made and judged by.
#[derive(Clone, Copy)]
pub struct Walker<'a> {
    /// A valid program, with an order of its definitions.
    pub ordered: Ordered<'a>,
    /// The rules that the properties of its predicates stand for, predicate by predicate.
    pub properties: &'a Rules,
    pub mode: Mode,
    /// How many individuals a heap may have.
    pub cells: u32,
}
