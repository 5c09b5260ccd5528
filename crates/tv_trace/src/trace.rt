//! What a trace says.

use tv_model::Items;
use tv_struct::{Numbers, Structure};

/// One step of a run.
#[derive(Debug, Drop)]
pub struct Move {
    /// The number of the edge that is taken.
    pub edge: u32,
    /// The individuals that stand for the picked variables of the edge's action, in their order.
    pub picks: Numbers,
    /// A structure whose values the freely updated predicates get; all else in it is without effect.
    pub values: Option<Structure>,
}

/// A list of moves.
pub type Moves = Items<Move>;

/// The steps of a run, in order.
#[derive(Debug, Drop)]
pub struct Trace {
    pub moves: Moves,
}
