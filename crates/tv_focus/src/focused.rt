//! What a stage of focus makes of a structure.

use crate::aim::Aim;
use crate::sets::Sets;
use tv_model::PredId;
use tv_struct::{Structure, Structures};

/// Choices that aren't made yet: the predicate, at which tuples of an individual it is made definite, and the
/// sets of vectors that each individual may be given, in order.
#[derive(Debug, Drop)]
pub struct Choosing {
    pub pred: PredId,
    pub aim: Aim,
    pub sets: Vec<Sets>,
}

/// What a stage of focus makes of a structure.
#[derive(Debug, Drop)]
pub enum Focused {
    /// The structure itself: the atom's values are known.
    Same(Structure),
    /// The structure, and one for each choice, in order.
    Choices(Structure, Structures),
    /// The structure, and its choices, of which there are more than a few.
    Many(Structure, Choosing),
}
