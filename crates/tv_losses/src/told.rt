//! What is told of losses.

ghost use Rattle.std.specs.Prelude.{◌≡◌, ◌↔◌, [], ◌∷◌, ◌++◌, IsTrue, OnOk, if◌then◌else◌};

use std::alloc::AllocError;
use tv_model::Items;

/// Places in a list, from 0 on.
pub type Places = Items<usize>;

/// Puts the place behind the others, if the flag is set.
pub(crate) fn push_if(places: &mut Places, on: bool, place: usize) -> Result<(), AllocError>
    ensures { OnOk result (places.new ≡ (if on then places.old ++ place ∷ [] else places.old)) }
{
    if !on {
        return Ok(());
    }
    places.push(place)
}

/// An edge along which structures are lost: how many of how many that are listed at its source, and the place
/// of the first of them.
#[derive(Clone, Copy, Debug, PartialEq, Eq)]
pub struct EdgeLoss {
    pub edge: u32,
    pub lost: usize,
    pub listed: usize,
    pub first: usize,
}

/// A list of such edges.
pub type EdgeLosses = Items<EdgeLoss>;

/// What an analysis may owe its silence to, in the order of the files.
#[derive(Debug, Drop)]
pub struct Losses {
    /// The initial structures that have no opening.
    pub initial: Places,
    /// The nodes at which nothing is listed.
    pub nodes: Places,
    pub edges: EdgeLosses,
}

impl Losses {
    /// Whether nothing is lost.
    pub fn are_none(&self) -> bool
        ensures { IsTrue result ↔ ((self.now.initial ≡ []) × (self.now.nodes ≡ []) × (self.now.edges ≡ [])) }
    {
        self.initial.as_slice().is_empty()
            && self.nodes.as_slice().is_empty()
            && self.edges.as_slice().is_empty()
    }
}
