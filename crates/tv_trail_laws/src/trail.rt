//! Trails, and what they lead to.

use tv_kleene::K3;
use tv_model::Items;
use tv_struct::Structure;

/// A step of a trail: the edge that is taken, by its number, and the structure that comes of it at the edge's
/// target.
#[derive(Debug, Drop)]
pub struct Link {
    pub edge: u32,
    pub structure: Structure,
}

/// A list of links.
pub type Links = Items<Link>;

/// An abstract run: the number of an initial structure, its opening at node 0, and what follows.
#[derive(Debug, Drop)]
pub struct Trail {
    pub initial: usize,
    pub opening: Structure,
    pub links: Links,
}

/// Where a trail is to end.
#[derive(Clone, Copy)]
pub enum Goal<'a> {
    /// At a structure for which the message of this number among those of the edge's action has this value.
    Message { edge: u32, number: u32, value: K3 },
    /// At this structure at this node; marks don't count.
    Structure { node: u32, structure: &'a Structure },
}

/// How a structure was met: as the opening of the initial structure of this number, or as a result of one
/// that was met before, at that place, along an edge.
#[derive(Clone, Copy, Debug, PartialEq, Eq)]
pub enum Origin {
    Initial(usize),
    Step { before: usize, edge: u32 },
}
