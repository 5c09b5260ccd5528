//! What an analysis answers: its listing, its messages, and the maps that a report names.

use crate::listing::Listing;
use tv_kleene::K3;
use tv_model::Items;
use tv_struct::Numbers;

/// A message that may be true: its number among those of the edge's action, and the greatest value of
/// its condition.
#[derive(Clone, Copy, Debug, PartialEq, Eq)]
pub struct MessageLine {
    pub edge: u32,
    pub number: u32,
    pub value: K3,
}

/// A list of message lines.
pub type MessageLines = Items<MessageLine>;

/// What has to be covered: the opening of an initial structure, or a result of a listed structure
/// along an edge.
#[derive(Clone, Copy, Debug, PartialEq, Eq, PartialOrd, Ord, Hash)]
pub enum Item {
    Initial(u32),
    Result {
        edge: u32,
        structure: u32,
        result: u64,
    },
}

/// An item, the place of the listed structure that covers it, and the map of its individuals.
#[derive(Debug, Drop)]
pub struct MapLine {
    pub item: Item,
    pub target: u32,
    pub map: Numbers,
}

/// A list of map lines.
pub type MapLines = Items<MapLine>;

/// What an analysis lists and reports.
#[derive(Drop)]
pub struct Analysis {
    pub listing: Listing,
    pub messages: MessageLines,
    pub maps: MapLines,
}

/// The first demand of a closed report that a report doesn't meet: an item that isn't covered, or a
/// message that may be true and has no line.
#[derive(Clone, Copy, Debug, PartialEq, Eq)]
pub enum Rejection {
    /// The opening of the initial structure of this number.
    Initial(u32),
    /// A result along the edge, by its place among the results of the listed structure of this place.
    Result {
        edge: u32,
        structure: u32,
        result: u64,
    },
    /// The message of the edge.
    Message {
        edge: u32,
        number: u32,
    },
}
