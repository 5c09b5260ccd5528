//! The lines of a report, so that they are found without a walk over all.

ghost use Rattle.std.specs.Prelude.{◌≡◌, ◌<◌, ◌^◌, ◌↔◌, IsTrue, All, IfOk, OnOk, length};
ghost use Rattle.std.specs.Option.{option_map};
ghost use Rattle.tv_judge.specs.Index.{IsLineIndex, IsMessageIndex, NotesLine, line_at};

use indexmap::{IndexMap, IndexSet};
use std::alloc::{AllocError, Global};
use tv_listing::{Item, Listing, MapLine, MessageLine};

/// The first map line of each item.
pub type LinesByItem<'a> = IndexMap<Item, &'a MapLine>;

/// The messages that have a line, by edge and number.
pub type Said = IndexSet<(u32, u32)>;

/// The first place at a node of a listed structure with that signature.
pub type PlacesBySignature = IndexMap<(u32, u64), u32>;

/// Notes the line where there is none for its item yet.
fn note_line<'a>(index: &mut LinesByItem<'a>, line: &'a MapLine) -> Result<(), AllocError>
    ensures { OnOk result (NotesLine index.old.entries line.now index.new.entries) }
{
    if !index.contains_key(&line.item) {
        index.insert(line.item, line)?;
    }
    Ok(())
}

/// The first line of each item.
pub fn lines_by_item<'a>(alloc: Global, lines: &'a [MapLine]) -> Result<LinesByItem<'a>, AllocError>
    ensures { IfOk result (λ index. IsLineIndex index.entries lines.now) }
{
    let mut index = IndexMap::new(alloc);
    for line in lines {
        note_line(&mut index, line)?;
    }
    Ok(index)
}

/// The first of the lines that is for the item, if there is any.
pub fn line_of<'a>(index: &LinesByItem<'a>, item: Item) -> Option<&'a MapLine>
    ensures { option_map (λ line. line.now) result ≡ line_at index.now.entries item }
{
    index.get(&item).copied()
}

/// The messages that have a line.
pub fn said_in(alloc: Global, lines: &[MessageLine]) -> Result<Said, AllocError>
    ensures { IfOk result (λ said. IsMessageIndex said.keys lines.now) }
{
    let mut said = IndexSet::new(alloc);
    for line in lines {
        said.insert((line.edge, line.number))?;
    }
    Ok(said)
}

/// Notes the place of a signature at a node where there is none yet.
fn note_place(
    places: &mut PlacesBySignature,
    key: (u32, u64),
    place: u32,
) -> Result<(), AllocError> {
    if !places.contains_key(&key) {
        places.insert(key, place)?;
    }
    Ok(())
}

/// Notes the places of all structures at the node.
fn note_node(places: &mut PlacesBySignature, listing: &Listing, node: u32) -> Result<(), AllocError>
    requires node { node < length listing.now }
    requires counts { All (λ structures. length structures < 2 ^ 32) listing.now }
{
    for place in 0..listing.count(node) {
        let signature = listing.at(node, place).signature();
        note_place(places, (node, signature), place as u32)?;
    }
    Ok(())
}

/// The places of listed structures by their signatures, at the nodes below `nodes`: a hint, of which nothing
/// is promised, since what is found by it is compared.
pub fn places_by_signature(
    alloc: Global,
    listing: &Listing,
    nodes: usize,
) -> Result<PlacesBySignature, AllocError>
    requires nodes { nodes ≡ length listing.now }
    requires few { nodes < 2 ^ 32 }
    requires counts { All (λ structures. length structures < 2 ^ 32) listing.now }
{
    let mut places = IndexMap::new(alloc);
    for node in 0..nodes {
        note_node(&mut places, listing, node as u32)?;
    }
    Ok(places)
}
