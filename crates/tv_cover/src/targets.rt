//! The structures of a node, and the first of them that covers a structure.

ghost use Rattle.std.specs.Prelude.{◌≡◌, ◌<◌, ◌^◌, ℕ, length, All, Any, Contains, Some, slice_get, IfOk};
ghost use Rattle.std.specs.Prelude.{IfSome, IfNone};
ghost use Rattle.std.specs.List.Sorted.{IsNonDecreasing};
ghost use Rattle.tv_embed.specs.Maps.{IsLeastEmbedding};
ghost use Rattle.tv_embedding_laws.specs.Embedding.{IsEmbedded};
ghost use Rattle.tv_listing.specs.ListingForm.{at_node};
ghost use Rattle.tv_structure_form.specs.StructureForm.{StructureForm, arities_of, structure_of};
ghost use Rattle.tv_cover.specs.Covers.{IsFirstCover, IsCoverAt, HasNoCoverAt, HasCoversAmong};
ghost use Rattle.tv_cover.specs.Glance.{IsOnlyMap, glance_of};
ghost use Rattle.tv_cover.specs.Indexed.{AreIndexed, glances_of};
ghost use Rattle.tv_cover.specs.Listed.{structures_in};

use crate::glance::{Glance, glance_of};
use crate::noted::Noted;
use std::alloc::{AllocError, Global};
use std::marker::Model;
use tv_embed::{check_map, find};
use tv_listing::Listing;
use tv_struct::{Numbers, Structure};

/// The structures that are listed at a node, noted by what they say at a glance: the values of the nullary
/// predicates, and which values of the others are about some individual. A structure embeds only in those
/// that say the same as it, but for predicates of which they leave a value open. A contract sees the list of
/// the structures.
#[derive(Drop)]
pub struct Targets<'a> {
    listing: &'a Listing,
    node: u32,
    noted: Noted,
}

impl<'a> Model for Targets<'a> {
    ghost use Rattle.std.specs.Prelude.{List, ◌≡◌, ◌<◌, length};
    ghost use Rattle.tv_listing.specs.ListingForm.{at_node};
    ghost use Rattle.tv_structure_form.specs.StructureForm.{StructureForm};
    ghost use Rattle.tv_cover.specs.Indexed.{AreIndexed, glances_of};

    ghost Value = { List StructureForm };

    ghost view = { λ t. at_node t.listing.now t.node };

    ghost invariant = { λ t. (t.node < length t.listing.now)
        × AreIndexed t.noted (glances_of (at_node t.listing.now t.node)) };
}

/// The structures of a node.
#[derive(Clone, Copy)]
pub struct Listed<'a> {
    pub listing: &'a Listing,
    pub node: u32,
}

/// All places, noted for what is said at a glance there.
fn all_noted(alloc: Global, listing: &Listing, node: u32) -> Result<Noted, AllocError>
    requires { node < length listing.now }
    ensures { IfOk result (λ noted. AreIndexed noted (glances_of (at_node listing.now node))) }
{
    let mut noted = Noted::new(alloc);
    for place in 0..listing.count(node) {
        let glance = glance_of(alloc, listing.at(node, place))?;
        noted.add(alloc, &glance, place)?;
    }
    Ok(noted)
}

/// The places of the structures that one that says this at a glance may embed in, in ascending order.
fn places_for(
    alloc: Global,
    x: &Listed,
    noted: &Noted,
    s: &Structure,
    glance: &Glance,
) -> Result<Vec<usize>, AllocError>
    requires vocabulary { All (λ t. arities_of s.now ≡ arities_of t) (structures_in x.now) }
    requires noted { AreIndexed noted.now (glances_of (structures_in x.now)) }
    requires glance { glance.now ≡ glance_of s.now }
    ensures each { IfOk result (λ places. HasCoversAmong (structures_in x.now) s.now places.items) }
    ensures order { IfOk result (λ places. IsNonDecreasing places.items) }
{
    noted.places(alloc, glance)
}

/// The map where it is an embedding, which no other can be.
fn checked(s: &Structure, t: &Structure, map: Numbers) -> Option<Numbers>
    requires vocabulary { arities_of s.now ≡ arities_of t.now }
    requires only { IsOnlyMap (glance_of s.now) (glance_of t.now) map }
    ensures least { IfSome result (IsLeastEmbedding s.now t.now) }
    ensures none { IfNone result (¬ IsEmbedded (structure_of s.now) (structure_of t.now)) }
{
    if check_map(s, t, map.as_slice()) {
        Some(map)
    } else {
        None
    }
}

/// The least embedding of `s`, which says this at a glance, in `t`: mostly only one map may be one. What `t`
/// says is found anew, since few structures are tried, and to keep it for all takes much room.
fn least_embedding(
    alloc: Global,
    s: &Structure,
    below: &Glance,
    t: &Structure,
) -> Result<Option<Numbers>, AllocError>
    requires vocabulary { arities_of s.now ≡ arities_of t.now }
    requires below { below.now ≡ glance_of s.now }
    ensures least { IfOk result (λ found. IfSome found (IsLeastEmbedding s.now t.now)) }
    ensures none { IfOk result
        (λ found. IfNone found (¬ IsEmbedded (structure_of s.now) (structure_of t.now))) }
{
    let above = glance_of(alloc, t)?;
    if !below.may_embed(&above) {
        return Ok(None);
    }
    match below.only_map(alloc, &above)? {
        Some(map) => Ok(checked(s, t, map)),
        None => find(alloc, s, t),
    }
}

/// The least embedding of `s`, which says this at a glance, in `t`. Where individuals are alike in it, mostly
/// several maps may be one, and what `t` says isn't looked at.
fn embedding_in(
    alloc: Global,
    s: &Structure,
    below: &Glance,
    are_alike: bool,
    t: &Structure,
) -> Result<Option<Numbers>, AllocError>
    requires vocabulary { arities_of s.now ≡ arities_of t.now }
    requires below { below.now ≡ glance_of s.now }
    ensures least { IfOk result (λ found. IfSome found (IsLeastEmbedding s.now t.now)) }
    ensures none { IfOk result
        (λ found. IfNone found (¬ IsEmbedded (structure_of s.now) (structure_of t.now))) }
{
    if are_alike {
        find(alloc, s, t)
    } else {
        least_embedding(alloc, s, below, t)
    }
}

/// The least embedding in the structure at the place.
fn cover_at(
    alloc: Global,
    x: &Listed,
    place: usize,
    s: &Structure,
    glance: &Glance,
    are_alike: bool,
) -> Result<Option<Numbers>, AllocError>
    requires node { x.now.node < length x.now.listing.now }
    requires vocabulary { All (λ t. arities_of s.now ≡ arities_of t) (structures_in x.now) }
    requires glance { glance.now ≡ glance_of s.now }
    ensures some { IfOk result (λ found. IfSome found (IsCoverAt (structures_in x.now) s.now place)) }
    ensures none { IfOk result (λ found. IfNone found (HasNoCoverAt (structures_in x.now) s.now place)) }
{
    if place >= x.listing.count(x.node) {
        return Ok(None);
    }
    embedding_in(alloc, s, glance, are_alike, x.listing.at(x.node, place))
}

/// The first structure of the node in which `s` embeds, by its place, with the least embedding.
fn first_cover(
    alloc: Global,
    x: &Listed,
    noted: &Noted,
    s: &Structure,
) -> Result<Option<(u32, Numbers)>, AllocError>
    requires node { x.now.node < length x.now.listing.now }
    requires vocabulary { All (λ t. arities_of s.now ≡ arities_of t) (structures_in x.now) }
    requires noted { AreIndexed noted.now (glances_of (structures_in x.now)) }
    requires few { length (structures_in x.now) < 2 ^ 32 }
    ensures some { IfOk result
        (λ found. IfSome found (λ y. IsFirstCover (structures_in x.now) s.now y.0 y.1)) }
    ensures none { IfOk result (λ found. IfNone found
        (¬ Any (λ t. IsEmbedded (structure_of s.now) (structure_of t)) (structures_in x.now))) }
{
    let glance = glance_of(alloc, s)?;
    let are_alike = glance.has_repeats();
    let places = places_for(alloc, x, noted, s, &glance)?;
    for place in places.as_slice() {
        if let Some(map) = cover_at(alloc, x, *place, s, &glance, are_alike)? {
            return Ok(Some((*place as u32, map)));
        }
    }
    Ok(None)
}

impl<'a> Targets<'a> {
    /// The structures of the node. The only error is lack of memory.
    fn of(alloc: Global, listing: &'a Listing, node: u32) -> Result<Targets<'a>, AllocError>
        requires { node < length listing.now }
        ensures { IfOk result (λ targets. targets ≡ at_node listing.now node) }
    {
        let noted = all_noted(alloc, listing, node)?;
        Ok(Targets {
            listing,
            node,
            noted,
        })
    }

    /// The first of the structures in which `s` embeds, by its place, with the lexicographically least
    /// embedding, as the list of the images of the individuals of `s` in order; none exactly where it embeds
    /// in none. The only error is lack of memory.
    ///
    /// Only structures that may cover `s` by what they say at a glance are tried, in their order.
    pub fn first_cover(
        &self,
        alloc: Global,
        s: &Structure,
    ) -> Result<Option<(u32, Numbers)>, AllocError>
        requires vocabulary { All (λ t. arities_of s.now ≡ arities_of t) self.now }
        requires few { length self.now < 2 ^ 32 }
        ensures some { IfOk result (λ found. IfSome found (λ x. IsFirstCover self.now s.now x.0 x.1)) }
        ensures none { IfOk result (λ found. IfNone found
            (¬ Any (λ t. IsEmbedded (structure_of s.now) (structure_of t)) self.now)) }
    {
        let x = Listed {
            listing: self.listing,
            node: self.node,
        };
        first_cover(alloc, &x, &self.noted, s)
    }
}

/// The structures of each node. The only error is lack of memory.
pub fn all_targets<'a>(
    alloc: Global,
    listing: &'a Listing,
    nodes: usize,
) -> Result<Vec<Targets<'a>>, AllocError>
    requires nodes { nodes ≡ length listing.now }
    requires few { nodes < 2 ^ 32 }
    ensures { IfOk result (λ targets. targets.items ≡ listing.now) }
{
    let mut targets = Vec::with_capacity(alloc, nodes)?;
    for node in 0..nodes {
        targets.push(Targets::of(alloc, listing, node as u32)?)?;
    }
    Ok(targets)
}
