//! What the tests of a report have found so far.

ghost use Rattle.std.specs.Prelude.{◌≡◌, ◌<◌, [], IsTrue, All, IfOk, IfSome, None, OnOk, Some};
ghost use Rattle.std.specs.Prelude.{length, slice_get};
ghost use Rattle.tv_listing.specs.ListingForm.{at_node};
ghost use Rattle.tv_judge.specs.Found.{IsStableAt, IsStableIn};
ghost use Rattle.tv_judge.specs.Index.{is_said};
ghost use Rattle.tv_judge.specs.Setting.{case_in};

use crate::setting::Setting;
use indexmap::IndexSet;
use std::alloc::{AllocError, Global};
use std::cmp::Ordering;
use tv_listing::{Listing, MapLines};
use tv_struct::Structure;

/// The lines of the items that are met, where they are asked for, and the listed structures that are known to
/// be stable, by node and place.
#[derive(Drop)]
pub struct Found {
    pub maps: MapLines,
    pub stable: IndexSet<(u32, u32)>,
}

impl Found {
    /// Nothing; takes no memory.
    pub fn new(alloc: Global) -> Found
        ensures maps { result.maps ≡ [] }
        ensures stable { result.stable.keys ≡ [] }
    {
        Found {
            maps: MapLines::new(alloc),
            stable: IndexSet::new(alloc),
        }
    }

    /// Whether the listed structure is noted as stable.
    pub fn is_stable(&self, node: u32, place: u32) -> bool
        ensures { result ≡ is_said self.now.stable.keys node place }
    {
        self.stable.contains(&(node, place))
    }
}

/// Whether no individual is marked.
fn is_unmarked(s: &Structure) -> bool
    ensures { IsTrue result → s.now.fresh ≡ None }
{
    match s.fresh() {
        None => true,
        Some(_) => false,
    }
}

/// Whether the structures are equal, and none of them has a mark.
fn are_equal(s: &Structure, t: &Structure) -> bool
    ensures { IsTrue result → s.now ≡ t.now }
{
    if !is_unmarked(s) || !is_unmarked(t) {
        return false;
    }
    match s.compare(t) {
        Ordering::Equal => true,
        Ordering::Less | Ordering::Greater => false,
    }
}

/// Whether `s` is listed there.
fn is_listed(listing: &Listing, node: u32, place: u32, s: &Structure) -> bool
    requires { node < length listing.now }
    ensures { IsTrue result → slice_get (at_node listing.now node) place ≡ Some s.now }
{
    let place = place as usize;
    place < listing.count(node) && are_equal(s, listing.at(node, place))
}

/// Notes that `s`, which is stable, is so where it is listed at the node, and gives the place; that there is
/// none promises nothing.
pub fn note_stable(
    x: &Setting,
    node: u32,
    s: &Structure,
    found: &mut Found,
) -> Result<Option<u32>, AllocError>
    requires node { node < length x.now.analysis.now.listing }
    requires stable { IsStableIn (case_in x.now) s.now }
    requires so_far { All (λ key. IsStableAt (case_in x.now) key.0 key.1) found.old.stable.keys }
    ensures place { IfOk result (λ place. IfSome place
        (λ k. slice_get (at_node x.now.analysis.now.listing node) k ≡ Some s.now)) }
    ensures stable { OnOk result (All (λ key. IsStableAt (case_in x.now) key.0 key.1) found.new.stable.keys) }
    ensures maps { found.new.maps ≡ found.old.maps }
{
    let Some(place) = x.places.get(&(node, s.signature())).copied() else {
        return Ok(None);
    };
    if !is_listed(&x.analysis.listing, node, place, s) {
        return Ok(None);
    }
    found.stable.insert((node, place))?;
    Ok(Some(place))
}
