//! The search for the least embedding, individual by individual.

ghost use Rattle.std.specs.Prelude.{◌≡◌, ◌<◌, ◌≤◌, ◌+◌, ◌++◌, [], ◌∷◌, length, IfOk};
ghost use Rattle.std.specs.Bool.{OnFalse};
ghost use Rattle.tv_structure_form.specs.StructureForm.{arities_of};
ghost use Rattle.tv_embed.specs.Fits.{FitsSoFar, IsCandidate};
ghost use Rattle.tv_embed.specs.Search.{IsSearched, HasNoneWith, AreAllCandidates, AreBounds, IsOutOfReach};
ghost use Rattle.tv_embed.specs.Search.{LeavesOne, missing_below};

use crate::fits::joins_up;
use crate::maps::{is_image, is_onto};
use std::alloc::AllocError;
use tv_struct::{Numbers, Structure};

/// Extends the images of the first individuals to the least embedding that begins with them, and leaves
/// them as they were where there is none.
#[cycle(search)]
pub fn search(
    small: &Structure,
    large: &Structure,
    candidates: &[Numbers],
    bounds: &[u32],
    images: &mut Vec<u32>,
) -> Result<bool, AllocError>
    requires vocabulary { arities_of small.now ≡ arities_of large.now }
    requires candidates { AreAllCandidates small.now large.now small.now.size candidates.now }
    requires bounds { AreBounds small.now large.now small.now.size bounds.now }
    requires few { length images.old.items ≤ small.now.size }
    requires so_far { FitsSoFar small.now large.now images.old.items }
    ensures { IfOk result
        (λ found. IsSearched small.now large.now images.old.items images.old.items found images.new.items) }
{
    let u = images.len();
    if u == candidates.len() {
        return Ok(is_whole(small, large, images));
    }
    for w in candidates[u].as_slice() {
        if try_image(small, large, candidates, bounds, images, *w)? {
            return Ok(true);
        }
    }
    Ok(false)
}

/// Extends the images and `w` behind them to the least such embedding, or leaves them as they were.
#[cycle(search)]
fn try_image(
    small: &Structure,
    large: &Structure,
    candidates: &[Numbers],
    bounds: &[u32],
    images: &mut Vec<u32>,
    w: u32,
) -> Result<bool, AllocError>
    requires vocabulary { arities_of small.now ≡ arities_of large.now }
    requires candidates { AreAllCandidates small.now large.now small.now.size candidates.now }
    requires bounds { AreBounds small.now large.now small.now.size bounds.now }
    requires few { length images.old.items < small.now.size }
    requires so_far { FitsSoFar small.now large.now images.old.items }
    requires image { w < large.now.size }
    requires candidate { IsCandidate small.now large.now (length images.old.items) w }
    ensures { IfOk result
        (λ found. IsSearched small.now large.now
        (images.old.items ++ w ∷ []) images.old.items found images.new.items) }
{
    if !joins_up(small, large, images, w) {
        return Ok(false);
    }
    images.push(w)?;
    if !is_open(small, large, bounds, images) {
        images.pop();
        return Ok(false);
    }
    if search(small, large, candidates, bounds, images)? {
        return Ok(true);
    }
    images.pop();
    Ok(false)
}

fn is_whole(small: &Structure, large: &Structure, images: &[u32]) -> bool
    requires vocabulary { arities_of small.now ≡ arities_of large.now }
    requires whole { length images.now ≡ small.now.size }
    requires so_far { FitsSoFar small.now large.now images.now }
    ensures { IsSearched small.now large.now images.now images.now result images.now }
{
    let _ = small.size();
    is_onto(large, images)
}

/// False only where no embedding begins with the images, since fewer individuals are left than there are of
/// `large` that are no images yet. That it is true promises nothing.
pub fn may_reach_all(small: &Structure, large: &Structure, images: &[u32]) -> bool
    requires { length images.now ≤ small.now.size }
    ensures { OnFalse result (HasNoneWith small.now large.now images.now) }
{
    missing(large, images) as usize <= small.size() as usize - images.len()
}

fn missing(large: &Structure, images: &[u32]) -> u32
    ensures { result ≡ missing_below images.now large.now.size }
{
    let mut missing = 0;
    for w in 0..large.size() {
        missing += u32::from(!is_image(images, w));
    }
    missing
}

/// Whether an embedding may begin with the images, as far as one sees from those that are no images yet.
fn is_open(small: &Structure, large: &Structure, bounds: &[u32], images: &[u32]) -> bool
    requires bounds { AreBounds small.now large.now small.now.size bounds.now }
    requires few { length images.now ≤ small.now.size }
    ensures { OnFalse result (HasNoneWith small.now large.now images.now) }
{
    let _ = large.size();
    if !may_reach_all(small, large, images) {
        return false;
    }
    are_in_reach(bounds, images)
}

/// Whether each individual is an image, or may be that of one behind the first.
fn are_in_reach(bounds: &[u32], images: &[u32]) -> bool
    requires { length bounds.now ≤ 256 }
    ensures { OnFalse result (LeavesOne bounds.now images.now) }
{
    for w in 0..bounds.len() {
        if !is_in_reach(bounds, images, w) {
            return false;
        }
    }
    true
}

fn is_in_reach(bounds: &[u32], images: &[u32], w: usize) -> bool
    requires few { length bounds.now ≤ 256 }
    requires within { w < length bounds.now }
    ensures { OnFalse result (IsOutOfReach bounds.now images.now w) }
{
    bounds[w] as usize > images.len() || is_image(images, w as u32)
}
