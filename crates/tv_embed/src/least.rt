//! The least embedding of a structure in another.

ghost use Rattle.std.specs.Prelude.{◌≡◌, IfOk, IfSome, IfNone, IsSome};
ghost use Rattle.tv_embedding_laws.specs.Embedding.{IsEmbedded};
ghost use Rattle.tv_structure_form.specs.StructureForm.{arities_of, structure_of};
ghost use Rattle.tv_embed.specs.Maps.{IsLeastEmbedding, HeapsStay};
ghost use Rattle.tv_embed.specs.Search.{IsSearched, AreAllCandidates};

use crate::bounds::bounds;
use crate::candidates::all_candidates;
use crate::fits::tuple_fits;
use crate::search::{may_reach_all, search};
use std::alloc::{AllocError, Global};
use tv_struct::{Numbers, Structure, Tuple};

/// The lexicographically least embedding of `small` in `large`, as the list of the images of the
/// individuals of `small` in order; none exactly where there is no embedding. The only error is want of
/// memory.
///
/// The individuals get their images one after the other, each among those that its own values allow; images
/// are given up as soon as an individual of `large` can no longer be one, or too few are left.
/// Whether there is an embedding at all is hard in general: the time may grow exponentially where many
/// individuals have equal values.
pub fn find(
    alloc: Global,
    small: &Structure,
    large: &Structure,
) -> Result<Option<Numbers>, AllocError>
    requires { arities_of small.now ≡ arities_of large.now }
    ensures least { IfOk result (λ found. IfSome found (IsLeastEmbedding small.now large.now)) }
    ensures none { IfOk result
        (λ found. IfNone found (¬ IsEmbedded (structure_of small.now) (structure_of large.now))) }
    ensures heaps { IfOk result (λ found. IfSome found (λ _. HeapsStay small.now large.now)) }
{
    if !tuple_fits(small, large, Tuple::Zero, Tuple::Zero) {
        return Ok(None);
    }
    if !may_reach_all(small, large, &[]) {
        return Ok(None);
    }
    let Some(candidates) = all_candidates(alloc, small, large)? else {
        return Ok(None);
    };
    let bounds = bounds(alloc, small, large, &candidates)?;
    let mut images = Vec::with_capacity(alloc, candidates.len())?;
    if search(small, large, &candidates, &bounds, &mut images)? {
        return Ok(Some(Numbers::from_vec(images)));
    }
    Ok(None)
}
