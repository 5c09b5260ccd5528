//! Up to which individual of a structure each individual of another may be an image.

ghost use Rattle.std.specs.Prelude.{◌≡◌, ◌<◌, ◌⊎◌, ℕ, length, slice_index, All, IfOk};
ghost use Rattle.tv_embed.specs.Search.{AreAllCandidates, AreBounds};

use std::alloc::{AllocError, Global};
use tv_struct::{Numbers, Structure};

fn zeros(alloc: Global, count: u32) -> Result<Vec<u32>, AllocError>
    ensures { IfOk result (λ zeros. length zeros.items ≡ count) }
{
    let mut zeros = Vec::with_capacity(alloc, count as usize)?;
    for _ in 0..count {
        zeros.push(0)?;
    }
    Ok(zeros)
}

/// Puts the bound at each of these places.
fn raise(bounds: &mut Vec<u32>, places: &[u32], bound: u32)
    requires { All (λ w. w < length bounds.old.items) places.now }
    ensures length { length bounds.new.items ≡ length bounds.old.items }
    ensures set { All (λ w. slice_index bounds.new.items w ≡ bound) places.now }
    ensures kept { (w : ℕ) → (slice_index bounds.new.items w ≡ bound)
        ⊎ (slice_index bounds.new.items w ≡ slice_index bounds.old.items w) }
{
    for w in places {
        bounds[*w as usize] = bound;
    }
}

/// For each individual of `large` a number that all individuals of `small` that may go to it lie below.
pub fn bounds(
    alloc: Global,
    small: &Structure,
    large: &Structure,
    candidates: &[Numbers],
) -> Result<Vec<u32>, AllocError>
    requires { AreAllCandidates small.now large.now small.now.size candidates.now }
    ensures { IfOk result (λ bounds. AreBounds small.now large.now small.now.size bounds.items) }
{
    let _ = small.size();
    let mut bounds = zeros(alloc, large.size())?;
    for u in 0..candidates.len() {
        raise(&mut bounds, candidates[u].as_slice(), u as u32 + 1);
    }
    Ok(bounds)
}
