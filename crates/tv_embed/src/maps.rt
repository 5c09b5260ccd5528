//! Whether a given map is an embedding.

ghost use Rattle.std.specs.Prelude.{◌≡◌, ◌<◌, ◌↔◌, ◌+◌, ◌++◌, ◌==◌, ◌∷◌, [], length, take, IsTrue, Contains};
ghost use Rattle.std.specs.List.{list_any};
ghost use Rattle.tv_structure_form.specs.StructureForm.{arities_of};
ghost use Rattle.tv_embed.specs.Fits.{FitsSoFar, IsOnto};
ghost use Rattle.tv_embed.specs.Maps.{image_of, IsEmbedding, HeapsStay};

use crate::fits::{is_candidate, joins_up, tuple_fits};
use tv_struct::{Structure, Tuple};

/// Whether the map, as the list of the images of the individuals of `small` in order, embeds `small`
/// in `large`: it has one image for each individual, each individual of `large` is an image, each value
/// lies under the value at the images, a summary goes to a summary, and so do several individuals that
/// have one image. Takes no memory.
///
/// Where it does, `large` stands for each heap, of any size, that `small` stands for.
pub fn check_map(small: &Structure, large: &Structure, map: &[u32]) -> bool
    requires vocabulary { arities_of small.now ≡ arities_of large.now }
    ensures exact { IsTrue result ↔ IsEmbedding small.now large.now map.now }
    ensures heaps { IsTrue result → HeapsStay small.now large.now }
{
    map.len() == small.size() as usize && embeds(small, large, map)
}

fn embeds(small: &Structure, large: &Structure, map: &[u32]) -> bool
    requires vocabulary { arities_of small.now ≡ arities_of large.now }
    requires individuals { length map.now ≡ small.now.size }
    ensures exact { IsTrue result ↔ IsEmbedding small.now large.now map.now }
    ensures heaps { IsTrue result → HeapsStay small.now large.now }
{
    let _ = small.size();
    fits(small, large, map) && is_onto(large, map)
}

fn fits(small: &Structure, large: &Structure, map: &[u32]) -> bool
    requires vocabulary { arities_of small.now ≡ arities_of large.now }
    requires individuals { length map.now ≡ small.now.size }
    ensures { IsTrue result ↔ FitsSoFar small.now large.now map.now }
{
    if !tuple_fits(small, large, Tuple::Zero, Tuple::Zero) {
        return false;
    }
    for u in 0..map.len() {
        if !image_fits(small, large, map, u) {
            return false;
        }
    }
    true
}

fn image_fits(small: &Structure, large: &Structure, map: &[u32], u: usize) -> bool
    requires vocabulary { arities_of small.now ≡ arities_of large.now }
    requires individuals { length map.now ≡ small.now.size }
    requires individual { u < length map.now }
    requires so_far { FitsSoFar small.now large.now (take u map.now) }
    ensures { IsTrue result ↔ FitsSoFar small.now large.now (take (u + 1) map.now) }
{
    let w = map[u];
    w < large.size() && fits_next(small, large, &map[..u], w)
}

/// Whether the next individual may go to `w` while those before it go to their images.
pub fn fits_next(small: &Structure, large: &Structure, images: &[u32], w: u32) -> bool
    requires vocabulary { arities_of small.now ≡ arities_of large.now }
    requires next { length images.now < small.now.size }
    requires in_large { w < large.now.size }
    requires so_far { FitsSoFar small.now large.now images.now }
    ensures { IsTrue result ↔ FitsSoFar small.now large.now (images.now ++ w ∷ []) }
{
    let _ = small.size();
    is_candidate(small, large, images.len() as u32, w) && joins_up(small, large, images, w)
}

/// Whether each individual of `large` is an image.
pub fn is_onto(large: &Structure, images: &[u32]) -> bool
    ensures { IsTrue result ↔ IsOnto large.now images.now }
{
    for w in 0..large.size() {
        if !is_image(images, w) {
            return false;
        }
    }
    true
}

/// Whether `w` is an image.
pub fn is_image(images: &[u32], w: u32) -> bool
    ensures image { IsTrue result ↔ Contains images.now w }
    ensures test { result ≡ list_any (λ y. y == w) images.now }
{
    images.contains(&w)
}
