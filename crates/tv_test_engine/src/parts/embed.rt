//! Rows of embeddings.

ghost use Rattle.std.specs.Prelude.{◌≡◌, ◌≤◌, [], ◌∷◌, IfOk};
ghost use Rattle.tv_structure_form.specs.StructureForm.{arities_of};

use super::shown::{blank, set_edge, shown};
use std::alloc::{AllocError, Global};
use std::test::Fail;
use tv_embed::{check_map, find};
use tv_kleene::K3;
use tv_struct::Structure;

/// Two structures a row, and the least embedding of the first in the second, if there is one.
/// Nullary values, and no individuals.
const EMPTY: &str = "0; 0; []
1; 0; none
1; ?; []
?; 1; none
0; 0 s0000; none
0 -0000; 0; none";

/// Several in one.
const MERGED: &str = "0 -00000 -00000; 0 -0000; none
0 -00000 -00000; 0 s0000; [0, 0]
0 -00000 -00000 -00000; 0 -0000; none";

/// Each individual is an image.
const ONTO: &str = "0 -0000; 0 s00000 s00000; none
0 -00000 -00000; 0 -00000 -00000; [0, 1]
0 -00000 -00000; 0 s00000 s00000; [0, 1]
0 -000000 -000000 -000000; 0 s00000 s00000; [0, 0, 1]
0 -000000 -000000 -000000; 0 -00000 s00000; [0, 1, 1]
0 -000000 -000000 -000000; 0 s00000 -00000; [0, 0, 1]
0 -000000 -000000 -000000; 0 -00000 -00000; none";

/// Values and summaries.
const UNDER: &str = "0 -1000; 0 -?000; [0]
0 -?000; 0 -1000; none
0 s0000; 0 -0000; none
0 -0000; 0 s0000; [0]
0 -10000 -01000; 0 -01000 -10000; [1, 0]";

/// Edges.
const EDGES: &str = "0 -00001 -00000; 0 -00000 -00010; [1, 0]
0 -00001 -00000; 0 -00010 -00001; none
0 -100010 -000001 -000000; 0 -1000? s0000?; [0, 1, 1]
0 -100010 -000001 -000100; 0 -1000? s0000?; none";

/// The least embedding, which `check_map` takes too.
fn least(alloc: Global, small: &Structure, large: &Structure) -> Result<String, AllocError>
    requires { arities_of small.now ≡ arities_of large.now }
{
    match find(alloc, small, large)? {
        None => format!(in alloc; "none"),
        Some(map) => {
            if !check_map(small, large, map.as_slice()) {
                return format!(in alloc; "no embedding");
            }
            format!(in alloc; "{:?}", map.as_slice())
        }
    }
}

/// Whether the least embedding of a row is found.
fn is_found(alloc: Global, row: &str) -> Result<bool, Fail> {
    let (small, rest) = row.split_once("; ").ok_or("no row")?;
    let (large, map) = rest.split_once("; ").ok_or("no row")?;
    let found = least(alloc, &shown(alloc, small)?, &shown(alloc, large)?)?;
    Ok(found.as_str() == map)
}

#[test]
fn the_least_embedding_is_found(rt: HostRuntime) -> Result<(), Fail> {
    for rows in [EMPTY, MERGED, ONTO, UNDER, EDGES] {
        for row in rows.lines() {
            assert!(rt; is_found(rt.alloc(), row)?, "{row}");
        }
    }
    Ok(())
}

/// Maps of three individuals that aren't embeddings in a head and a summary.
const NO_EMBEDDINGS: [&[u32]; 8] = [
    &[1, 1, 0],
    &[1, 1, 1],
    &[0, 0, 1],
    &[0, 0, 0],
    &[0, 1],
    &[0, 1, 1, 1],
    &[0, 1, 2],
    &[],
];

/// Whether the map embeds these.
fn is_embedding(alloc: Global, map: &[u32]) -> Result<bool, AllocError> {
    let small = shown(alloc, "0 -100010 -000001 -000000")?;
    let large = shown(alloc, "0 -1000? s0000?")?;
    Ok(check_map(&small, &large, map))
}

#[test]
fn maps_are_judged(rt: HostRuntime) -> Result<(), Fail> {
    assert!(rt; is_embedding(rt.alloc(), &[0, 1, 1])?);
    for map in NO_EMBEDDINGS {
        assert!(rt; !is_embedding(rt.alloc(), map)?, "{map:?}");
    }
    Ok(())
}

/// A structure of twelve individuals in parts of `part` beside each other, in which an edge leads from
/// each individual to the one that many steps on in its part.
fn rings(alloc: Global, part: u32, step: u32) -> Result<Structure, AllocError>
    requires part { 1 ≤ part }
    requires step { step ≤ 12 }
    ensures { IfOk result (λ s. arities_of s ≡ 0 ∷ 1 ∷ 1 ∷ 1 ∷ 2 ∷ []) }
{
    let mut s = blank(alloc, 12)?;
    for u in 0..12 {
        let first = u - u % part;
        let next = first + (u - first + step) % part;
        set_edge(&mut s, u, next.min(11), K3::Yes);
    }
    Ok(s)
}

/// Rings of a part, and a step.
type Rings = (u32, u32);

const ONE_OF_TWELVE: Rings = (12, 1);

const FIVE_STEPS_OF_TWELVE: Rings = (12, 5);

const TWO_OF_SIX: Rings = (6, 1);

/// Whether the rings embed in the others.
fn embed(alloc: Global, small: Rings, large: Rings) -> Result<bool, AllocError>
    requires small { (1 ≤ small.0) × (small.1 ≤ 12) }
    requires large { (1 ≤ large.0) × (large.1 ≤ 12) }
{
    let small = rings(alloc, small.0, small.1)?;
    let large = rings(alloc, large.0, large.1)?;
    Ok(find(alloc, &small, &large)?.is_some())
}

#[test]
fn rings_are_told_apart(rt: HostRuntime) -> Result<(), Fail> {
    assert!(rt; !embed(rt.alloc(), FIVE_STEPS_OF_TWELVE, TWO_OF_SIX)?);
    assert!(rt; !embed(rt.alloc(), TWO_OF_SIX, FIVE_STEPS_OF_TWELVE)?);
    assert!(rt; embed(rt.alloc(), FIVE_STEPS_OF_TWELVE, ONE_OF_TWELVE)?);
    Ok(())
}

/// Whether each of 256 individuals without values is found as its own image.
fn many_are_their_own(alloc: Global) -> Result<bool, Fail> {
    let many = blank(alloc, 256)?;
    let images = find(alloc, &many, &many)?.ok_or("none")?;
    let mut same = images.len() == 256;
    for (u, image) in images.as_slice().iter().enumerate() {
        same &= *image as usize == u;
    }
    Ok(same)
}

#[test]
fn many_alike_individuals_are_searched(rt: HostRuntime) -> Result<(), Fail> {
    assert!(rt; many_are_their_own(rt.alloc())?);
    Ok(())
}
