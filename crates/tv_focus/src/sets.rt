//! The vectors of an individual, and the sets of them that a choice may give it.

ghost use Rattle.std.specs.Prelude.{◌≡◌, ◌<◌, ◌≤◌, ◌++◌, [], ◌∷◌, length, map, Some, All, IfOk, IsTrue, OnOk};
ghost use Rattle.std.specs.Prelude.{slice_get};
ghost use Rattle.tv_focus_laws.specs.Counts.{halves};
ghost use Rattle.tv_focus_laws.specs.Choices.{vectors, picks, picks_to, sets_of};
ghost use Rattle.tv_focus.specs.Puts.{begun_with};

use crate::vector::Vector;
use std::alloc::{AllocError, Global};
use tv_kleene::K3;
use tv_model::Items;

/// The vectors that an individual is given, in order.
pub type VectorSet = Items<Vector>;

/// The sets of vectors that an individual may be given, in order.
pub type Sets = Items<VectorSet>;

/// Puts behind the others each vector of `rest` with `first` in front.
fn push_prefixed(
    alloc: Global,
    out: &mut VectorSet,
    first: K3,
    rest: &[Vector],
) -> Result<(), AllocError>
    ensures { OnOk result (out.new ≡ out.old ++ map (λ v. first ∷ v) rest.now) }
{
    match rest {
        [] => Ok(()),
        [v, later @ ..] => {
            out.push(Vector::prefixed(alloc, first, v.as_slice())?)?;
            push_prefixed(alloc, out, first, later)
        }
    }
}

/// Each vector of `rest` with `first` in front.
fn prefixed(alloc: Global, first: K3, rest: &[Vector]) -> Result<VectorSet, AllocError>
    ensures { IfOk result (λ set. set ≡ map (λ v. first ∷ v) rest.now) }
{
    let mut out = VectorSet::new(alloc);
    push_prefixed(alloc, &mut out, first, rest)?;
    Ok(out)
}

/// The vectors that begin with a definite value for which `first` stands, and go on with one of `rest`.
#[tactic(auto, using(crate::proofs::Picks::begun_no, crate::proofs::Picks::begun_half, crate::proofs::Picks::begun_yes))]
fn begun(alloc: Global, first: K3, rest: &[Vector]) -> Result<VectorSet, AllocError>
    ensures { IfOk result (λ set. set ≡ begun_with first rest.now) }
{
    match first {
        K3::No => prefixed(alloc, K3::No, rest),
        K3::Half => {
            let mut out = prefixed(alloc, K3::No, rest)?;
            push_prefixed(alloc, &mut out, K3::Yes, rest)?;
            Ok(out)
        }
        K3::Yes => prefixed(alloc, K3::Yes, rest),
    }
}

/// The set of the empty vector alone.
fn no_values(alloc: Global) -> Result<VectorSet, AllocError>
    ensures { IfOk result (λ set. set ≡ [] ∷ []) }
{
    let mut out = VectorSet::new(alloc);
    out.push(Vector::empty(alloc))?;
    Ok(out)
}

/// The vectors of definite values that agree with these values, in lexicographic order, `No` before `Yes`.
pub fn vectors(alloc: Global, values: &[K3]) -> Result<VectorSet, AllocError>
    ensures { IfOk result (λ set. set ≡ vectors values.now) }
{
    match values {
        [] => no_values(alloc),
        [k, rest @ ..] => {
            let later = vectors(alloc, rest)?;
            begun(alloc, *k, later.as_slice())
        }
    }
}

/// Puts copies of the vectors behind the others.
fn push_copies(alloc: Global, out: &mut VectorSet, set: &[Vector]) -> Result<(), AllocError>
    ensures { OnOk result (out.new ≡ out.old ++ set.now) }
{
    match set {
        [] => Ok(()),
        [v, later @ ..] => {
            out.push(Vector::copied(alloc, v.as_slice())?)?;
            push_copies(alloc, out, later)
        }
    }
}

/// An equal set in memory of its own.
pub fn copied(alloc: Global, set: &[Vector]) -> Result<VectorSet, AllocError>
    ensures { IfOk result (λ copy. copy ≡ set.now) }
{
    let mut out = VectorSet::new(alloc);
    push_copies(alloc, &mut out, set)?;
    Ok(out)
}

/// The set that begins with this vector and goes on with these.
fn set_prefixed(alloc: Global, first: &Vector, rest: &[Vector]) -> Result<VectorSet, AllocError>
    ensures { IfOk result (λ set. set ≡ first.now ∷ rest.now) }
{
    let mut out = VectorSet::new(alloc);
    out.push(Vector::copied(alloc, first.as_slice())?)?;
    push_copies(alloc, &mut out, rest)?;
    Ok(out)
}

/// Puts behind the others each set of `rest` with `first` in front.
fn push_sets_prefixed(
    alloc: Global,
    out: &mut Sets,
    first: &Vector,
    rest: &[VectorSet],
) -> Result<(), AllocError>
    ensures { OnOk result (out.new ≡ out.old ++ map (λ set. first.now ∷ set) rest.now) }
{
    match rest {
        [] => Ok(()),
        [set, later @ ..] => {
            out.push(set_prefixed(alloc, first, set.as_slice())?)?;
            push_sets_prefixed(alloc, out, first, later)
        }
    }
}

/// Puts the sets of `count` of the vectors behind the others, in lexicographic order.
fn push_picks(
    alloc: Global,
    out: &mut Sets,
    count: usize,
    vectors: &[Vector],
) -> Result<(), AllocError>
    ensures { OnOk result (out.new ≡ out.old ++ picks count vectors.now) }
{
    if count == 0 {
        return Ok(out.push(VectorSet::new(alloc))?);
    }
    match vectors {
        [] => Ok(()),
        [v, later @ ..] => {
            let mut fewer = Sets::new(alloc);
            push_picks(alloc, &mut fewer, count - 1, later)?;
            push_sets_prefixed(alloc, out, v, fewer.as_slice())?;
            push_picks(alloc, out, count, later)
        }
    }
}

/// Puts the sets of 1 to `count` of the vectors behind the others, in the order of these numbers.
fn push_picks_to(
    alloc: Global,
    out: &mut Sets,
    count: usize,
    vectors: &[Vector],
) -> Result<(), AllocError>
    ensures { OnOk result (out.new ≡ out.old ++ picks_to count vectors.now) }
{
    if count == 0 {
        return Ok(());
    }
    push_picks_to(alloc, out, count - 1, vectors)?;
    push_picks(alloc, out, count, vectors)
}

/// Puts each vector behind the others, as a set of its own.
fn push_singles(alloc: Global, out: &mut Sets, vectors: &[Vector]) -> Result<(), AllocError>
    ensures { OnOk result (out.new ≡ out.old ++ map (λ v. v ∷ []) vectors.now) }
{
    match vectors {
        [] => Ok(()),
        [v, later @ ..] => {
            out.push(set_prefixed(alloc, v, &[])?)?;
            push_singles(alloc, out, later)
        }
    }
}

/// Whether no value is unknown.
fn are_definite(values: &[K3]) -> bool
    ensures { IsTrue result → halves values.now ≡ 0 }
{
    match values {
        [] => true,
        [K3::Half, ..] => false,
        [_, rest @ ..] => are_definite(rest),
    }
}

/// The set of this vector alone, and no other.
fn only(alloc: Global, vector: Vector) -> Result<Sets, AllocError>
    ensures { IfOk result (λ sets. sets ≡ (vector ∷ []) ∷ []) }
{
    let mut set = VectorSet::new(alloc);
    set.push(vector)?;
    let mut out = Sets::new(alloc);
    out.push(set)?;
    Ok(out)
}

/// The sets of vectors that an individual may be given, where these are its values: one vector, or, where it
/// is a summary, one or more.
#[tactic(auto, using(crate::proofs::Picks::picks_one, crate::proofs::Sharp::sets_one))]
pub fn sets_of(alloc: Global, summary: bool, values: Vec<K3>) -> Result<Sets, AllocError>
    ensures { IfOk result (λ sets. sets ≡ sets_of summary values.items) }
{
    if are_definite(values.as_slice()) {
        return only(alloc, Vector::of(values));
    }
    let all = vectors(alloc, values.as_slice())?;
    let mut out = Sets::new(alloc);
    if summary {
        push_picks_to(alloc, &mut out, all.len(), all.as_slice())?;
    } else {
        push_singles(alloc, &mut out, all.as_slice())?;
    }
    Ok(out)
}
