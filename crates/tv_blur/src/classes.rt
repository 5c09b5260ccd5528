//! The classes of individuals that have one name.

ghost use Rattle.std.specs.Prelude.{◌≡◌, ◌≢◌, ◌<◌, ◌≤◌, ◌↔◌, ◌+◌, ℕ, length, IfOk, IsTrue, OnOk, MatchBool};
ghost use Rattle.std.specs.declared.cmp.Ordering.TheVariants.{Less, Equal};
ghost use Rattle.tv_blur.specs.Names.{name_cmp};
ghost use Rattle.tv_blur.specs.Naming.{HoldsNames, IsGathered, class_name, canonical_name_in, named_in};

use crate::class::Class;
use crate::names::CanonicalNames;
use std::alloc::{AllocError, Global};
use std::cmp::Ordering;

/// The classes of the individuals that have one name, in the order of their names.
pub fn classes(alloc: Global, names: &CanonicalNames) -> Result<Vec<Class>, AllocError>
    requires { HoldsNames names.now }
    ensures { IfOk result (λ classes. IsGathered names.now (named_in names.now).size classes.items) }
{
    let size = names.structure().size();
    let mut classes = Vec::with_capacity(alloc, size as usize)?;
    for u in 0..size {
        gather(alloc, &mut classes, names, u)?;
    }
    Ok(classes)
}

/// Puts the next individual into the class of its name, which is put among the others if it isn't there.
fn gather(
    alloc: Global,
    classes: &mut Vec<Class>,
    names: &CanonicalNames,
    u: u32,
) -> Result<(), AllocError>
    requires names { HoldsNames names.now }
    requires individual { u < (named_in names.now).size }
    requires gathered { IsGathered names.now u classes.old.items }
    ensures { OnOk result (IsGathered names.now (u + 1) classes.new.items) }
{
    let _ = names.structure().size();
    let place = place_for(names, classes, u);
    if has_name(names, classes, place, u) {
        classes[place].add(u)?;
    } else {
        classes.insert(place, Class::of(alloc, u))?;
    }
    Ok(())
}

/// Whether the name of the individual `u` is less than that of `w`.
fn is_below(names: &CanonicalNames, u: u32, w: u32) -> bool
    requires names { HoldsNames names.now }
    requires one { u < (named_in names.now).size }
    requires other { w < (named_in names.now).size }
    ensures { IsTrue result
        ↔ (name_cmp (canonical_name_in names.now u) (canonical_name_in names.now w) ≡ Less) }
{
    match names.compare(u, w) {
        Ordering::Less => true,
        Ordering::Equal | Ordering::Greater => false,
    }
}

/// The place to look at next: the last of all at first, so that individuals that stand in the order of their
/// names are placed by one look each, and else the one in the middle.
fn next_look(low: usize, high: usize, count: usize) -> usize
    requires { low < high }
    ensures from { low ≤ result }
    ensures below { result < high }
{
    if high == count {
        return high - 1;
    }
    low + (high - low) / 2
}

/// How many classes have a name below that of the individual.
fn place_for(names: &CanonicalNames, classes: &[Class], u: u32) -> usize
    requires names { HoldsNames names.now }
    requires individual { u < (named_in names.now).size }
    requires gathered { IsGathered names.now u classes.now }
    ensures within { result ≤ length classes.now }
    ensures below { (w : ℕ) → w < result
        → name_cmp (class_name names.now classes.now w) (canonical_name_in names.now u) ≡ Less }
    ensures others { (w : ℕ) → result ≤ w → w < length classes.now
        → name_cmp (class_name names.now classes.now w) (canonical_name_in names.now u) ≢ Less }
{
    let mut low = 0;
    let mut high = classes.len();
    while low < high {
        let middle = next_look(low, high, classes.len());
        if is_below(names, classes[middle].first(), u) {
            low = middle + 1;
        } else {
            high = middle;
        }
    }
    low
}

/// Whether there is a class at the place, with the name of the individual.
fn has_name(names: &CanonicalNames, classes: &[Class], place: usize, u: u32) -> bool
    requires names { HoldsNames names.now }
    requires individual { u < (named_in names.now).size }
    requires gathered { IsGathered names.now u classes.now }
    ensures { MatchBool result
        ((place < length classes.now)
        × (name_cmp (class_name names.now classes.now place) (canonical_name_in names.now u) ≡ Equal))
        (place < length classes.now
        → name_cmp (class_name names.now classes.now place) (canonical_name_in names.now u) ≢ Equal) }
{
    place < classes.len() && names.compare(classes[place].first(), u) == Ordering::Equal
}
