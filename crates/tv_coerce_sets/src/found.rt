//! Sets of rules that were found, each for a list of predicates.

ghost use Rattle.std.specs.Prelude.{◌≡◌, [], Contains, IfSome, IsTrue, OnOk};
ghost use Rattle.tv_coerce_sets.specs.Found.{HasMoreSets};

use std::alloc::{AllocError, Global};
use std::collections::HashMap;
use std::rc::Rc;
use tv_coerce::RuleSet;

/// A set of rules, and the predicates for which it was made.
#[derive(Drop)]
pub struct Kept {
    pub preds: Vec<u32>,
    pub set: Rc<RuleSet>,
}

/// The sets that were found so far, and the place of each by its predicates.
#[derive(Drop)]
pub struct Found {
    pub kept: Vec<Kept>,
    places: HashMap<Vec<u32>, usize>,
}

/// None was found.
pub fn none_found(alloc: Global) -> Found
    ensures { result.kept.items ≡ [] }
{
    Found {
        kept: Vec::new(alloc),
        places: HashMap::new(alloc),
    }
}

/// Whether both list the same predicates, in the same order.
fn are_same(preds: &[u32], others: &[u32]) -> bool
    ensures { IsTrue result → preds.now ≡ others.now }
{
    match preds {
        [] => others.is_empty(),
        [pred, later @ ..] => match others {
            [] => false,
            [other, rest @ ..] => *pred == *other && are_same(later, rest),
        },
    }
}

#[tactic(auto, using(crate::proofs::Keeping::in_list))]
fn kept_at(kept: &[Kept], place: usize) -> Option<&Kept>
    ensures { IfSome result (λ k. Contains kept.now k.now) }
{
    kept.get(place)
}

/// The set that was found for these predicates, if there is one.
pub fn found_for<'a>(found: &'a Found, preds: &Vec<u32>) -> Option<&'a Kept>
    ensures { IfSome result
        (λ k. Contains found.now.kept.items k.now × (k.now.preds.items ≡ preds.now.items)) }
{
    let place = found.places.get(preds).copied()?;
    let kept = kept_at(found.kept.as_slice(), place)?;
    if are_same(kept.preds.as_slice(), preds.as_slice()) {
        Some(kept)
    } else {
        None
    }
}

/// One set more.
pub fn keep(found: &mut Found, preds: Vec<u32>, set: &Rc<RuleSet>) -> Result<(), AllocError>
    ensures { OnOk result
        (HasMoreSets preds.items set.now.value found.old.kept.items found.new.kept.items) }
{
    let set = set.clone()?;
    found.places.insert(preds.clone()?, found.kept.len())?;
    found.kept.push(Kept { preds, set })?;
    Ok(())
}
