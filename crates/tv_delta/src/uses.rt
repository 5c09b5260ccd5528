//! What the definitions of a program mention, found once for all its actions.

ghost use Rattle.std.specs.Prelude.{ℕ, Bool, List, ◌≡◌, map, slice_get, IfOk};
ghost use Rattle.std.specs.List.{list_any};
ghost use Rattle.tv_model.specs.Program.{pred_of, kind_of};
ghost use Rattle.tv_delta_laws.specs.Deltas.{is_flagged};
ghost use Rattle.tv_delta.specs.Flags.{rests, tells, AreMentionLists, ListTells};

use crate::flags::is_flagged;
use std::alloc::{AllocError, Global};
use tv_model::{Items, Kind, Pred, PredId, push_mentioned};

/// What the definitions of a program mention.
#[derive(Debug, Drop)]
pub struct Uses {
    /// For each predicate those that its definition mentions, each once.
    pub lists: Vec<Items<u32>>,
    /// The predicates, each behind those that its definition mentions. No contract speaks of it: who goes by
    /// it looks whether it is so.
    pub order: Vec<usize>,
}

/// The predicates that the definition mentions, each as often as it does.
#[tactic(auto, using(crate::proofs::UseLists::touches_any))]
fn mentioned(alloc: Global, kind: &Kind) -> Result<Vec<u32>, AllocError>
    ensures { IfOk result
        (λ list. (flags : List Bool)
        → rests flags (kind_of kind.now) ≡ list_any (is_flagged flags) list.items) }
{
    let mut list = Vec::new(alloc);
    match kind {
        Kind::Core => Ok(list),
        Kind::Defined { body, .. } => {
            push_mentioned(body, &mut list)?;
            Ok(list)
        }
    }
}

/// The numbers, each once.
fn each_once(mut list: Vec<u32>) -> Vec<u32>
    ensures { (test : ℕ → Bool) → list_any test result.items ≡ list_any test list.items }
{
    list.sort_unstable();
    list.dedup();
    list
}

/// The predicates that the definition mentions, each once.
fn mentioned_once(alloc: Global, pred: &Pred) -> Result<Items<u32>, AllocError>
    ensures { IfOk result (ListTells (pred_of pred.now)) }
{
    let list = mentioned(alloc, &pred.kind)?;
    Ok(Items::from_vec(each_once(list)))
}

/// For each predicate those that its definition mentions, each once.
#[tactic(auto, using(crate::proofs::UseLists::lists_more))]
fn mentioned_by_each(alloc: Global, preds: &[Pred]) -> Result<Vec<Items<u32>>, AllocError>
    ensures { IfOk result (λ lists. AreMentionLists (map pred_of preds.now) lists.items) }
{
    let mut lists = Vec::with_capacity(alloc, preds.len())?;
    for pred in preds {
        lists.push(mentioned_once(alloc, pred)?)?;
    }
    Ok(lists)
}

fn is_placed(placed: &[bool], q: u32) -> bool {
    placed.get(q as usize).copied().unwrap_or(true)
}

/// Whether all of these predicates have a place.
fn are_placed(placed: &[bool], list: &[u32]) -> bool {
    for q in list {
        if !is_placed(placed, *q) {
            return false;
        }
    }
    true
}

/// Puts those predicates behind the others whose definitions mention none that has no place.
fn place_ready(
    lists: &[Items<u32>],
    placed: &mut [bool],
    order: &mut Vec<usize>,
) -> Result<(), AllocError> {
    for q in 0..lists.len().min(placed.len()) {
        if !placed[q] && are_placed(placed, lists[q].as_slice()) {
            placed[q] = true;
            order.push(q)?;
        }
    }
    Ok(())
}

/// The predicates, each behind those that its definition mentions, where no definition rests on itself.
fn likely_order(alloc: Global, lists: &[Items<u32>]) -> Result<Vec<usize>, AllocError> {
    let count = lists.len();
    let mut placed = vec![in alloc; false; count]?;
    let mut order = Vec::with_capacity(alloc, count)?;
    for _ in 0..count {
        if order.len() >= count {
            return Ok(order);
        }
        place_ready(lists, placed.as_mut_slice(), &mut order)?;
    }
    Ok(order)
}

/// Whether the flag of one of these predicates is set.
fn has_flagged(flags: &[bool], list: &[u32]) -> bool
    ensures { result ≡ list_any (is_flagged flags.now) list.now }
{
    match list {
        [] => false,
        [q, rest @ ..] => is_flagged(flags, PredId(*q)) || has_flagged(flags, rest),
    }
}

impl Uses {
    /// What the definitions of these predicates mention.
    pub fn new(alloc: Global, preds: &[Pred]) -> Result<Uses, AllocError>
        ensures { IfOk result (λ uses. AreMentionLists (map pred_of preds.now) uses.lists.items) }
    {
        let lists = mentioned_by_each(alloc, preds)?;
        let order = likely_order(alloc, lists.as_slice())?;
        Ok(Uses { lists, order })
    }

    /// Whether the definition of the predicate mentions one whose flag is set.
    pub fn rests(&self, flags: &[bool], q: usize) -> bool
        ensures { result ≡ tells flags.now (slice_get self.now.lists.items q) }
    {
        match self.lists.as_slice().get(q) {
            None => false,
            Some(list) => has_flagged(flags, list.as_slice()),
        }
    }
}
