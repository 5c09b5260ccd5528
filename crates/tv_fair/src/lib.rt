//! Whether a pair of heaps is a fair step of an action.
#![tactic(auto)]

mod ends;

ghost use Rattle.std.specs.Prelude.{ℕ, ◌≡◌, ◌↔◌, ◌∷◌, [], ◌++◌, IsTrue, IfOk, Contains, Some};
ghost use Rattle.tv_model.specs.Program.{action_of, program_of};
ghost use Rattle.tv_model.specs.Step.{FairlySteps, with_new};
ghost use Rattle.tv_concrete.specs.Lists.{assignment_of, heap_of};
ghost use Rattle.tv_fair.specs.Candidates.{IsFairOver, Suffice};

pub use ends::Ends;
use std::alloc::{AllocError, Global};
use tv_concrete::{Acting, HeapList, Step, Tuple, Values, is_fair_through};
use tv_model::{Items, Var};

/// Whether the action takes the old heap to the new one by the picked individuals in a fair step, through
/// some middle heap. The error is lack of memory, or that every `u32` is taken already where an action
/// needs a further individual.
pub fn fairly_steps(alloc: Global, acting: &Acting<'_>, ends: &Ends<'_>) -> Result<bool, AllocError>
    ensures { IfOk result (λ b. IsTrue b
        ↔ FairlySteps (program_of acting.now.program.now) acting.now.mode (action_of acting.now.action.now)
        (assignment_of ends.now.picked) (heap_of ends.now.old.now) (heap_of ends.now.new.now)) }
{
    if !acting.action.fresh {
        return is_fair_over(alloc, acting, ends, ends.old);
    }
    let candidates = candidates(alloc, ends)?;
    fits_some(alloc, acting, ends, candidates.as_slice())
}

/// Whether the step is fair through the middle heap.
fn is_fair_over(
    alloc: Global,
    acting: &Acting<'_>,
    ends: &Ends<'_>,
    middle: &HeapList,
) -> Result<bool, AllocError>
    ensures { IfOk result (λ b. IsTrue b ↔ IsFairOver acting.now ends.now (heap_of middle.now)) }
{
    let step = Step {
        picked: ends.picked,
        old: ends.old,
        middle,
        new: ends.new,
    };
    is_fair_through(alloc, acting, &step)
}

/// Whether some of the candidates, as the further individual, makes the step fair.
fn fits_some(
    alloc: Global,
    acting: &Acting<'_>,
    ends: &Ends<'_>,
    candidates: &[u32],
) -> Result<bool, AllocError>
    ensures { IfOk result (λ b. IsTrue b ↔ ((u : ℕ) × Contains candidates.now u
        × IsFairOver acting.now ends.now (with_new (heap_of ends.now.old.now) u))) }
{
    for u in candidates {
        if fits(alloc, acting, ends, *u)? {
            return Ok(true);
        }
    }
    Ok(false)
}

/// Whether `u`, as the further individual, makes the step fair.
fn fits(alloc: Global, acting: &Acting<'_>, ends: &Ends<'_>, u: u32) -> Result<bool, AllocError>
    ensures { IfOk result
        (λ b. IsTrue b ↔ IsFairOver acting.now ends.now (with_new (heap_of ends.now.old.now) u)) }
{
    let middle = with_further(alloc, ends.old, u)?;
    is_fair_over(alloc, acting, ends, &middle)
}

/// The heap with the further individual `u`, which is marked.
fn with_further(alloc: Global, old: &HeapList, u: u32) -> Result<HeapList, AllocError>
    ensures { IfOk result (λ middle. heap_of middle ≡ with_new (heap_of old.now) u) }
{
    let individuals = with_last(alloc, old.individuals.as_slice(), u)?;
    let extents = copy_extents(alloc, old.extents.as_slice())?;
    Ok(HeapList {
        individuals,
        extents,
        fresh: Some(u),
    })
}

fn with_last(alloc: Global, individuals: &[u32], u: u32) -> Result<Tuple, AllocError>
    ensures { IfOk result (λ all. all ≡ individuals.now ++ u ∷ []) }
{
    let mut all = Vec::new(alloc);
    all.extend_from_slice(individuals)?;
    all.push(u)?;
    Ok(Items::from_vec(all))
}

fn copy_extents(alloc: Global, extents: &[Items<Tuple>]) -> Result<Items<Items<Tuple>>, AllocError>
    ensures { IfOk result (λ all. all ≡ extents.now) }
{
    let mut all = Items::new(alloc);
    for extent in extents {
        all.push(copy_tuples(alloc, extent.as_slice())?)?;
    }
    Ok(all)
}

fn copy_tuples(alloc: Global, tuples: &[Tuple]) -> Result<Items<Tuple>, AllocError>
    ensures { IfOk result (λ all. all ≡ tuples.now) }
{
    let mut all = Items::new(alloc);
    for tuple in tuples {
        all.push(copy_tuple(alloc, tuple.as_slice())?)?;
    }
    Ok(all)
}

fn copy_tuple(alloc: Global, tuple: &[u32]) -> Result<Tuple, AllocError>
    ensures { IfOk result (λ all. all ≡ tuple.now) }
{
    let mut all = Vec::new(alloc);
    all.extend_from_slice(tuple)?;
    Ok(Items::from_vec(all))
}

/// Numbers of which one makes a step fair as the further individual, if any number does: all that stand
/// somewhere, and one that stands nowhere.
fn candidates(alloc: Global, ends: &Ends<'_>) -> Result<Vec<u32>, AllocError>
    ensures { IfOk result (λ us. Suffice us.items (heap_of ends.now.old.now) (heap_of ends.now.new.now)
        (assignment_of ends.now.picked)) }
{
    let mut all = picked_values(alloc, ends.picked)?;
    all.extend_from_slice(ends.old.individuals.as_slice())?;
    all.extend_from_slice(ends.new.individuals.as_slice())?;
    let further = unused(all.as_slice())?;
    all.push(further)?;
    Ok(all)
}

/// What the variables stand for.
fn picked_values(alloc: Global, picked: Values) -> Result<Vec<u32>, AllocError>
    ensures { IfOk result (λ us. (v : ℕ) → Contains us.items (assignment_of picked v)) }
{
    let mut all = Vec::new(alloc);
    all.push(0)?;
    for v in 0..256u32 {
        all.push(picked.at(Var(v as u8)))?;
    }
    Ok(all)
}

/// A number that isn't in the list.
fn unused(taken: &[u32]) -> Result<u32, AllocError>
    ensures { IfOk result (λ m. ¬ Contains taken.now m) }
{
    for m in 0..u32::MAX {
        if !taken.contains(&m) {
            return Ok(m);
        }
    }
    Err(AllocError)
}
