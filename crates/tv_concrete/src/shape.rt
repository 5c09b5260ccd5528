//! Whether a plain heap has the shape that a program asks for, and whether it is concrete.

ghost use Rattle.std.specs.Prelude.{ℕ, ◌≡◌, ◌≢◌, ◌↔◌, ◌<◌, length, slice_index, List, IsTrue, IfOk, All};
ghost use Rattle.std.specs.Prelude.{AllPairs, Contains, map};
ghost use Rattle.tv_model.specs.Heap.{Holds, IsTuple, extent};
ghost use Rattle.tv_model.specs.Program.{kind_of, pred_of, program_of, EachPred};
ghost use Rattle.tv_model.specs.Rules.{IsConcrete, IsHeap, MeetsDefinition};
ghost use Rattle.tv_concrete.specs.Lists.{heap_of};

use crate::{HeapList, Tuple, Values, holds, put_tuple, tuples};
use std::alloc::{AllocError, Global};
use tv_model::{Kind, Pred, Program};

/// Whether the lists are a heap over the program's vocabulary, without a mark.
pub fn is_heap(program: &Program, heap: &HeapList) -> bool
    ensures { IsTrue result ↔ IsHeap (program_of program.now) (heap_of heap.now) }
{
    if !all_differ(heap.individuals.as_slice()) {
        return false;
    }
    if heap.extents.len() != program.vocab.preds.len() {
        return false;
    }
    if !tuples_fit(heap, program.vocab.preds.as_slice()) {
        return false;
    }
    heap.fresh.is_none()
}

/// Whether no individual stands twice.
fn all_differ(individuals: &[u32]) -> bool
    ensures { IsTrue result ↔ AllPairs ◌≢◌ individuals.now }
{
    for j in 0..individuals.len() {
        if !differs_before(individuals, j) {
            return false;
        }
    }
    true
}

/// Whether the individual at `j` stands nowhere before.
fn differs_before(individuals: &[u32], j: usize) -> bool
    requires { j < length individuals.now }
    ensures { IsTrue result
        ↔ ((i : ℕ) → i < j → slice_index individuals.now i ≢ slice_index individuals.now j) }
{
    for i in 0..j {
        if individuals[i] == individuals[j] {
            return false;
        }
    }
    true
}

fn tuples_fit(heap: &HeapList, preds: &[Pred]) -> bool
    ensures { IsTrue result ↔ EachPred (map pred_of preds.now)
        (λ q d. All (IsTuple (heap_of heap.now) d.arity) (extent (heap_of heap.now) q)) }
{
    for (q, pred) in preds.iter().enumerate() {
        if !extent_fits(heap, q, pred.arity) {
            return false;
        }
    }
    true
}

fn extent_fits(heap: &HeapList, pred: usize, arity: u8) -> bool
    ensures { IsTrue result ↔ All (IsTuple (heap_of heap.now) arity) (extent (heap_of heap.now) pred) }
{
    for tuple in heap.extent(pred) {
        if !is_tuple(heap, tuple, arity) {
            return false;
        }
    }
    true
}

/// Whether the list has `n` elements, each an individual of the heap.
fn is_tuple(heap: &HeapList, tuple: &Tuple, n: u8) -> bool
    ensures { IsTrue result ↔ IsTuple (heap_of heap.now) n tuple.now }
{
    tuple.len() == n as usize && has_all(heap, tuple.as_slice())
}

fn has_all(heap: &HeapList, tuple: &[u32]) -> bool
    ensures { IsTrue result ↔ All (Contains (heap_of heap.now).individuals) tuple.now }
{
    for u in tuple {
        if !heap.has(*u) {
            return false;
        }
    }
    true
}

/// Whether each defined predicate holds exactly of the tuples of which its definition is true.
pub fn is_concrete(alloc: Global, program: &Program, heap: &HeapList) -> Result<bool, AllocError>
    ensures { IfOk result (λ b. IsTrue b ↔ IsConcrete (program_of program.now) (heap_of heap.now)) }
{
    for (q, pred) in program.vocab.preds.as_slice().iter().enumerate() {
        if !is_as_defined(alloc, heap, q, pred)? {
            return Ok(false);
        }
    }
    Ok(true)
}

fn is_as_defined(alloc: Global, heap: &HeapList, q: usize, pred: &Pred) -> Result<bool, AllocError>
    ensures { IfOk result (λ b. IsTrue b
        ↔ ((tuple : List ℕ) → IsTuple (heap_of heap.now) pred.now.arity tuple
        → MeetsDefinition (heap_of heap.now) q (kind_of pred.now.kind) tuple)) }
{
    let all = tuples(alloc, heap.individuals.as_slice(), pred.arity)?;
    for tuple in all.as_slice() {
        if !is_as_defined_at(heap, q, &pred.kind, tuple) {
            return Ok(false);
        }
    }
    Ok(true)
}

fn is_as_defined_at(heap: &HeapList, q: usize, kind: &Kind, tuple: &Tuple) -> bool
    ensures { IsTrue result ↔ MeetsDefinition (heap_of heap.now) q (kind_of kind.now) tuple.now }
{
    match kind {
        Kind::Core => true,
        Kind::Defined { vars, body } => {
            let tuple = tuple.as_slice();
            heap.holds_of(q, tuple) == holds(heap, put_tuple(Values::blank(), vars, tuple), body)
        }
    }
}
