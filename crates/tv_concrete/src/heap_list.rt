//! Heaps and assignments as plain lists.

ghost use Rattle.std.specs.Prelude.{◌≡◌, ◌↔◌, IsTrue, Contains, map};
ghost use Rattle.tv_model.specs.Form.{vars_of};
ghost use Rattle.tv_model.specs.Heap.{Holds, extent};
ghost use Rattle.tv_model.specs.Rules.{blank};
ghost use Rattle.tv_model.specs.Truth.{put};
ghost use Rattle.tv_concrete.specs.Lists.{heap_of, assignment_of};

use tv_model::{Items, PredId, Terms, Var};

/// Some individuals, in order.
pub type Tuple = Items<u32>;

/// A heap as plain lists: its individuals, for each predicate by number the tuples of which it holds,
/// and the individual that a step has just added, if there is one.
#[derive(Debug, Drop)]
pub struct HeapList {
    pub individuals: Tuple,
    pub extents: Items<Items<Tuple>>,
    pub fresh: Option<u32>,
}

/// What each of the 256 variables stands for.
#[derive(Clone, Copy)]
pub struct Values {
    places: [u32; 256],
}

impl Values {
    /// Every variable stands for the individual 0.
    pub fn blank() -> Self
        ensures { assignment_of result ≡ blank }
    {
        Values { places: [0; 256] }
    }

    /// The values with the individual `u` put for `v`.
    pub fn with(self, v: Var, u: u32) -> Self
        ensures { assignment_of result ≡ put (assignment_of self) v.0 u }
    {
        let mut places = self.places;
        places[v.0 as usize] = u;
        Values { places }
    }

    /// What `v` stands for.
    pub fn at(&self, v: Var) -> u32
        ensures { result ≡ assignment_of self.now v.0 }
    {
        self.places[v.0 as usize]
    }
}

impl HeapList {
    /// Whether `u` is an individual of the heap.
    pub(crate) fn has(&self, u: u32) -> bool
        ensures { IsTrue result ↔ Contains (heap_of self.now).individuals u }
    {
        self.individuals.as_slice().contains(&u)
    }

    /// The tuples of which the predicate holds.
    pub(crate) fn extent(&self, pred: usize) -> &[Tuple]
        ensures { result.now ≡ extent (heap_of self.now) pred }
    {
        match self.extents.as_slice().get(pred) {
            Some(tuples) => tuples.as_slice(),
            None => &[],
        }
    }

    /// Whether the predicate holds of the tuple.
    pub(crate) fn holds_of(&self, pred: usize, tuple: &[u32]) -> bool
        ensures { IsTrue result ↔ Holds (heap_of self.now) pred tuple.now }
    {
        for candidate in self.extent(pred) {
            if same(candidate.as_slice(), tuple) {
                return true;
            }
        }
        false
    }

    /// Whether the predicate holds of the tuple that the terms stand for.
    pub(crate) fn holds_at(&self, pred: PredId, terms: &Terms, values: &Values) -> bool
        ensures { IsTrue result
            ↔ Holds (heap_of self.now) pred.0 (map (assignment_of values.now) (vars_of terms.now)) }
    {
        let pred = pred.0 as usize;
        match terms {
            Terms::Zero => self.holds_of(pred, &[]),
            Terms::One(v) => self.holds_of(pred, &[values.at(*v)]),
            Terms::Two(v, w) => self.holds_of(pred, &[values.at(*v), values.at(*w)]),
        }
    }
}

/// Whether both lists have the same elements in the same order.
pub(crate) fn same(xs: &[u32], ys: &[u32]) -> bool
    ensures { IsTrue result ↔ (xs.now ≡ ys.now) }
{
    xs == ys
}
