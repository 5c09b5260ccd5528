//! The worklist: what is listed so far, and what of it still waits to be followed.

ghost use Rattle.std.specs.Prelude.{ℕ, ◌≡◌, ◌<◌, ◌≤◌, [], ◌∷◌, ◌++◌, length, replicate, OnOk, OnErr};
ghost use Rattle.std.specs.Prelude.{IfOk, IfErr, IfSome, IfNone, Contains, Some, None, All, Any, slice_get};
ghost use Rattle.tv_listing.specs.ListingForm.{at_node};
ghost use Rattle.tv_structure_form.specs.StructureForm.{StructureForm, IsStructure};
ghost use Rattle.tv_work.specs.Reach.{Point, IsListed};
ghost use Rattle.tv_work.specs.Search.{SearchForm, Grows, ListsOnly, IsOnce, IsWithin};
ghost use Rattle.tv_work.specs.Stopped.{IsMeetStop};

use crate::WorkError;
use std::alloc::{AllocError, Global};
use std::collections::VecDeque;
use std::marker::Model;
use tv_listing::Listing;
use tv_struct::{Structure, Structures};

/// A structure that waits to be followed, by its node and its place there.
#[derive(Clone, Copy, Debug, PartialEq, Eq)]
pub(crate) struct Waiting {
    pub node: u32,
    pub place: usize,
}

/// The structures that were met, and those of them that still wait to be followed, by their places, in the
/// order in which they were met.
#[derive(Drop)]
pub(crate) struct Search {
    listing: Listing,
    waiting: VecDeque<Waiting>,
    count: u64,
}

impl Model for Search {
    ghost use Rattle.tv_work.specs.Search.{SearchForm, IsSearch};

    ghost Value = { SearchForm };

    ghost view = { λ s. record { listing = s.listing; waiting = s.waiting.items; count = s.count } };

    ghost invariant = { λ s.
        IsSearch (record { listing = s.listing; waiting = s.waiting.items; count = s.count }) };
}

/// The only structure of the list.
#[inline(always)]
fn only(all: Structures) -> Structure
    requires { length all ≡ 1 }
    ensures { all ≡ result ∷ [] }
{
    match all.into_vec().pop() {
        Some(s) => s,
        None => unreachable!(),
    }
}

impl Search {
    /// The search that has met nothing.
    pub fn new(alloc: Global, nodes: u32) -> Result<Search, AllocError>
        ensures { IfOk result (λ s. s ≡ record { listing = replicate nodes []; waiting = []; count = 0 }) }
    {
        Ok(Search {
            listing: Listing::new(alloc, nodes)?,
            waiting: VecDeque::new(alloc),
            count: 0,
        })
    }

    /// Meets a structure at a node: a new one is listed, and waits. `Structures` where one more than `max`
    /// are then listed.
    pub fn meet(&mut self, node: u32, s: Structure, max: u64) -> Result<(), WorkError>
        requires node { node < length self.old.listing }
        requires within { IsWithin max self.old }
        requires unmarked { s.fresh ≡ None }
        ensures grows { OnOk result (Grows self.old self.new) }
        ensures has { OnOk result (IsListed self.new.listing (record { node = node; structure = s })) }
        ensures only { OnOk result (ListsOnly (λ x. x ≡ record { node = node; structure = s }) self.old
            self.new) }
        ensures within { OnOk result (IsWithin max self.new) }
        ensures cause { IfErr result (IsMeetStop max (λ x. x ≡ record { node = node; structure = s })
            self.old.listing self.new.listing) }
    {
        if !self.listing.add(node, s)? {
            return Ok(());
        }
        if self.count == max {
            return Err(WorkError::Structures);
        }
        self.count += 1;
        let place = self.listing.count(node) - 1;
        self.waiting.push_back(Waiting { node, place })?;
        Ok(())
    }

    /// Meets the only one of these structures at the node.
    fn meet_only(&mut self, node: u32, found: Structures, max: u64) -> Result<(), WorkError>
        requires node { node < length self.old.listing }
        requires within { IsWithin max self.old }
        requires unmarked { All (λ s. s.fresh ≡ None) found }
        requires one { length found ≡ 1 }
        ensures grows { OnOk result (Grows self.old self.new) }
        ensures has { OnOk result ((s : StructureForm) → Contains found s
            → IsListed self.new.listing (record { node = node; structure = s })) }
        ensures only { OnOk result (ListsOnly (λ x. (x.node ≡ node) × Contains found x.structure) self.old
            self.new) }
        ensures within { OnOk result (IsWithin max self.new) }
        ensures cause { IfErr result (IsMeetStop max (λ x. (x.node ≡ node) × Contains found x.structure)
            self.old.listing self.new.listing) }
    {
        self.meet(node, only(found), max)
    }

    /// Meets all these structures at the node.
    pub fn meet_all(&mut self, node: u32, found: Structures, max: u64) -> Result<(), WorkError>
        requires node { node < length self.old.listing }
        requires within { IsWithin max self.old }
        requires unmarked { All (λ s. s.fresh ≡ None) found }
        ensures grows { OnOk result (Grows self.old self.new) }
        ensures has { OnOk result ((s : StructureForm) → Contains found s
            → IsListed self.new.listing (record { node = node; structure = s })) }
        ensures only { OnOk result (ListsOnly (λ x. (x.node ≡ node) × Contains found x.structure) self.old
            self.new) }
        ensures within { OnOk result (IsWithin max self.new) }
        ensures cause { IfErr result (IsMeetStop max (λ x. (x.node ≡ node) × Contains found x.structure)
            self.old.listing self.new.listing) }
    {
        if found.len() == 1 {
            return self.meet_only(node, found, max);
        }
        for s in found.into_vec() {
            self.meet(node, s, max)?;
        }
        Ok(())
    }

    /// Takes out the one that has waited longest, if any waits: so structures are met in the order of the
    /// steps that lead to them, small ones first.
    pub fn pop(&mut self) -> Option<Waiting>
        ensures some { IfSome result (λ w. (w.place < length (at_node self.old.listing w.node))
            × (self.old ≡ record {
              listing = self.new.listing;
              waiting = w ∷ self.new.waiting;
              count
                  = self.new.count;
            })) }
        ensures none { IfNone result ((self.new ≡ self.old) × (length self.old.waiting ≡ 0)) }
    {
        self.waiting.pop_front()
    }

    /// The structure that stands there.
    pub fn at(&self, w: Waiting) -> &Structure
        requires { w.place < length (at_node self.now.listing w.node) }
        ensures value { slice_get (at_node self.now.listing w.node) w.place ≡ Some result.now }
        ensures kept { IsStructure result.now }
    {
        self.listing.at(w.node, w.place)
    }

    /// What was listed.
    pub fn into_listing(self) -> Listing
        ensures listing { result ≡ self.listing }
        ensures once { (node : ℕ) → IsOnce (at_node result node) }
    {
        self.listing
    }
}
