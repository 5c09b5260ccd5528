//! What a search has met, in the order in which it was met.

ghost use Rattle.std.specs.Prelude.{◌≡◌, ◌<◌, ◌≤◌, ◌⊎◌, [], Contains, IfOk, IfErr, IfSome, OnOk, Some, None};
ghost use Rattle.std.specs.Prelude.{All, length, replicate, slice_get};
ghost use Rattle.tv_structure_form.specs.StructureForm.{StructureForm, IsStructure};
ghost use Rattle.tv_work.specs.Analyzed.{IsMeetCause};
ghost use Rattle.tv_trail.specs.Searched.{TraceForm, AreListedMet, Meets};
ghost use Rattle.tv_trail_laws.specs.Met.{IsMet};

use std::alloc::{AllocError, Global};
use std::marker::Model;
use tv_listing::Listing;
use tv_struct::{Structure, Structures};
use tv_trail_laws::Origin;
use tv_work::WorkError;

/// A structure that was met, by its node and its place there, and how it was met.
#[derive(Clone, Copy)]
pub(crate) struct Met {
    pub node: u32,
    pub place: usize,
    pub origin: Origin,
}

/// A structure that was met, its node, and how it was met.
#[derive(Clone, Copy)]
pub(crate) struct Seen<'a> {
    pub node: u32,
    pub structure: &'a Structure,
    pub origin: Origin,
}

/// The structures that were met, in a listing, and their places there in the order in which they were met.
#[derive(Drop)]
pub(crate) struct Search {
    listing: Listing,
    met: Vec<Met>,
}

impl Model for Search {
    ghost use Rattle.std.specs.Prelude.{map};
    ghost use Rattle.tv_trail.specs.Searched.{TraceForm, found_in, IsPlaced};

    ghost Value = { TraceForm };

    ghost view = { λ s. record { listing = s.listing; found = map (found_in s.listing) s.met.items } };

    ghost invariant = { λ s. IsPlaced s.listing s.met.items };
}

impl Search {
    /// The search that has met nothing.
    pub fn new(alloc: Global, nodes: u32) -> Result<Search, AllocError>
        ensures { IfOk result (λ s. s ≡ record { listing = replicate nodes []; found = [] }) }
    {
        Ok(Search {
            listing: Listing::new(alloc, nodes)?,
            met: Vec::new(alloc),
        })
    }

    /// The number of structures that were met.
    pub fn len(&self) -> usize
        ensures { result ≡ length self.now.found }
    {
        self.met.len()
    }

    /// What was met at that place.
    pub fn at(&self, place: usize) -> Seen<'_>
        requires { place < length self.now.found }
        ensures found { slice_get self.now.found place ≡ Some (record {
          point = record { node = result.node; structure = result.structure.now };
          origin = result.origin;
        }) }
        ensures node { result.node < length self.now.listing }
        ensures kept { IsStructure result.structure.now }
    {
        let met = self.met[place];
        Seen {
            node: met.node,
            structure: self.listing.at(met.node, met.place),
            origin: met.origin,
        }
    }

    /// Meets a structure at a node, if it wasn't met before. `Structures` where more than `max` are then met.
    pub fn meet(
        &mut self,
        node: u32,
        s: Structure,
        origin: Origin,
        max: u64,
    ) -> Result<(), WorkError>
        requires node { node < length self.old.listing }
        requires within { length self.old.found ≤ max }
        requires unmarked { s.fresh ≡ None }
        requires listed { AreListedMet self.old }
        ensures meets { OnOk result (Meets (λ f. f ≡ record {
          point = record { node = node; structure = s };
          origin = origin;
        }) self.old self.new) }
        ensures has { OnOk result (IsMet self.new.found (record { node = node; structure = s })) }
        ensures within { OnOk result (length self.new.found ≤ max) }
        ensures listed { OnOk result (AreListedMet self.new) }
        ensures cause { IfErr result (IsMeetCause max (λ x. IsMet self.old.found x
            ⊎ (x ≡ record { node = node; structure = s }))) }
    {
        if !self.listing.add(node, s)? {
            return Ok(());
        }
        if self.met.len() as u64 == max {
            return Err(WorkError::Structures);
        }
        let place = self.listing.count(node) - 1;
        self.met.push(Met {
            node,
            place,
            origin,
        })?;
        Ok(())
    }

    /// Meets all these structures at the node.
    pub fn meet_all(
        &mut self,
        node: u32,
        results: Structures,
        origin: Origin,
        max: u64,
    ) -> Result<(), WorkError>
        requires node { node < length self.old.listing }
        requires within { length self.old.found ≤ max }
        requires unmarked { All (λ s. s.fresh ≡ None) results }
        requires listed { AreListedMet self.old }
        ensures meets { OnOk result (Meets (λ f. (f.origin ≡ origin) × (f.point.node ≡ node)
            × Contains results f.point.structure) self.old self.new) }
        ensures has { OnOk result ((s : StructureForm) → Contains results s
            → IsMet self.new.found (record { node = node; structure = s })) }
        ensures within { OnOk result (length self.new.found ≤ max) }
        ensures listed { OnOk result (AreListedMet self.new) }
        ensures cause { IfErr result (IsMeetCause max (λ x. IsMet self.old.found x
            ⊎ ((x.node ≡ node) × Contains results x.structure))) }
    {
        for s in results.into_vec() {
            self.meet(node, s, origin, max)?;
        }
        Ok(())
    }
}
