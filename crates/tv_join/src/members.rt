//! Structures of which no two have one key.

ghost use Rattle.std.specs.Prelude.{◌≡◌, [], Bool, List, Some, None, IfOk, OnErr, OnOk, Contains, MatchBool};
ghost use Rattle.std.specs.Prelude.{length};
ghost use Rattle.std.specs.Prelude.{slice_get};
ghost use Rattle.tv_structure_form.specs.StructureForm.{StructureForm, IsStructure, arities_of, unmarked};
ghost use Rattle.tv_join.specs.Keyed.{SameKey, IsSkeleton};
ghost use Rattle.tv_join.specs.Members.{MembersForm, place_in, CanPut, IsIndexed, Puts, IsAdded};

use crate::key::skeleton;
use crate::pairwise::join_into;
use std::alloc::{AllocError, Global};
use std::cmp::Ordering;
use std::collections::BTreeMap;
use std::marker::Model;
use tv_struct::Structure;

/// Structures in the order in which their keys came. The place of each is noted by its skeleton, so that the
/// structure of a key is found without a walk over all.
#[derive(Drop)]
pub struct Members {
    structures: Vec<Structure>,
    places: BTreeMap<Structure, usize>,
}

impl Model for Members {
    ghost use Rattle.tv_join.specs.Members.{MembersForm};

    ghost Value = { MembersForm };

    ghost view = { λ m. record { structures = m.structures.items; places = m.places.entries } };
}

/// What became of a structure that was put among others.
#[derive(Clone, Copy, Debug, PartialEq, Eq)]
pub enum Put {
    /// It lies under the structure of its key, and nothing changed.
    Known,
    /// The structure of its key, at this place, is another one now.
    Raised(usize),
    /// No structure had its key, and it stands behind the others.
    Added,
}

impl Members {
    /// No structures; takes no memory.
    pub fn new(alloc: Global) -> Members
        ensures none { result ≡ record { structures = []; places = [] } }
        ensures indexed { (counted : List Bool) → IsIndexed counted result }
    {
        Members {
            structures: Vec::new(alloc),
            places: BTreeMap::new(alloc),
        }
    }

    /// The structures in order.
    pub fn as_slice(&self) -> &[Structure]
        ensures { result.now ≡ self.now.structures }
    {
        self.structures.as_slice()
    }

    /// The structures in order, in a vector.
    pub fn into_vec(self) -> Vec<Structure>
        ensures { result.items ≡ self.structures }
    {
        self.structures
    }

    /// Joins the structure into that of its key, by the predicates whose flag is true, or puts it behind the
    /// others where there is none; it owns the structure from then on.
    ///
    /// # Errors
    /// Lack of memory. Then the structures are as they were, but of the places that are noted nothing is
    /// said, so that no more may be put here.
    pub fn put(&mut self, alloc: Global, counted: &[bool], s: Structure) -> Result<Put, AllocError>
        requires can { CanPut counted.now s self.old }
        ensures puts { IfOk result (Puts counted.now self.old.structures s self.new.structures) }
        ensures indexed { OnOk result (IsIndexed counted.now self.new) }
        ensures kept { OnErr result (self.new.structures ≡ self.old.structures) }
    {
        let key = skeleton(alloc, counted, &s)?;
        match self.place_of(&key) {
            Some(place) => Ok(self.join_at(counted, place, s)),
            None => {
                self.push(counted, key, s)?;
                Ok(Put::Added)
            }
        }
    }

    /// The place that is noted for the skeleton.
    fn place_of(&self, key: &Structure) -> Option<usize>
        ensures { result ≡ place_in self.now.places key.now }
    {
        match self.places.get(key) {
            None => None,
            Some(place) => Some(*place),
        }
    }

    /// Joins the structure into that at the place, which has its key.
    fn join_at(&mut self, counted: &[bool], place: usize, s: Structure) -> Put
        requires can { CanPut counted.now s self.old }
        requires key { (t : StructureForm) × (slice_get self.old.structures place ≡ Some t)
            × SameKey counted.now s t }
        ensures puts { Puts counted.now self.old.structures s self.new.structures result }
        ensures indexed { IsIndexed counted.now self.new }
    {
        let mut joined = s;
        join_into(&mut joined, &self.structures[place], counted);
        if is_same(&joined, &self.structures[place]) {
            return Put::Known;
        }
        self.structures[place] = joined;
        Put::Raised(place)
    }

    /// Puts the structure behind the others, and notes its place by its skeleton.
    fn push(&mut self, counted: &[bool], key: Structure, s: Structure) -> Result<(), AllocError>
        requires key { IsSkeleton counted.now s key }
        requires unmarked { s.fresh ≡ None }
        requires indexed { IsIndexed counted.now self.old }
        requires none { place_in self.old.places key ≡ None }
        ensures added { OnOk result (IsAdded counted.now self.old.structures s self.new.structures) }
        ensures indexed { OnOk result (IsIndexed counted.now self.new) }
        ensures kept { OnErr result (self.new.structures ≡ self.old.structures) }
    {
        let _ = s.size();
        let place = self.structures.len();
        self.places.insert(key, place)?;
        self.structures.push(s)?;
        Ok(())
    }
}

/// Whether both are equal, marks aside.
fn is_same(s: &Structure, t: &Structure) -> bool
    ensures { MatchBool result (unmarked s.now ≡ unmarked t.now) (¬ (unmarked s.now ≡ unmarked t.now)) }
{
    s.compare(t) == Ordering::Equal
}
