//! The structures at one node of a listing.

ghost use Rattle.std.specs.Prelude.{◌≡◌, ◌<◌, [], ◌∷◌, ◌++◌, length, is_ok, if◌then◌else◌, IfOk, Some};
ghost use Rattle.std.specs.Prelude.{slice_get, IsTrue, ◌↔◌};
ghost use Rattle.tv_listing.specs.ListingForm.{Adds, HasEqual, IsSortedFrom};

use crate::hashed::Hashed;
use indexmap::IndexSet;
use std::alloc::{AllocError, Global};
use std::marker::Model;
use tv_struct::Structure;

/// Structures in the order in which they came. As long as they are only added, each of them stands there
/// once, and an equal one is found by its signature; from the first that is pushed on, which may be there
/// already, they are searched one by one.
#[derive(Drop)]
pub struct Node {
    added: IndexSet<Hashed>,
    pushed: Vec<Hashed>,
}

impl Model for Node {
    ghost use Rattle.std.specs.Prelude.{List, ◌++◌};
    ghost use Rattle.tv_structure_form.specs.StructureForm.{StructureForm};

    ghost Value = { List StructureForm };

    ghost view = { λ n. n.added.keys ++ n.pushed.items };
}

impl Node {
    /// No structures; takes no memory.
    pub fn new(alloc: Global) -> Node
        ensures { result ≡ [] }
    {
        Node {
            added: IndexSet::new(alloc),
            pushed: Vec::new(alloc),
        }
    }

    /// The number of structures.
    pub fn len(&self) -> usize
        ensures { result ≡ length self.now }
    {
        self.added.len() + self.pushed.len()
    }

    /// The structure at place `i`.
    pub fn at(&self, i: usize) -> &Structure
        requires { i < length self.now }
        ensures { slice_get self.now i ≡ Some result.now }
    {
        let added = self.added.as_slice();
        if i < added.len() {
            let s = &added[i];
            s.structure()
        } else {
            let s = &self.pushed[i - added.len()];
            s.structure()
        }
    }

    /// Puts the structure behind the others. At an error they are as before.
    pub fn push(&mut self, alloc: Global, s: Structure) -> Result<(), AllocError>
        ensures { self.new ≡ (if is_ok result then self.old ++ s ∷ [] else self.old) }
    {
        self.pushed.push(Hashed::new(alloc, s)?)?;
        Ok(())
    }

    /// Puts the structure behind the others where none of them is equal to it, marks aside, and tells
    /// whether it did. At an error the structures are as before.
    pub fn add(&mut self, alloc: Global, s: Structure) -> Result<bool, AllocError>
        ensures { Adds self.old self.new s result }
    {
        let s = Hashed::new(alloc, s)?;
        if self.pushed.is_empty() {
            return Ok(self.added.insert(s)?);
        }
        if self.has(&s) {
            return Ok(false);
        }
        self.pushed.push(s)?;
        Ok(true)
    }

    /// Whether one of the structures is equal to `s`, marks aside.
    fn has(&self, s: &Hashed) -> bool
        ensures { IsTrue result ↔ HasEqual self.now s.now }
    {
        self.added.contains(s) || self.pushed.contains(s)
    }

    /// The node's structures in ascending order.
    pub fn sorted(self, alloc: Global) -> Result<Node, AllocError>
        ensures { IfOk result (IsSortedFrom self) }
    {
        let mut structures = self.into_structures(alloc)?;
        structures.sort()?;
        Ok(Node {
            added: IndexSet::new(alloc),
            pushed: structures,
        })
    }

    /// The structures in order.
    fn into_structures(self, alloc: Global) -> Result<Vec<Hashed>, AllocError>
        ensures { IfOk result (λ structures. structures.items ≡ self) }
    {
        let Node { added, mut pushed } = self;
        let mut structures = Vec::with_capacity(alloc, added.len())?;
        for s in added {
            structures.push(s)?;
        }
        structures.append(&mut pushed)?;
        Ok(structures)
    }
}
