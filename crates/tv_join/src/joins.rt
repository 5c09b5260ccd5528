//! What is listed, at all nodes.

ghost use Rattle.std.specs.Prelude.{◌≡◌, ◌≢◌, ◌<◌, ◌≤◌, ◌^◌, ℕ, [], All, Contains, None, Some, IfOk, IfErr};
ghost use Rattle.std.specs.Prelude.{MatchBool, OnOk, length, replicate, slice_set};
ghost use Rattle.tv_listing.specs.ListingForm.{at_node};
ghost use Rattle.tv_model.specs.Program.{program_of};
ghost use Rattle.tv_model.specs.Valid.{IsValid};
ghost use Rattle.tv_work.specs.Task.{task_of};
ghost use Rattle.tv_join.specs.Keyed.{AreFlags};
ghost use Rattle.tv_join.specs.Members.{IsIndexed};
ghost use Rattle.tv_join.specs.Flags.{key_flags};
ghost use Rattle.tv_join.specs.State.{JoinsForm, no_members, members_at, less, room_after, NotesPut};
ghost use Rattle.tv_join.specs.State.{IsPut, IsMet, IsJoinState, StandsAt, total_of};
ghost use Rattle.tv_join.specs.Stepped.{IsPlacedFound, HaveMet, IsMeetingCause};

use crate::keyed::KeyedTask;
use crate::members::{Members, Put};
use crate::places::{Place, Places};
use std::alloc::{AllocError, Global};
use std::marker::Model;
use std::mem;
use tv_listing::Listing;
use tv_struct::Structure;
use tv_work::WorkError;

/// A structure that was found for a node.
#[derive(Debug, Drop)]
pub(crate) struct Found {
    pub node: u32,
    pub structure: Structure,
}

/// The structures of each node, all of them stable: a join of stable structures is. How many more may be
/// listed, nothing where there are too many, and the places of what changed since they were handed out.
#[derive(Drop)]
pub(crate) struct Joins {
    nodes: Vec<Members>,
    room: Option<u64>,
    changed: Places,
}

impl Model for Joins {
    ghost use Rattle.tv_join.specs.State.{JoinsForm};

    ghost Value = { JoinsForm };

    ghost view = { λ j. record {
      nodes = j.nodes.items;
      room = j.room;
      changed = j.changed;
    } };
}

impl Joins {
    /// Nothing is listed.
    pub fn new(alloc: Global, nodes: usize, max: u64) -> Result<Joins, AllocError>
        ensures { IfOk result (λ j. j ≡ record {
          nodes = replicate nodes no_members;
          room = Some max;
          changed = [];
        }) }
    {
        let mut empty = Vec::with_capacity(alloc, nodes)?;
        for _ in 0..nodes {
            empty.push(Members::new(alloc))?;
        }
        Ok(Joins {
            nodes: empty,
            room: Some(max),
            changed: Places::new(alloc),
        })
    }

    /// Hands out the places of what changed. From here on nothing has changed.
    pub fn take_changed(&mut self, alloc: Global) -> Places
        ensures taken { result ≡ self.old.changed }
        ensures left { self.new ≡ record {
          nodes = self.old.nodes;
          room = self.old.room;
          changed = [];
        } }
    {
        mem::replace(&mut self.changed, Places::new(alloc))
    }

    /// Joins what was found into what is listed, where nothing has changed, and notes the places of what
    /// changes. `Structures` where too many are then listed.
    pub fn meet_all(&mut self, x: &KeyedTask, found: Vec<Found>) -> Result<(), WorkError>
        requires valid { IsValid (program_of x.now.task.program.now) }
        requires flags { x.now.counted.now ≡ key_flags (program_of x.now.task.program.now) }
        requires kept { IsJoinState (task_of x.now.task) self.old }
        requires none { self.old.changed ≡ [] }
        requires placed { All (IsPlacedFound (task_of x.now.task)) found.items }
        ensures met { OnOk result (HaveMet (task_of x.now.task) self.old found.items self.new) }
        ensures within { OnOk result (total_of self.new.nodes ≤ x.now.task.max) }
        ensures cause { IfErr result (IsMeetingCause (task_of x.now.task) self.old found.items self.new) }
    {
        for f in found {
            self.meet(x, f)?;
        }
        if self.is_over() {
            return Err(WorkError::Structures);
        }
        Ok(())
    }

    /// Whether too many structures are listed.
    fn is_over(&self) -> bool
        ensures { MatchBool result (self.now.room ≡ None) ((more : ℕ) × (self.now.room ≡ Some more)) }
    {
        match self.room {
            None => true,
            Some(_) => false,
        }
    }

    /// Joins a structure into what is listed at its node.
    fn meet(&mut self, x: &KeyedTask, found: Found) -> Result<(), AllocError>
        requires node { found.node < length self.old.nodes }
        requires flags { AreFlags x.now.counted.now found.structure }
        requires unmarked { found.structure.fresh ≡ None }
        requires indexed { IsIndexed x.now.counted.now (members_at self.old.nodes found.node) }
        ensures { OnOk result (IsMet x.now.counted.now self.old found.node found.structure self.new) }
    {
        let node = found.node;
        let count = self.at_node(node).len();
        let put = self.put(x, node, found.structure)?;
        self.note(node, count, put)?;
        Ok(())
    }

    /// Puts the structure among those of the node.
    fn put(&mut self, x: &KeyedTask, node: u32, s: Structure) -> Result<Put, AllocError>
        requires node { node < length self.old.nodes }
        requires flags { AreFlags x.now.counted.now s }
        requires unmarked { s.fresh ≡ None }
        requires indexed { IsIndexed x.now.counted.now (members_at self.old.nodes node) }
        ensures { IfOk result (IsPut x.now.counted.now self.old node s self.new) }
    {
        let at = &mut self.nodes[node as usize];
        at.put(x.task.alloc, x.counted, s)
    }

    /// Notes what became of a structure that was put among those of the node, which were so many.
    fn note(&mut self, node: u32, count: usize, put: Put) -> Result<(), AllocError>
        ensures nodes { self.new.nodes ≡ self.old.nodes }
        ensures room { OnOk result (self.new.room ≡ room_after put self.old.room) }
        ensures changed { OnOk result (NotesPut node count put self.old.changed self.new.changed) }
    {
        match put {
            Put::Known => Ok(()),
            Put::Raised(at) => self.changed.note(Place { node, at }),
            Put::Added => {
                self.room = less(self.room);
                self.changed.note(Place { node, at: count })
            }
        }
    }

    /// Whether anything changed.
    pub fn has_changed(&self) -> bool
        ensures { MatchBool result (self.now.changed ≢ []) (self.now.changed ≡ []) }
    {
        !self.changed.is_empty()
    }

    /// The structures of the node.
    pub fn at_node(&self, node: u32) -> &[Structure]
        requires { node < length self.now.nodes }
        ensures { result.now ≡ (members_at self.now.nodes node).structures }
    {
        self.nodes[node as usize].as_slice()
    }

    /// The structure at the place.
    pub fn at(&self, w: Place) -> &Structure
        requires { w.at < length (members_at self.now.nodes w.node).structures }
        ensures { StandsAt self.now.nodes w result.now }
    {
        let structures = self.at_node(w.node);
        &structures[w.at]
    }

    /// What is listed, as a listing.
    pub fn into_listing(self, alloc: Global) -> Result<Listing, AllocError>
        requires { length self.nodes < 2 ^ 32 }
        ensures count { IfOk result (λ l. length l ≡ length self.nodes) }
        ensures each { IfOk result (λ l. (k : ℕ) → at_node l k ≡ (members_at self.nodes k).structures) }
    {
        let mut listing = Listing::new(alloc, self.nodes.len() as u32)?;
        let mut number = 0;
        for node in self.nodes {
            push_all(&mut listing, number, node.into_vec())?;
            number += 1;
        }
        Ok(listing)
    }
}

/// Puts the structures behind those of the node, which has none.
fn push_all(listing: &mut Listing, node: u32, structures: Vec<Structure>) -> Result<(), AllocError>
    requires node { node < length listing.old }
    requires none { at_node listing.old node ≡ [] }
    ensures node { node < length listing.old }
    ensures put { OnOk result (listing.new ≡ slice_set listing.old node structures.items) }
{
    for s in structures {
        listing.push(node, s)?;
    }
    Ok(())
}

/// One less, and nothing where there is none.
fn less(room: Option<u64>) -> Option<u64>
    ensures { result ≡ less room }
{
    match room {
        None | Some(0) => None,
        Some(more) => Some(more - 1),
    }
}
