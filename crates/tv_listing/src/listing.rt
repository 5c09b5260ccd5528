//! Lists of structures, one for each node of a program.

ghost use Rattle.std.specs.Prelude.{◌≡◌, ◌<◌, [], length, replicate, is_ok, if◌then◌else◌, slice_get, IfOk};
ghost use Rattle.std.specs.Prelude.{Some};
ghost use Rattle.tv_structure_form.specs.StructureForm.{IsStructure};
ghost use Rattle.tv_listing.specs.ListingForm.{at_node, appended, AddsAt, AreSorted};

use crate::node::Node;
use std::alloc::{AllocError, Global};
use std::marker::Model;
use std::mem::replace;
use tv_struct::Structure;

/// For each node, by number, a list of structures. It keeps the allocator that it was made with.
#[derive(Drop)]
pub struct Listing {
    alloc: Global,
    nodes: Vec<Node>,
}

impl Model for Listing {
    ghost use Rattle.std.specs.Prelude.{List};
    ghost use Rattle.tv_structure_form.specs.StructureForm.{StructureForm};

    ghost Value = { List (List StructureForm) };

    ghost view = { λ l. l.nodes.items };
}

impl Listing {
    /// An empty list for each of the nodes.
    pub fn new(alloc: Global, nodes: u32) -> Result<Listing, AllocError>
        ensures { IfOk result (λ l. l ≡ replicate nodes []) }
    {
        let mut lists = Vec::with_capacity(alloc, nodes as usize)?;
        for _ in 0..nodes {
            lists.push(Node::new(alloc))?;
        }
        Ok(Listing {
            alloc,
            nodes: lists,
        })
    }

    /// The number of structures at the node.
    pub fn count(&self, node: u32) -> usize
        requires { node < length self.now }
        ensures { result ≡ length (at_node self.now node) }
    {
        self.nodes[node as usize].len()
    }

    /// The structure at place `i` of the node.
    pub fn at(&self, node: u32, i: usize) -> &Structure
        requires node { node < length self.now }
        requires place { i < length (at_node self.now node) }
        ensures value { slice_get (at_node self.now node) i ≡ Some result.now }
        ensures kept { IsStructure result.now }
    {
        let s = self.nodes[node as usize].at(i);
        let _ = s.size();
        s
    }

    /// Puts the structure behind those of the node. At an error the listing is as before, and the
    /// structure is dropped.
    pub fn push(&mut self, node: u32, s: Structure) -> Result<(), AllocError>
        requires { node < length self.old }
        ensures { self.new ≡ (if is_ok result then appended self.old node s else self.old) }
    {
        let alloc = self.alloc;
        let list = &mut self.nodes[node as usize];
        list.push(alloc, s)
    }

    /// Puts the structure behind those of the node where none of them is equal to it, marks aside,
    /// and tells whether it did; else it is dropped. At an error the listing is as before.
    pub fn add(&mut self, node: u32, s: Structure) -> Result<bool, AllocError>
        requires { node < length self.old }
        ensures { AddsAt self.old self.new node s result }
    {
        let alloc = self.alloc;
        let list = &mut self.nodes[node as usize];
        list.add(alloc, s)
    }

    /// The listing with each node's structures in ascending order. No structure is copied.
    pub fn sorted(self) -> Result<Listing, AllocError>
        ensures { IfOk result (AreSorted self) }
    {
        let Listing { alloc, mut nodes } = self;
        for i in 0..nodes.len() {
            let node = replace(&mut nodes[i], Node::new(alloc));
            nodes[i] = node.sorted(alloc)?;
        }
        Ok(Listing { alloc, nodes })
    }
}
