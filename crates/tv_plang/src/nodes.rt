//! Positions as nodes, numbered in the order in which edges first come to them.

ghost use Rattle.std.specs.Prelude.{◌≡◌, ◌<◌, ◌^◌, [], length, map, IfOk, OnOk};
ghost use Rattle.std.specs.List.{flat_map};
ghost use Rattle.tv_model.specs.Valid.{first_occurrences};
ghost use Rattle.tv_plang_laws.specs.Compiled.{edges_between, ends, node_name, place_among};
ghost use Rattle.tv_plang.specs.Arcs.{arcs_of};
ghost use Rattle.tv_plang.specs.Nodes.{seen};

use crate::arcs::Arc;
use indexmap::IndexSet;
use itoa::Buffer;
use std::alloc::{AllocError, Global};
use tv_model::{Bytes, Edge, Items};

/// Positions, each once in order of first sight.
#[derive(Drop)]
pub struct Positions {
    list: IndexSet<u32>,
}

impl Positions {
    fn new(alloc: Global) -> Positions
        ensures { result.list.keys ≡ [] }
    {
        Positions {
            list: IndexSet::new(alloc),
        }
    }

    // Puts the position behind the others if it is new.
    fn see(&mut self, position: u32) -> Result<(), AllocError>
        ensures { OnOk result (self.new.list.keys ≡ seen self.old.list.keys position) }
    {
        self.list.insert(position)?;
        Ok(())
    }

    // The place of the position, or the number of all where it isn't there.
    fn place(&self, position: u32) -> u32
        requires few { length self.now.list.keys < 2 ^ 32 }
        ensures { result ≡ place_among self.now.list.keys position }
    {
        match self.list.get_index_of(&position) {
            Some(place) => place as u32,
            None => self.list.len() as u32,
        }
    }

    /// The positions that the arcs come to.
    pub fn of(alloc: Global, arcs: &[Arc]) -> Result<Positions, AllocError>
        ensures { IfOk result
            (λ places. places.list.keys ≡ first_occurrences (flat_map ends (arcs_of arcs.now))) }
    {
        let mut places = Positions::new(alloc);
        for arc in arcs {
            places.see(arc.from)?;
            places.see(arc.to)?;
        }
        Ok(places)
    }

    /// How many there are.
    pub fn len(&self) -> usize
        ensures { result ≡ length self.now.list.keys }
    {
        self.list.len()
    }

    /// The edges of the arcs.
    pub fn edges(&self, alloc: Global, arcs: &[Arc]) -> Result<Vec<Edge>, AllocError>
        requires few { length self.now.list.keys < 2 ^ 32 }
        requires arcs { length arcs.now < 2 ^ 32 }
        ensures { IfOk result (λ edges. edges.items ≡ edges_between self.now.list.keys 0 (arcs_of arcs.now)) }
    {
        let mut edges = Vec::new(alloc);
        let mut action: u32 = 0;
        for arc in arcs {
            edges.push(Edge {
                from: self.place(arc.from),
                action,
                to: self.place(arc.to),
            })?;
            action += 1;
        }
        Ok(edges)
    }

    /// The names of the nodes.
    pub fn names(&self, alloc: Global, last: u32) -> Result<Vec<Bytes>, AllocError>
        ensures { IfOk result (λ names. names.items ≡ map (node_name last) self.now.list.keys) }
    {
        let mut names = Vec::new(alloc);
        for position in self.list.as_slice() {
            names.push(name(alloc, *position, last)?)?;
        }
        Ok(names)
    }
}

/// `S0`, `S1` and so on, and `Exit` behind the last statement.
fn name(alloc: Global, position: u32, last: u32) -> Result<Bytes, AllocError>
    ensures { IfOk result (λ name. name ≡ node_name last position) }
{
    let mut text = Vec::new(alloc);
    if position == last {
        text.extend_from_slice(b"Exit")?;
    } else {
        let mut digits = Buffer::new();
        text.extend_from_slice(b"S")?;
        text.extend_from_slice(digits.format(position).as_bytes())?;
    }
    Ok(Items::from_vec(text))
}
