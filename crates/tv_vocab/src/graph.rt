//! Nodes and edges.

ghost use Rattle.std.specs.Prelude.{ℕ, ◌≡◌, ◌≤◌, ◌<◌, ◌++◌, ◌∷◌, [], false, map, length, IfOk, OnOk};
ghost use Rattle.std.specs.List.{position_or_len};
ghost use Rattle.tv_names.specs.Refusal.{GivesOrRefuses, one_by_one};
ghost use Rattle.tv_tree.specs.Names.{is_among};
ghost use Rattle.tv_flat.specs.FlatForm.{flat_edge_of};
ghost use Rattle.tv_vocab.specs.Graph.{with_node, node_number, with_edge, no_graph};

use indexmap::IndexSet;
use std::alloc::{AllocError, Global};
use tv_flat::FlatEdge;
use tv_model::{Bytes, Edge, Items};
use tv_names::ResolveError;

/// Node names, at most 4,096, each once in order of first sight.
#[derive(Drop)]
pub struct Nodes {
    names: IndexSet<Vec<u8>>,
    ghost few: { length names.keys ≤ 4096 },
}

impl Nodes {
    ghost use Rattle.tv_vocab.specs.Views.{nodes_of};

    fn new(alloc: Global) -> Nodes
        ensures { nodes_of result ≡ [] }
    {
        Nodes {
            names: IndexSet::new(alloc),
        }
    }

    fn len(&self) -> usize
        ensures { result ≡ length (nodes_of self.now) }
    {
        self.names.len()
    }

    fn has(&self, name: &[u8]) -> bool
        ensures { result ≡ is_among (nodes_of self.now) name.now }
    {
        self.names.contains(name)
    }

    /// The number of the node, or that of all nodes where it is none.
    fn number(&self, name: &[u8]) -> u32
        ensures { result ≡ node_number name.now (nodes_of self.now) }
    {
        match self.names.get_index_of(name) {
            Some(number) => number as u32,
            None => self.names.len() as u32,
        }
    }

    fn put(&mut self, name: Vec<u8>) -> Result<(), AllocError>
        requires new { is_among (nodes_of self.old) name.items ≡ false }
        requires room { length (nodes_of self.old) < 4096 }
        ensures { OnOk result (nodes_of self.new ≡ nodes_of self.old ++ name.items ∷ []) }
    {
        self.names.insert(name)?;
        Ok(())
    }

    // Puts the node behind the others if it is new.
    #[tactic(auto, unfolding(crate::specs::Graph::with_node))]
    fn see(&mut self, alloc: Global, name: &[u8]) -> Result<(), ResolveError>
        ensures { GivesOrRefuses (λ _. nodes_of self.new) result (with_node name.now (nodes_of self.old)) }
    {
        if self.has(name) {
            return Ok(());
        }
        if self.len() >= 4096 {
            return Err(ResolveError::TooMany);
        }
        let copied = Vec::from_slice(alloc, name)?;
        self.put(copied)?;
        Ok(())
    }

    /// The names, in their order.
    pub fn names(&self, alloc: Global) -> Result<Vec<Bytes>, AllocError>
        ensures { IfOk result (λ names. names.items ≡ nodes_of self.now) }
    {
        let mut names = Vec::new(alloc);
        for name in self.names.as_slice() {
            names.push(Items::from_vec(Vec::from_slice(alloc, name)?))?;
        }
        Ok(names)
    }
}

/// Nodes and edges.
#[derive(Drop)]
pub struct Graph {
    pub nodes: Nodes,
    pub edges: Vec<Edge>,
}

impl Graph {
    ghost use Rattle.tv_vocab.specs.Views.{graph_of};

    #[tactic(auto, unfolding(crate::specs::Graph::with_edge))]
    fn put(&mut self, alloc: Global, edge: &FlatEdge<'_>) -> Result<(), ResolveError>
        ensures { GivesOrRefuses (λ _. graph_of self.new) result
            (with_edge (graph_of self.old) (flat_edge_of edge.now)) }
    {
        self.nodes.see(alloc, edge.from)?;
        self.nodes.see(alloc, edge.to)?;
        if self.edges.len() >= 16384 {
            return Err(ResolveError::TooMany);
        }
        let numbered = Edge {
            from: self.nodes.number(edge.from),
            action: edge.action,
            to: self.nodes.number(edge.to),
        };
        self.edges.push(numbered)?;
        Ok(())
    }

    /// The nodes and edges of these edges.
    pub fn of(alloc: Global, edges: &[FlatEdge<'_>]) -> Result<Graph, ResolveError>
        ensures { GivesOrRefuses graph_of result
            (one_by_one with_edge no_graph (map flat_edge_of edges.now)) }
    {
        let mut graph = Graph {
            nodes: Nodes::new(alloc),
            edges: Vec::new(alloc),
        };
        for edge in edges {
            graph.put(alloc, edge)?;
        }
        Ok(graph)
    }
}
