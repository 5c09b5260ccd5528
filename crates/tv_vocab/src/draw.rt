//! The graph of a program.

ghost use Rattle.std.specs.Prelude.{◌≡◌, map};
ghost use Rattle.tv_names.specs.Refusal.{GivesOrRefuses, one_by_one};
ghost use Rattle.tv_flat.specs.FlatForm.{flat_edge_of};
ghost use Rattle.tv_vocab.specs.Views.{drawn_of};
ghost use Rattle.tv_vocab.specs.Graph.{with_edge, no_graph, graph};

use crate::graph::Graph;
use std::alloc::Global;
use tv_flat::FlatEdge;
use tv_model::{Edges, Items, Names};
use tv_names::ResolveError;

/// The names of the nodes, by number, and the edges.
#[derive(Drop)]
pub struct Drawn {
    pub nodes: Names,
    pub edges: Edges,
}

fn draw_some(alloc: Global, edges: &[FlatEdge<'_>]) -> Result<Drawn, ResolveError>
    ensures { GivesOrRefuses drawn_of result (one_by_one with_edge no_graph (map flat_edge_of edges.now)) }
{
    let graph = Graph::of(alloc, edges)?;
    let nodes = graph.nodes.names(alloc)?;
    let Graph { nodes: _, edges } = graph;
    Ok(Drawn {
        nodes: Items::from_vec(nodes),
        edges: Items::from_vec(edges),
    })
}

/// The nodes and edges of a program.
pub fn draw(alloc: Global, edges: &[FlatEdge<'_>]) -> Result<Drawn, ResolveError>
    ensures { GivesOrRefuses drawn_of result (graph (map flat_edge_of edges.now)) }
{
    match edges {
        [] => Err(ResolveError::NoEdge),
        [_, ..] => draw_some(alloc, edges),
    }
}
