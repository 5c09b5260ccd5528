//! The edges that leave each node.

ghost use Rattle.std.specs.Prelude.{◌≡◌, ◌<◌, [], ◌∷◌, ◌++◌, length, replicate, slice_set, slice_index_or};
ghost use Rattle.std.specs.Prelude.{IfOk, OnOk};
ghost use Rattle.tv_model.specs.Program.{program_of};
ghost use Rattle.tv_model.specs.Valid.{IsValid};
ghost use Rattle.tv_work.specs.Leaving.{AreLeaving};

use std::alloc::{AllocError, Global};
use tv_model::{Items, Program};
use tv_struct::Numbers;

/// For each node the numbers of the edges that leave it, strictly ascending.
pub fn leaving_edges(alloc: Global, program: &Program) -> Result<Vec<Numbers>, AllocError>
    requires valid { IsValid (program_of program.now) }
    ensures { IfOk result (λ lists. AreLeaving program.now.edges (length program.now.nodes) lists.items) }
{
    let mut lists = no_numbers(alloc, program.nodes.len())?;
    for (number, edge) in program.edges.as_slice().iter().enumerate() {
        put(&mut lists, edge.from, number as u32)?;
    }
    Ok(lists)
}

/// So many empty lists.
fn no_numbers(alloc: Global, count: usize) -> Result<Vec<Numbers>, AllocError>
    ensures { IfOk result (λ lists. lists.items ≡ replicate count []) }
{
    let mut lists = Vec::with_capacity(alloc, count)?;
    for _ in 0..count {
        lists.push(Items::new(alloc))?;
    }
    Ok(lists)
}

/// Puts the number behind those of the node.
fn put(lists: &mut Vec<Numbers>, node: u32, number: u32) -> Result<(), AllocError>
    requires { node < length lists.old.items }
    ensures { OnOk result (lists.new.items
        ≡ slice_set lists.old.items node (slice_index_or lists.old.items node [] ++ number ∷ [])) }
{
    let list = &mut lists[node as usize];
    list.push(number)
}
