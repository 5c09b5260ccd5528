//! The heads of control edges.

ghost use Rattle.std.specs.Prelude.{◌≡◌, IfOk, List, Ok};
ghost use Rattle.tv_edge_heads.specs.EdgePlaces.{IsOnLine};
ghost use Rattle.tv_lex.specs.Parts.{IsMadeOf};
ghost use Rattle.tv_lex.specs.Pieces.{Reads};
ghost use Rattle.tv_lex.specs.Token.{spec_tokens};
ghost use Rattle.tv_lex.specs.Traced.{Traced};
ghost use Rattle.tv_parse.specs.Grammar.{IsProgram};
ghost use Rattle.tv_tree.specs.Copies.{edge_of, program_of};
ghost use Rattle.tv_edge_heads.specs.Heads.{AreHeads, IsHead, IsHeadOf, head_at};

use crate::places::edge_places;
use std::alloc::{AllocError, Global};
use tv_file_lines::{FileLine, FileLines, append_file_line};
use tv_lex::{Gathered, Tokens};
use tv_model::Bytes;
use tv_tree::{EdgeTree, Tree, print_edge};

/// The head of an edge that stands in this line.
fn head_of(alloc: Global, at: &FileLine, edge: &EdgeTree<'_>) -> Result<Bytes, AllocError>
    ensures { IfOk result (IsHeadOf (edge_of edge.now) at.now.name.now at.now.line) }
{
    let mut head = Vec::new(alloc);
    append_file_line(&mut head, at)?;
    head.extend_from_slice(b"  ")?;
    print_edge(&mut head, edge)?;
    head.pop();
    Ok(Bytes::from_vec(head))
}

/// The head of an edge that stands at this place. It is empty where no line of a file is known, which is so
/// at no place of an edge.
fn head_from(
    alloc: Global,
    lines: &mut FileLines,
    place: u32,
    edge: &EdgeTree<'_>,
) -> Result<Bytes, AllocError>
    ensures same { lines.new ≡ lines.old }
    ensures head { IfOk result (λ head. (traced : List Traced) → IsMadeOf traced lines.old
        → IsOnLine lines.old.bytes.items place → IsHead traced (edge_of edge.now) place head) }
{
    let Some(at) = lines.line_at(place as usize) else {
        return Ok(Bytes::new(alloc));
    };
    head_of(alloc, &at, edge)
}

/// The heads of the control edges of a program, in their order. A head is the line of a file of which the
/// edge's first byte is, and the edge as it is printed, in one line without a line feed:
/// `program.tvp:41  L2 Get_Next_L ( x , y ) L3`. The tokens are those of the gathered text, and the tree is
/// theirs.
///
/// # Errors
/// Lack of memory.
pub fn edge_heads(
    alloc: Global,
    gathered: &Gathered,
    tokens: &Tokens,
    tree: &Tree<'_>,
) -> Result<Vec<Bytes>, AllocError>
    requires reads { Reads gathered.now.bytes.items (Ok tokens.now.list.items) }
    requires program { IsProgram
        (spec_tokens gathered.now.bytes.items tokens.now.list.items) (program_of tree.now) }
    ensures { IfOk result (λ heads. (traced : List Traced) → IsMadeOf traced gathered.now
        → AreHeads traced gathered.now.bytes.items (program_of tree.now) heads.items) }
{
    let edges = tree.edges.as_slice();
    let places = edge_places(alloc, tokens, tree)?;
    let mut lines = FileLines::of(gathered);
    let mut heads = Vec::with_capacity(alloc, edges.len())?;
    for number in 0..edges.len() {
        let head = head_from(alloc, &mut lines, places[number], &edges[number])?;
        heads.push(head)?;
    }
    Ok(heads)
}

/// The head of the edge of this number; nothing where there is none.
pub fn head_at(heads: &[Bytes], number: usize) -> &[u8]
    ensures { result.now ≡ head_at heads.now number }
{
    match heads.get(number) {
        Some(head) => head.as_slice(),
        None => &[],
    }
}
