//! Edges are the last tokens of a program but for the words behind a third `%%`, so their places are found by
//! counting from the end.

ghost use Rattle.std.specs.Prelude.{All, Ok, ◌≡◌, ℕ, ◌+◌, ◌≤◌, ◌<◌, ◌^◌, List, IfOk, length, map, drop};
ghost use Rattle.tv_lex.specs.Pieces.{Reads};
ghost use Rattle.tv_lex.specs.Token.{spec_tokens};
ghost use Rattle.tv_parse.specs.Grammar.{IsProgram};
ghost use Rattle.tv_tree.specs.Copies.{edge_of, program_of};
ghost use Rattle.tv_edge_heads.specs.EdgePlaces.{HasEdgesAt, IsOnLine};
ghost use Rattle.tv_edge_heads.specs.Widths.{edge_starts, edge_width, edges_width, first_start, list_width};
ghost use Rattle.tv_edge_heads.specs.Widths.{tail_width};

use std::alloc::{AllocError, Global};
use tv_lex::{Token, Tokens};
use tv_tree::{EdgeTree, Spelling, Spellings, Tree};

/// How many tokens a comma list of so many words has.
fn list_width(words: &[Spelling]) -> usize
    ensures { result ≡ list_width (length words.now) }
{
    words.len() + words.len().saturating_sub(1)
}

fn edge_width(edge: &EdgeTree<'_>) -> usize
    ensures { result ≡ edge_width (edge_of edge.now) }
{
    list_width(edge.arguments.as_slice()) + 5
}

fn tail_width(tail: &Option<Spellings>) -> usize
    ensures { result ≡ tail_width tail.now }
{
    match tail {
        None => 0,
        Some(words) => list_width(words.as_slice()) + 1,
    }
}

fn edges_width(edges: &[EdgeTree<'_>]) -> usize
    requires { edges_width (map edge_of edges.now) < 2 ^ 64 }
    ensures { result ≡ edges_width (map edge_of edges.now) }
{
    let mut width = 0;
    for edge in edges {
        width += edge_width(edge);
    }
    width
}

fn first_start(tokens: &[Token]) -> u32
    ensures { result ≡ first_start tokens.now }
{
    match tokens.first() {
        Some(token) => token.start,
        None => 0,
    }
}

fn behind(tokens: &[Token], width: usize) -> &[Token]
    ensures { result.now ≡ drop width tokens.now }
{
    &tokens[width.min(tokens.len())..]
}

/// Where the edges start that these tokens begin with.
fn edge_starts(
    alloc: Global,
    tokens: &[Token],
    edges: &[EdgeTree<'_>],
) -> Result<Vec<u32>, AllocError>
    ensures { IfOk result (λ starts. starts.items ≡ edge_starts tokens.now (map edge_of edges.now)) }
{
    let mut starts = Vec::new(alloc);
    let mut rest = tokens;
    for edge in edges {
        starts.push(first_start(rest))?;
        rest = behind(rest, edge_width(edge));
    }
    Ok(starts)
}

/// Where the control edges of a program start in its text, in their order: the place of the first byte of
/// each, from 0. A byte stands there, and no line feed. The tokens are those of the text, and the tree is
/// theirs.
///
/// # Errors
/// Lack of memory.
pub fn edge_places(alloc: Global, tokens: &Tokens, tree: &Tree<'_>) -> Result<Vec<u32>, AllocError>
    requires { (text : List ℕ) × IsProgram (spec_tokens text tokens.now.list.items) (program_of tree.now) }
    ensures places { IfOk result (λ places. (text : List ℕ)
        → IsProgram (spec_tokens text tokens.now.list.items) (program_of tree.now)
        → HasEdgesAt text tokens.now.list.items (program_of tree.now) places.items) }
    ensures lines { IfOk result (λ places. (text : List ℕ) → Reads text (Ok tokens.now.list.items)
        → IsProgram (spec_tokens text tokens.now.list.items) (program_of tree.now)
        → All (IsOnLine text) places.items) }
{
    let edges = tree.edges.as_slice();
    let width = edges_width(edges) + tail_width(&tree.tail);
    let front = tokens.list.len() - width;
    edge_starts(alloc, behind(&tokens.list, front), edges)
}
