//! Losses, each in one line.

ghost use Rattle.std.specs.Prelude.{◌≡◌, ◌++◌, ◌<◌, IfOk, OnOk, Some, length, slice_get};
ghost use Rattle.tv_model.specs.Program.{program_of};
ghost use Rattle.tv_model.specs.Valid.{IsValid};
ghost use Rattle.tv_losses_text.specs.Texts.{edge_loss, edge_losses, initial_loss, initial_losses};
ghost use Rattle.tv_losses_text.specs.Texts.{losses_text, lost_lines, node_loss, node_losses};
ghost use Rattle.tv_losses_text.specs.Texts.{claim_in};
ghost use Rattle.tv_losses_text.specs.Texts.{head_line, name_written};

use std::alloc::{AllocError, Global};
use tv_claim_text::ClaimNames;
use tv_edge_heads::head_at;
use tv_file_lines::append_numbered;
use tv_losses::{EdgeLoss, Losses};
use tv_losses_unmet::Claim;
use tv_model::{Bytes, Names, Program};

/// Appends that the initial structure of this number has no opening, and which declaration it contradicts.
fn append_initial(
    out: &mut Vec<u8>,
    of: &ClaimNames<'_>,
    number: usize,
    claim: Option<Claim>,
) -> Result<(), AllocError>
    ensures { OnOk result
        (out.new.items ≡ out.old.items ++ initial_loss (program_of of.now) number claim) }
{
    append_numbered(out, b"initial ", number)?;
    out.extend_from_slice(b" has no opening, by ")?;
    of.append(out, claim)?;
    out.extend_from_slice(b"\n")
}

/// The claim in this place.
fn claim_at(claims: &[Option<Claim>], place: usize) -> Option<Claim>
    ensures { result ≡ claim_in (slice_get claims.now place) }
{
    match claims.get(place) {
        None => None,
        Some(claim) => *claim,
    }
}

/// The number in this place.
pub(crate) fn number_at(numbers: &[usize], place: usize) -> usize
    requires { place < length numbers.now }
    ensures { slice_get numbers.now place ≡ Some result }
{
    numbers[place]
}

/// Appends the same of each, with the claim in its place.
fn append_initials(
    out: &mut Vec<u8>,
    of: &ClaimNames<'_>,
    claims: &[Option<Claim>],
    numbers: &[usize],
) -> Result<(), AllocError>
    ensures { OnOk result (out.new.items
        ≡ out.old.items ++ initial_losses (program_of of.now) claims.now 0 numbers.now) }
{
    for place in 0..numbers.len() {
        let number = number_at(numbers, place);
        let claim = claim_at(claims, place);
        append_initial(out, of, number, claim)?;
    }
    Ok(())
}

/// Appends the name of the node.
fn append_name(out: &mut Vec<u8>, names: &Names, node: usize) -> Result<(), AllocError>
    ensures { OnOk result (out.new.items ≡ out.old.items ++ name_written names.now node) }
{
    match names.as_slice().get(node) {
        None => Ok(()),
        Some(name) => out.extend_from_slice(name.as_slice()),
    }
}

/// Appends that nothing is listed at the node.
fn append_node(out: &mut Vec<u8>, names: &Names, node: usize) -> Result<(), AllocError>
    ensures { OnOk result (out.new.items ≡ out.old.items ++ node_loss names.now node) }
{
    out.extend_from_slice(b"node ")?;
    append_name(out, names, node)?;
    out.extend_from_slice(b" lists nothing\n")
}

/// Appends the same of each.
fn append_nodes(out: &mut Vec<u8>, names: &Names, nodes: &[usize]) -> Result<(), AllocError>
    ensures { OnOk result (out.new.items ≡ out.old.items ++ node_losses names.now nodes.now) }
{
    for node in nodes {
        append_node(out, names, *node)?;
    }
    Ok(())
}

/// Appends the head of the edge of this number.
fn append_head(out: &mut Vec<u8>, heads: &[Bytes], number: u32) -> Result<(), AllocError>
    ensures { OnOk result (out.new.items ≡ out.old.items ++ head_line heads.now number) }
{
    out.extend_from_slice(head_at(heads, number as usize))?;
    out.extend_from_slice(b"\n")
}

/// Appends how many of how many structures are lost along the edge, and the first of them.
fn append_edge(out: &mut Vec<u8>, heads: &[Bytes], loss: &EdgeLoss) -> Result<(), AllocError>
    ensures { OnOk result (out.new.items ≡ out.old.items ++ edge_loss heads.now loss.now) }
{
    append_numbered(out, b"edge ", loss.edge as usize)?;
    append_numbered(out, b" loses ", loss.lost)?;
    append_numbered(out, b" of ", loss.listed)?;
    append_numbered(out, b" structures, first ", loss.first)?;
    out.extend_from_slice(b"  ")?;
    append_head(out, heads, loss.edge)
}

/// Appends the same of each.
fn append_edges(out: &mut Vec<u8>, heads: &[Bytes], losses: &[EdgeLoss]) -> Result<(), AllocError>
    ensures { OnOk result (out.new.items ≡ out.old.items ++ edge_losses heads.now losses.now) }
{
    for loss in losses {
        append_edge(out, heads, loss)?;
    }
    Ok(())
}

/// Appends a line for each loss.
fn append_losses(
    out: &mut Vec<u8>,
    of: &ClaimNames<'_>,
    heads: &[Bytes],
    claims: &[Option<Claim>],
    losses: &Losses,
) -> Result<(), AllocError>
    ensures { OnOk result (out.new.items
        ≡ out.old.items ++ lost_lines (program_of of.now) heads.now claims.now losses.now) }
{
    append_initials(out, of, claims, losses.initial.as_slice())?;
    append_nodes(out, &of.program().nodes, losses.nodes.as_slice())?;
    append_edges(out, heads, losses.edges.as_slice())
}

/// The losses, each in one line: `initial 2 has no opening, by rule 0`, `node L3 lists nothing`, and
/// `edge 4 loses 3 of 5 structures, first 0  p.tvp:9  L1 Copy_Var ( y , x ) L2`, with the head of the edge;
/// `nothing is lost` where there are none. The heads are those of the program's edges, and the claims, one
/// for each initial structure that is lost, the declarations that these contradict: `by the declaration of
/// x`, or `by declarations together` where there is no claim. Rules have the numbers that `replay` tells:
/// those of properties come first.
///
/// # Errors
/// Lack of memory.
pub(crate) fn losses_text(
    alloc: Global,
    program: &Program,
    heads: &[Bytes],
    claims: &[Option<Claim>],
    losses: &Losses,
) -> Result<Vec<u8>, AllocError>
    requires { IsValid (program_of program.now) }
    ensures { IfOk result
        (λ text. text.items ≡ losses_text (program_of program.now) heads.now claims.now losses.now) }
{
    let mut out = Vec::new(alloc);
    if losses.are_none() {
        out.extend_from_slice(b"nothing is lost\n")?;
        return Ok(out);
    }
    let of = ClaimNames::new(alloc, program)?;
    append_losses(&mut out, &of, heads, claims, losses)?;
    Ok(out)
}
