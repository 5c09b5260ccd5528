//! The structures of a listing, each in one line.

ghost use Rattle.std.specs.Prelude.{◌≡◌, ◌++◌, IfOk, OnOk, codes};
ghost use Rattle.tv_listing.specs.Listed.{IsListing};
ghost use Rattle.tv_listing.specs.ListingForm.{at_node};
ghost use Rattle.tv_model.specs.Program.{program_of};
ghost use Rattle.tv_model.specs.Valid.{IsValid};
ghost use Rattle.tv_explain_text.specs.Texts.{CanShow, CanShowNode, structure_line, structure_lines};
ghost use Rattle.tv_explain_text.specs.Texts.{node_line};
ghost use Rattle.tv_explain_text.specs.Texts.{nodes_text, shown_text};

use std::alloc::{AllocError, Global};
use tv_file_lines::append_numbered;
use tv_listing::Listing;
use tv_model::{Program, Vocab};
use tv_show::append_line;
use tv_struct::Structure;

/// Appends a structure in one line, behind its place.
fn append_structure(
    alloc: Global,
    out: &mut Vec<u8>,
    vocab: &Vocab,
    place: usize,
    s: &Structure,
) -> Result<(), AllocError>
    requires shows { CanShow vocab.now s.now }
    ensures { OnOk result (out.new.items ≡ out.old.items ++ structure_line vocab.now place s.now) }
{
    append_numbered(out, b"", place)?;
    append_line(alloc, out, vocab, s)?;
    out.extend_from_slice(b"\n")
}

/// Appends the structures of a node, each in one line behind its place.
fn append_structures(
    alloc: Global,
    out: &mut Vec<u8>,
    vocab: &Vocab,
    listing: &Listing,
    node: u32,
) -> Result<(), AllocError>
    requires shows { CanShowNode vocab.now listing.now node }
    ensures { OnOk result
        (out.new.items ≡ out.old.items ++ structure_lines vocab.now 0 (at_node listing.now node)) }
{
    for i in 0..listing.count(node) {
        append_structure(alloc, out, vocab, i, listing.at(node, i))?;
    }
    Ok(())
}

/// Appends the line of a node that has so many structures.
pub fn append_node_line(out: &mut Vec<u8>, name: &[u8], count: usize) -> Result<(), AllocError>
    ensures { OnOk result (out.new.items ≡ out.old.items ++ node_line name.now count) }
{
    out.extend_from_slice(b"node ")?;
    out.extend_from_slice(name)?;
    append_numbered(out, b" structures ", count)?;
    out.extend_from_slice(b"\n")
}

/// The structures of a listing of the program, each in one line, as `append_line` of `tv_show` writes them,
/// behind its place among those of its node, from 0 on. The nodes come by number, each with a line before its
/// structures: `node L1 structures 2`.
///
/// # Errors
/// Lack of memory.
pub fn shown_text(
    alloc: Global,
    program: &Program,
    listing: &Listing,
) -> Result<Vec<u8>, AllocError>
    requires valid { IsValid (program_of program.now) }
    requires listing { IsListing program.now listing.now }
    ensures { IfOk result (λ text. text.items ≡ shown_text program.now listing.now) }
{
    let mut out = Vec::new(alloc);
    let names = program.nodes.as_slice();
    for number in 0..names.len() {
        let node = number as u32;
        let name = names[number].as_slice();
        append_node_line(&mut out, name, listing.count(node))?;
        append_structures(alloc, &mut out, &program.vocab, listing, node)?;
    }
    Ok(out)
}
