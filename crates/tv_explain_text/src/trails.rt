//! Trails: the structures that an abstract run goes through, each in one line.

ghost use Rattle.std.specs.Prelude.{◌≡◌, ◌≤◌, ◌++◌, All, IfOk, OnOk, codes, length};
ghost use Rattle.tv_model.specs.Program.{program_of};
ghost use Rattle.tv_model.specs.Valid.{IsValid};
ghost use Rattle.tv_structure_form.specs.StructureForm.{IsOver};
ghost use Rattle.tv_edge_heads.specs.Heads.{head_at};
ghost use Rattle.tv_explain_text.specs.Texts.{CanShow, numbered_edge};
ghost use Rattle.tv_explain_text.specs.Trails.{at_hand_line, is_text, link_line, link_lines, opening_line};
ghost use Rattle.tv_explain_text.specs.Trails.{raised_line, trail_text, value_text};

use crate::edges::append_numbered_edge;
use std::alloc::{AllocError, Global};
use tv_edge_heads::head_at;
use tv_file_lines::append_numbered;
use tv_kleene::K3;
use tv_model::{Bytes, Program, Vocab};
use tv_show::append_line;
use tv_struct::Structure;
use tv_trail_laws::{Link, Trail};

/// A message of an edge, by its number among those of the edge's action: its value, its text, and a structure
/// at hand at which its condition has the value.
#[derive(Clone, Copy)]
pub struct Told<'a> {
    pub edge: u32,
    pub number: u32,
    pub value: K3,
    pub text: &'a [u8],
    pub at_hand: &'a Structure,
}

/// Appends the edge of this number, by its head among these.
fn append_edge_at(out: &mut Vec<u8>, heads: &[Bytes], number: u32) -> Result<(), AllocError>
    ensures { OnOk result
        (out.new.items ≡ out.old.items ++ numbered_edge number (head_at heads.now number)) }
{
    append_numbered_edge(out, number as usize, head_at(heads, number as usize))
}

/// Appends an initial structure's number and its opening.
///
/// # Errors
/// Lack of memory.
pub fn append_opening(
    alloc: Global,
    out: &mut Vec<u8>,
    vocab: &Vocab,
    number: usize,
    s: &Structure,
) -> Result<(), AllocError>
    requires over { IsOver vocab.now s.now }
    requires count { length vocab.now.preds ≤ 512 }
    ensures { OnOk result (out.new.items ≡ out.old.items ++ opening_line vocab.now number s.now) }
{
    append_numbered(out, b"initial ", number)?;
    append_line(alloc, out, vocab, s)?;
    out.extend_from_slice(b"\n")
}

/// Appends the edge of a link, by its head among these, and the structure that comes of it.
///
/// # Errors
/// Lack of memory.
pub fn append_link(
    alloc: Global,
    out: &mut Vec<u8>,
    vocab: &Vocab,
    heads: &[Bytes],
    link: &Link,
) -> Result<(), AllocError>
    requires over { IsOver vocab.now link.now.structure }
    requires count { length vocab.now.preds ≤ 512 }
    ensures { OnOk result
        (out.new.items ≡ out.old.items ++ link_line vocab.now heads.now link.now) }
{
    append_edge_at(out, heads, link.edge)?;
    append_line(alloc, out, vocab, &link.structure)?;
    out.extend_from_slice(b"\n")
}

/// Appends links, one behind the other.
fn append_links(
    alloc: Global,
    out: &mut Vec<u8>,
    vocab: &Vocab,
    heads: &[Bytes],
    links: &[Link],
) -> Result<(), AllocError>
    requires over { All (λ link. IsOver vocab.now link.structure) links.now }
    requires count { length vocab.now.preds ≤ 512 }
    ensures { OnOk result
        (out.new.items ≡ out.old.items ++ link_lines vocab.now heads.now links.now) }
{
    for i in 0..links.len() {
        append_link(alloc, out, vocab, heads, &links[i])?;
    }
    Ok(())
}

/// Appends a trail over the edges of these heads.
fn append_trail(
    alloc: Global,
    out: &mut Vec<u8>,
    vocab: &Vocab,
    heads: &[Bytes],
    trail: &Trail,
) -> Result<(), AllocError>
    requires opening { IsOver vocab.now trail.now.opening }
    requires links { All (λ link. IsOver vocab.now link.structure) trail.now.links }
    requires count { length vocab.now.preds ≤ 512 }
    ensures { OnOk result
        (out.new.items ≡ out.old.items ++ trail_text vocab.now heads.now trail.now) }
{
    append_opening(alloc, out, vocab, trail.initial, &trail.opening)?;
    append_links(alloc, out, vocab, heads, trail.links.as_slice())
}

/// A value as reports have it.
fn value_name(value: K3) -> &'static [u8]
    ensures { result.now ≡ value_text value }
{
    match value {
        K3::No => b"0",
        K3::Half => b"1/2",
        K3::Yes => b"1",
    }
}

/// Appends a value behind ` is `, and the mark in front of a text.
fn append_value(out: &mut Vec<u8>, value: K3) -> Result<(), AllocError>
    ensures { OnOk result (out.new.items ≡ out.old.items ++ is_text value) }
{
    out.extend_from_slice(b" is ")?;
    out.extend_from_slice(value_name(value))?;
    out.extend_from_slice(b": \"")
}

/// Appends the edge of a message and behind it the message with its value.
fn append_raised(out: &mut Vec<u8>, heads: &[Bytes], told: &Told<'_>) -> Result<(), AllocError>
    ensures { OnOk result (out.new.items ≡ out.old.items ++ raised_line heads.now
        told.now.edge told.now.number told.now.value told.now.text.now) }
{
    append_edge_at(out, heads, told.edge)?;
    append_numbered(out, b"  message ", told.number as usize)?;
    append_value(out, told.value)?;
    out.extend_from_slice(told.text)?;
    out.extend_from_slice(b"\"\n")
}

/// Appends a structure at hand.
fn append_at_hand(
    alloc: Global,
    out: &mut Vec<u8>,
    vocab: &Vocab,
    s: &Structure,
) -> Result<(), AllocError>
    requires shows { CanShow vocab.now s.now }
    ensures { OnOk result (out.new.items ≡ out.old.items ++ at_hand_line vocab.now s.now) }
{
    out.extend_from_slice(b"at hand")?;
    append_line(alloc, out, vocab, s)?;
    out.extend_from_slice(b"\n")
}

/// A trail of a program, whose edges have these heads: `initial NUMBER` and its opening in one line, and for
/// each link in one line `edge NUMBER`, the edge's head, and the structure that comes of it.
///
/// # Errors
/// Lack of memory.
pub fn trail_text(
    alloc: Global,
    program: &Program,
    heads: &[Bytes],
    trail: &Trail,
) -> Result<Vec<u8>, AllocError>
    requires valid { IsValid (program_of program.now) }
    requires opening { IsOver program.now.vocab trail.now.opening }
    requires links { All (λ link. IsOver program.now.vocab link.structure) trail.now.links }
    ensures { IfOk result
        (λ text. text.items ≡ trail_text program.now.vocab heads.now trail.now) }
{
    let mut out = Vec::new(alloc);
    append_trail(alloc, &mut out, &program.vocab, heads, trail)?;
    Ok(out)
}

/// Appends the line of a message that may be true at the end of a trail: the message's edge, and
/// `message NUMBER is VALUE: "TEXT"`; and behind it a line `at hand` with the structure at hand that is told.
///
/// # Errors
/// Lack of memory.
pub fn append_alarm(
    alloc: Global,
    out: &mut Vec<u8>,
    program: &Program,
    heads: &[Bytes],
    told: &Told<'_>,
) -> Result<(), AllocError>
    requires valid { IsValid (program_of program.now) }
    requires at_hand { IsOver program.now.vocab told.now.at_hand.now }
    ensures { OnOk result (out.new.items ≡ out.old.items ++ (raised_line heads.now told.now.edge
        told.now.number told.now.value told.now.text.now
        ++ at_hand_line program.now.vocab told.now.at_hand.now)) }
{
    append_raised(out, heads, told)?;
    append_at_hand(alloc, out, &program.vocab, told.at_hand)
}
