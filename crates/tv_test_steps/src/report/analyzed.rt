//! What is told of an analysis.

ghost use Rattle.std.specs.Prelude.{◌<◌, ◌≤◌, All, length};
ghost use Rattle.tv_model.specs.Program.{program_of};
ghost use Rattle.tv_model.specs.Valid.{IsValid};
ghost use Rattle.tv_structure_form.specs.StructureForm.{IsOver};

use std::alloc::{AllocError, Global};
use std::cmp::Ordering;
use std::test::Fail;
use tv_listing::{Analysis, Listing, MessageLine};
use tv_model::{Mode, Program};
use tv_struct::{Structure, Structures};
use tv_test_reader::{structures, whole_program};
use tv_work::analyze;

/// The number of structures at each of the first nodes.
fn put_counts(
    alloc: Global,
    out: &mut String,
    listing: &Listing,
    nodes: u32,
) -> Result<(), AllocError>
    requires { nodes ≤ length listing.now }
{
    for node in 0..nodes {
        let mark = if node == 0 { "" } else { " " };
        out.push_str(format!(in alloc; "{mark}{}", listing.count(node))?.as_str())?;
    }
    Ok(())
}

/// The lines of messages: edge, number and value.
fn put_lines(alloc: Global, out: &mut String, lines: &[MessageLine]) -> Result<(), AllocError> {
    for line in lines {
        let MessageLine {
            edge,
            number,
            value,
        } = *line;
        out.push_str(format!(in alloc; " {edge} {number} {value:?}")?.as_str())?;
    }
    Ok(())
}

/// The number of structures at each of the first nodes, and the lines of messages.
fn told(alloc: Global, analysis: &Analysis, nodes: u32) -> Result<String, AllocError>
    requires { nodes ≤ length analysis.now.listing }
{
    let mut text = String::new(alloc);
    put_counts(alloc, &mut text, &analysis.listing, nodes)?;
    put_lines(alloc, &mut text, analysis.messages.as_slice())?;
    Ok(text)
}

/// What the analysis of the program answers: the numbers of structures and the lines, or why there is
/// none.
fn answer(
    alloc: Global,
    program: &Program,
    initial: &Structures,
    max: u64,
) -> Result<String, AllocError>
    requires valid { IsValid (program_of program.now) }
    requires initial { All (IsOver program.now.vocab) initial.now }
{
    match analyze(alloc, program, initial, Mode::Given, max) {
        Ok(analysis) => told(alloc, &analysis, program.nodes.len() as u32),
        Err(error) => format!(in alloc; "{error:?}"),
    }
}

/// What is told of the analysis of a program and initial structures that are given as texts.
pub fn outcome(alloc: Global, program: &str, initial: &str, max: u64) -> Result<String, Fail> {
    let program = whole_program(alloc, program)?;
    let initial = structures(alloc, &program, initial)?;
    Ok(answer(alloc, &program, &initial, max)?)
}

/// Whether the structures are those that stand at the node, in this order.
fn are_at(listing: &Listing, node: u32, wanted: &[Structure]) -> bool
    requires { node < length listing.now }
{
    let mut same = listing.count(node) == wanted.len();
    for (i, s) in wanted.iter().enumerate() {
        same &= i < listing.count(node) && listing.at(node, i).compare(s) == Ordering::Equal;
    }
    same
}

/// Whether the analysis of the program lists exactly these structures at the node, in this order.
fn is_listed(
    alloc: Global,
    program: &Program,
    initial: &Structures,
    node: u32,
    wanted: &[Structure],
) -> bool
    requires valid { IsValid (program_of program.now) }
    requires initial { All (IsOver program.now.vocab) initial.now }
{
    match analyze(alloc, program, initial, Mode::Given, 5000) {
        Ok(analysis) => {
            (node as usize) < program.nodes.len() && are_at(&analysis.listing, node, wanted)
        }
        Err(_) => false,
    }
}

/// Whether the analysis lists these structures at the node; program and structures are given as texts.
pub fn lists(
    alloc: Global,
    program: &str,
    initial: &str,
    node: u32,
    wanted: &str,
) -> Result<bool, Fail> {
    let program = whole_program(alloc, program)?;
    let initial = structures(alloc, &program, initial)?;
    let wanted = structures(alloc, &program, wanted)?;
    Ok(is_listed(alloc, &program, &initial, node, wanted.as_slice()))
}
