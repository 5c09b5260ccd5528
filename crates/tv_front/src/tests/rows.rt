//! Rows of texts, and what comes of them.
use super::flat::put_flat;
use super::show::{Shown, put, put_actions, put_graph, put_preds, put_rules, put_sizes};
use crate::ProgramFault;
use crate::front::{flat_form, read_program};
use std::alloc::Global;
use tv_model::Program;

/// What is shown of a program.
#[derive(Clone, Copy)]
pub enum View {
    Flat,
    Preds,
    Rules,
    Actions,
    Graph,
    Sizes,
}

/// What stands before and behind each row's text, and what is shown.
#[derive(Clone, Copy)]
pub struct Frame {
    pub before: &'static [u8],
    pub behind: &'static [u8],
    pub view: View,
}

// The refusal as its stage tells it.
fn put_fault(alloc: Global, out: &mut Shown, fault: ProgramFault) {
    let told = match fault {
        ProgramFault::Lexing(e) => format!(in alloc; "{e:?}"),
        ProgramFault::Parsing(e) => format!(in alloc; "{e:?}"),
        ProgramFault::Expansion(e) => format!(in alloc; "{e:?}"),
        ProgramFault::Resolution(e) => format!(in alloc; "{e:?}"),
    };
    match told {
        Ok(text) => put(out, text.as_bytes()),
        Err(_) => put(out, b"lost"),
    }
}

fn put_view(out: &mut Shown, view: View, program: &Program) {
    match view {
        View::Flat => {}
        View::Preds => put_preds(out, program),
        View::Rules => put_rules(out, program),
        View::Actions => put_actions(out, program),
        View::Graph => put_graph(out, program),
        View::Sizes => put_sizes(out, program),
    }
}

fn put_program(alloc: Global, out: &mut Shown, view: View, text: &[u8]) {
    if text.len() > 67_108_864 {
        return;
    }
    match read_program(alloc, text) {
        Ok(program) => put_view(out, view, &program),
        Err(fault) => put_fault(alloc, out, fault),
    }
}

fn put_expanded(alloc: Global, out: &mut Shown, text: &[u8]) {
    if text.len() > 67_108_864 {
        return;
    }
    match flat_form(alloc, text) {
        Ok(flat) => put_flat(alloc, out, flat),
        Err(fault) => put_fault(alloc, out, fault),
    }
}

/// What comes of a text.
pub fn shown(alloc: Global, view: View, text: &[u8]) -> Shown {
    let mut out = Shown::new(alloc);
    match view {
        View::Flat => put_expanded(alloc, &mut out, text),
        _ => put_program(alloc, &mut out, view, text),
    }
    out
}

/// The text of a row in its frame.
fn framed(alloc: Global, frame: Frame, text: &[u8]) -> Shown {
    let mut out = Shown::new(alloc);
    put(&mut out, frame.before);
    put(&mut out, text);
    put(&mut out, frame.behind);
    out
}

/// Whether the texts are the same, where `;` stands for a line feed.
fn is_same(found: &[u8], expected: &[u8]) -> bool {
    let mut same = found.len() == expected.len();
    for (byte, wanted) in found.iter().zip(expected) {
        same = same && (*byte == *wanted || (*byte == b'\n' && *wanted == b';'));
    }
    same
}

/// A row that doesn't hold is written, with what was found.
fn put_if_wrong(alloc: Global, out: &mut Shown, frame: Frame, text: &[u8], expected: &[u8]) {
    let program = framed(alloc, frame, text);
    let found = shown(alloc, frame.view, program.text());
    if !is_same(found.text(), expected) {
        put(out, text);
        put(out, b"\nis ");
        put(out, found.text());
        put(out, b"\n");
    }
}

/// The rows that don't hold.
pub fn wrong(alloc: Global, frame: Frame, rows: &[u8]) -> Shown {
    let mut out = Shown::new(alloc);
    for row in rows.split(|byte| *byte == b'\n') {
        let mut halves = row.split(|byte| *byte == b'\t');
        match (halves.next(), halves.next()) {
            (Some(text), Some(expected)) => {
                put_if_wrong(alloc, &mut out, frame, text, expected);
            }
            _ => put(&mut out, b"no row"),
        }
    }
    out
}

pub fn readable(out: &Shown) -> &str {
    std::str::from_utf8(out.text()).unwrap_or("no text")
}
