//! Truth on small heaps, with values that were worked out by hand.

use super::reader::{action, heap, picked, program};
use std::alloc::Global;
use std::process::Abort;
use std::test::Fail;
use tv_concrete::{HeapList, Values, holds};
use tv_model::{Action, Change, Formula, Program, Terms};

/// A heap, and what the variables u, v and w stand for in it.
static HEAPS: [(&str, &str); 6] = [
    ("", "000"),
    ("b()", "000"),
    ("7 x(7) n(7,7) new(7)", "777"),
    ("3 5 x(3) n(3,5)", "355"),
    ("0 1 2 b() x(1) n(0,1) n(1,2) n(2,0)", "012"),
    ("0 1 2 x(0) x(2) n(0,1) n(2,1) new(2)", "012"),
];

/// A line has a formula, and whether it is true in each of the heaps (`+`) or not (`-`). Lines that begin
/// with `//` are remarks.
static FORMULAS: &str = "0; ------
1; ++++++
b(); -+--+-
x(u); --++-+
x(v); --+-+-
n(u, v); --++++
n(v, u); --+---
isNew(u); --+---
isNew(w); --+--+
u == u; ++++++
u == v; +++---
!b(); +-++-+
b() & x(v); ----+-
b() | x(v); -++-+-
b() <-> x(v); +--+++
b() ? x(u) : x(v); --+---
!b() ? x(u) : x(v); --++++
// Quantifiers over no individuals: some is false, all is true.
E(u) 1; --++++
A(u) 0; ++----
E(u) x(u); --++++
A(u) x(u); +++---
E(u) !x(u); ---+++
E(u) u == v; --++++
A(u) u == v; +++---
E(a) A(c) n(a, c); --+---
A(a) E(c) n(a, c); +++-+-
// A variable that is bound twice: the inner quantifier hides the outer.
E(u) x(u) & E(u) !x(u); ---+++
x(u) & E(u) !x(u); ---+-+
A(u) x(u) | E(u) n(u, u); +++---
// A closure needs at least one edge, may go round, and passes through any individuals.
TC (u, v) (a, c) n(a, c); --++++
TC (u, w) (a, c) n(a, c); --+++-
TC (u, u) (a, c) n(a, c); --+-+-
TC (v, u) (a, c) n(a, c); --+-+-
TC (u, v) (a, c) a == c; --+---
TC (u, v) (a, c) 1; --++++
TC (u, w) (a, c) n(a, c) | n(c, a); --++++
TC (u, v) (u, a) n(u, a); --++++
E(a) TC (a, a) (a, c) n(a, c); --+-+-
A(a) A(c) TC (a, c) (d, f) n(d, f); +++-+-
// The reflexive closure is equality or the closure.
n*(u, u); ++++++
n*(u, v); ++++++
n*(v, u); +++-+-
n*(u, w); +++++-
!n+(u, u); ++-+-+";

/// The program of an action in which the formula may speak of u, v, w and the fresh individual: it picks u,
/// and sets n(v, w) to the formula.
fn program_of(alloc: Global, formula: &str) -> Result<Program, Fail> {
    let parts = format!(in alloc; "%p u == u %new {{ n(v, w) = {} }}", formula)?;
    program(alloc, parts.as_str())
}

/// The formula that an action sets n(v, w) to, and what its variables stand for.
fn formula_of<'a>(action: &'a Action, values: &str) -> Result<(&'a Formula, Values), Fail> {
    let update = action.updates.as_slice().first().ok_or("no update")?;
    let (Terms::Two(v, w), Change::To(formula)) = (&update.vars, &update.change) else {
        return Err(Fail::new("no formula"));
    };
    let digits = values.as_bytes();
    let second = digits.get(1).copied().unwrap_or(b'0');
    let third = digits.get(2).copied().unwrap_or(b'0');
    let values = picked(action, values)
        .with(*v, u32::from(second.saturating_sub(b'0')))
        .with(*w, u32::from(third.saturating_sub(b'0')));
    Ok((formula, values))
}

fn sign(heap: &HeapList, values: Values, formula: &Formula) -> char {
    if holds(heap, values, formula) {
        '+'
    } else {
        '-'
    }
}

/// The truth of the formula in each of the heaps.
fn signs(alloc: Global, text: &str) -> Result<String, Fail> {
    let program = program_of(alloc, text)?;
    let action = action(&program)?;
    let mut signs = String::new(alloc);
    for (facts, individuals) in HEAPS.iter() {
        let (formula, values) = formula_of(action, individuals)?;
        signs.push(sign(&heap(alloc, &program, facts)?, values, formula))?;
    }
    Ok(signs)
}

/// Whether the formula of a line has the truth behind it.
fn has_truth(alloc: Global, row: &str) -> Result<bool, Fail> {
    let Some((text, wanted)) = row.split_once("; ") else {
        return Ok(false);
    };
    Ok(signs(alloc, text)?.as_str() == wanted)
}

#[test]
fn formulas_have_their_truth(rt: HostRuntime) -> Result<(), Fail> {
    for row in FORMULAS.lines() {
        assert!(rt;
            row.starts_with("//") || has_truth(rt.alloc(), row)?,
            "{row}"
        );
    }
    Ok(())
}
