//! Steps between small heaps, with verdicts that were worked out by hand.

use super::reader::{action, heap, picked, program};
use std::alloc::Global;
use std::process::Abort;
use std::test::Fail;
use tv_concrete::{Acting, HeapList, Step, Values, is_fair_through};
use tv_fair::{Ends, fairly_steps};
use tv_model::{Action, Mode, Program};

/// A line has the parts of an action, the individuals that it picks, an old, a middle and a new heap, and
/// whether the step is fair (`+`) or not (`-`) where given updates count, and where defined predicates are
/// worked out anew. `x` is unique, and `e(v)` is defined as `E(w) n(v, w)`. Lines that begin with `//` are
/// remarks.
static STEPS: &str = "// An update is followed, and without one nothing changes.
{ x(v) = E(w) x(w) & n(w, v) }; ; 1 2 x(1) n(1,2) e(1); 1 2 x(1) n(1,2) e(1); 1 2 x(2) n(1,2) e(1); ++
{ x(v) = E(w) x(w) & n(w, v) }; ; 1 2 x(1) n(1,2) e(1); 1 2 x(1) n(1,2) e(1); 1 2 x(1) n(1,2) e(1); --
; ; 1 2 x(1) n(1,2) e(1); 1 2 x(1) n(1,2) e(1); 1 2 x(1) n(1,2) e(1); ++
; ; 1 2 x(1) n(1,2) e(1); 1 2 x(1) n(1,2) e(1); 1 2 x(2) n(1,2) e(1); --
// A free update takes any values. Both heaps have the properties.
{ x(v) = 1/2 }; ; 1 2 x(1) n(1,2) e(1); 1 2 x(1) n(1,2) e(1); 1 2 n(1,2) e(1); ++
{ x(v) = 1/2 }; ; 1 2 x(1) n(1,2) e(1); 1 2 x(1) n(1,2) e(1); 1 2 x(2) n(1,2) e(1); ++
{ x(v) = 1/2 }; ; 1 2 x(1) n(1,2) e(1); 1 2 x(1) n(1,2) e(1); 1 2 x(1) x(2) n(1,2) e(1); --
{ x(v) = 1/2 }; ; 1 2 x(1) x(2) n(1,2) e(1); 1 2 x(1) x(2) n(1,2) e(1); 1 2 n(1,2) e(1); --
// A new individual is another one, and is marked.
%new { x(v) = isNew(v) }; ; 1 2 x(1) n(1,2) e(1); 1 2 9 x(1) n(1,2) e(1) new(9); 1 2 9 x(9) n(1,2) e(1); ++
%new { x(v) = isNew(v) }; ; 1 2 x(1) n(1,2) e(1); 1 2 9 x(1) n(1,2) e(1); 1 2 9 n(1,2) e(1); --
%new { x(v) = isNew(v) }; ; 1 2 x(1) n(1,2) e(1); 1 2 2 x(1) n(1,2) e(1) new(2); 1 2 x(2) n(1,2) e(1); --
%new; ; 1 2 x(1) n(1,2) e(1); 1 2 x(1) n(1,2) e(1); 1 2 x(1) n(1,2) e(1); --
// A retain part keeps exactly the individuals of which it is true.
%retain x(v); ; 1 2 x(1) n(1,2) e(1); 1 2 x(1) n(1,2) e(1); 1 x(1); ++
%retain x(v); ; 1 2 x(1) n(1,2) e(1); 1 2 x(1) n(1,2) e(1); 1 2 x(1) n(1,2) e(1); --
%new %retain isNew(v); ; 1 2 x(1) n(1,2) e(1); 1 2 9 x(1) n(1,2) e(1) new(9); 9; ++
// What is picked meets the precondition and is in the heap.
%p n(u, w) { x(v) = v == w }; 12; 1 2 x(1) n(1,2) e(1); 1 2 x(1) n(1,2) e(1); 1 2 x(2) n(1,2) e(1); ++
%p n(u, w) { x(v) = v == w }; 21; 1 2 x(1) n(1,2) e(1); 1 2 x(1) n(1,2) e(1); 1 2 x(1) n(1,2) e(1); --
%p v == v; 5; 1 2 x(1) n(1,2) e(1); 1 2 x(1) n(1,2) e(1); 1 2 x(1) n(1,2) e(1); --
// An update's own variable hides a picked one.
%p x(v) { x(v) = !x(v) }; 1; 1 2 x(1) n(1,2) e(1); 1 2 x(1) n(1,2) e(1); 1 2 x(2) n(1,2) e(1); ++
%p x(v) { x(v) = !x(v) }; 1; 1 2 x(1) n(1,2) e(1); 1 2 x(1) n(1,2) e(1); 1 2 n(1,2) e(1); --
// A given update of a defined predicate agrees with its definition, or counts for nothing.
{ e(v) = 0 }; ; 1 2 x(1) n(1,2) e(1); 1 2 x(1) n(1,2) e(1); 1 2 x(1) n(1,2) e(1); -+
{ e(v) = E(w) n(v, w) }; ; 1 2 x(1) n(1,2) e(1); 1 2 x(1) n(1,2) e(1); 1 2 x(1) n(1,2) e(1); ++
; ; 1 2 x(1) n(1,2) e(1); 1 2 x(1) n(1,2) e(1); 1 2 x(1) n(1,2); --";

fn sign(fair: bool) -> char {
    if fair { '+' } else { '-' }
}

fn is_fair(
    alloc: Global,
    program: &Program,
    mode: Mode,
    individuals: &str,
    heaps: &(HeapList, HeapList, HeapList),
) -> Result<bool, Fail> {
    if program.vocab.preds.len() > 512 {
        return Err(Fail::new("too many predicates"));
    }
    let action = action(program)?;
    let acting = Acting {
        program,
        mode,
        action,
    };
    let (old, middle, new) = heaps;
    let step = Step {
        picked: picked(action, individuals),
        old,
        middle,
        new,
    };
    Ok(is_fair_through(alloc, &acting, &step)?)
}

/// Whether the step of a line is fair in the modes that the line tells.
fn is_met(alloc: Global, row: &str) -> Result<bool, Fail> {
    let mut cells = row.split("; ");
    let (Some(parts), Some(individuals)) = (cells.next(), cells.next()) else {
        return Ok(false);
    };
    let program = program(alloc, parts)?;
    let heaps = (
        heap(alloc, &program, cells.next().unwrap_or(""))?,
        heap(alloc, &program, cells.next().unwrap_or(""))?,
        heap(alloc, &program, cells.next().unwrap_or(""))?,
    );
    let mut signs = String::new(alloc);
    for mode in [Mode::Given, Mode::Recompute] {
        signs.push(sign(is_fair(alloc, &program, mode, individuals, &heaps)?))?;
    }
    Ok(cells.next() == Some(signs.as_str()))
}

#[test]
fn steps_are_fair(rt: HostRuntime) -> Result<(), Fail> {
    for row in STEPS.lines() {
        assert!(rt; row.starts_with("//") || is_met(rt.alloc(), row)?, "{row}");
    }
    Ok(())
}

/// The parts of an action, and the new heap of a fair step from `1 x(1)` through some middle heap.
const FURTHER_STEPS: [(&str, &str); 2] = [("%new", "1 9 x(1)"), ("%new %retain x(v)", "1 x(1)")];

fn steps_to(alloc: Global, parts: &str, new: &str) -> Result<bool, Fail> {
    let program = program(alloc, parts)?;
    if program.vocab.preds.len() > 512 {
        return Err(Fail::new("too many predicates"));
    }
    let acting = Acting {
        program: &program,
        mode: Mode::Given,
        action: action(&program)?,
    };
    let old = heap(alloc, &program, "1 x(1)")?;
    let new = heap(alloc, &program, new)?;
    let ends = Ends {
        picked: Values::blank(),
        old: &old,
        new: &new,
    };
    Ok(fairly_steps(alloc, &acting, &ends)?)
}

#[test]
fn further_individuals_are_found(rt: HostRuntime) -> Result<(), Fail> {
    for (parts, new) in FURTHER_STEPS {
        assert!(rt; steps_to(rt.alloc(), parts, new)?, "{parts} to {new}");
    }
    Ok(())
}
