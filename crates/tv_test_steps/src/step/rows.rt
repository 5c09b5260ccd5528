//! What small structures give along an edge, worked out by hand or by a second program.
//!
//! A line has predicates and rules, the parts of the action, the values of the messages (`y`, `n` or `h`), a
//! structure and its results. Lines that begin with `//` are remarks.

ghost use Rattle.tv_model.specs.Program.{program_of};
ghost use Rattle.tv_model.specs.Valid.{IsValid};
ghost use Rattle.tv_structure_form.specs.StructureForm.{IsOver};

use super::stepped::{Answer, stepped, stepped_opening};
use std::alloc::Global;
use std::process::Abort;
use std::test::Fail;
use tv_kleene::K3;
use tv_model::{Mode, Program};
use tv_struct::Structure;
use tv_test_reader::{program, structure, structures};

static GIVEN: &str = "// one of two cells is picked, and none of the two loses its name
%p x(v) %p y(v) %p z(v); %p x(v) { y(w) = w == v }; ; %n = {a, b} %p = { x = {a, b} z = {b} }; \
    %n = {i, j} %p = { x = {i, j} y = {j} z = {j} } %n = {i, j} %p = { x = {i, j} y = {j} z = {i} }
%p x(v) %p y(v); %p x(v) { y(w) = w == v }; ; %n = {a} %p = { x = {a} sm = {a:1/2} }; \
    %n = {i} %p = { x = {i} y = {i:1/2} sm = {i:1/2} }
// two picks give one result
%p x(v) %p y(); %p x(v) { y() = 1 }; ; %n = {a, b} %p = { x = {a, b} sm = {a:1/2} }; \
    %n = {i} %p = { x = {i} y = 1 sm = {i:1/2} }
// focus: none of the cells, all, and some
%p x(v) %p y(v); %f { x(v) } { y(v) = x(v) }; ; %n = {a} %p = { x = {a:1/2} sm = {a:1/2} }; \
    %n = {i} %p = { sm = {i:1/2} } %n = {i} %p = { x = {i} y = {i} sm = {i:1/2} } %n = {i, j} %p = { x = {j} \
      y = {j} sm = {i:1/2, j:1/2} }
// each choice is coerced: the cell of a unique predicate is one
%p x(v) unique %p y(v); %f { x(v) } { y(v) = x(v) }; ; %n = {a} %p = { x = {a:1/2} sm = {a:1/2} }; \
    %n = {i} %p = { x = {i} y = {i} } %n = {i} %p = { sm = {i:1/2} } %n = {i, j} %p = { x = {j} y = {j} \
      sm = {i:1/2} }
// more choices than are made at once: of sixteen five are stable, of nine too
%p p(v) %p q(v) %p x(v) unique; %f { x(v) } { x(v) = x(v) }; ; \
    %n = {a, b, c, d} %p = { p = {b, d} q = {c, d} x = {a:1/2, b:1/2, c:1/2, d:1/2} }; \
    %n = {i, j, k, l} %p = { p = {k, l} q = {j, l} } %n = {i, j, k, l} %p = { p = {k, l} q = {j, l} x = {l} } \
      %n = {i, j, k, l} %p = { p = {k, l} q = {j, l} x = {k} } \
      %n = {i, j, k, l} %p = { p = {k, l} q = {j, l} x = {j} } \
      %n = {i, j, k, l} %p = { p = {k, l} q = {j, l} x = {i} }
%p p(v) %p x(v) unique; %f { x(v) } { x(v) = x(v) }; ; \
    %n = {a, b} %p = { p = {b} x = {a:1/2, b:1/2} sm = {a:1/2, b:1/2} }; \
    %n = {i, j} %p = { p = {j} x = {i} sm = {j:1/2} } %n = {i, j} %p = { p = {j} x = {j} sm = {i:1/2} } \
      %n = {i, j} %p = { p = {j} sm = {i:1/2, j:1/2} } %n = {i, j, k} %p = { p = {k} x = {j} sm = {i:1/2, k:1/2} } \
      %n = {i, j, k} %p = { p = {j, k} x = {k} sm = {i:1/2, j:1/2} }
%p x(v); %new { x(v) = x(v) | isNew(v) }; ; %n = {a} %p = { x = {a} }; %n = {i} %p = { x = {i} sm = {i:1/2} }
%p x(v) %p y(v); %retain x(v); ; %n = {a, b} %p = { x = {a:1/2, b} y = {a} }; \
    %n = {i} %p = { x = {i} } %n = {i, j} %p = { x = {i:1/2, j} y = {i} }
// an unknown precondition drops nothing and tells nothing
%p a() %p b(); %p a() { b() = 1 }; ; %n = {} %p = { a = 1/2 }; %n = {} %p = { a = 1/2 b = 1 }
// messages come before the precondition
%p a() %p b(); %p a() %message b() -> \"b\" %message a() -> \"a\" { b() = 1 }; yn; %n = {} %p = { b = 1 };
// and are read in each structure at hand
%p x(v) %p y(v); \
    %f { x(v) } %message (E(v) x(v) & y(v)) -> \"m\" %message (A(v) x(v)) -> \"n\" %message (A(v) !y(v)) -> \"o\" { \
      x(v) = y(v) }; \
    yyn; \
    %n = {a} %p = { x = {a:1/2} y = {a} }; \
    %n = {i} %p = { x = {i} y = {i} }
%p a(); %message a() -> \"a\" { a() = 0 }; h; %n = {} %p = { a = 1/2 }; %n = {} %p = {}
// no stable structure lies below
%p a() %p b() %r a() ==> b() %r a() ==> !b(); %message a() -> \"a\" { b() = 1 }; n; %n = {} %p = { a = 1 b = 1/2 };
// coerce comes first
%p a() %p b() %r a() ==> b(); %message (!b()) -> \"b\" { a() = 0 }; n; %n = {} %p = { a = 1 b = 1/2 }; \
    %n = {} %p = { b = 1 }
// and last: what breaks a rule is dropped
%p a() %p b() %r a() ==> b(); { b() = 0 }; ; %n = {} %p = { a = 1 b = 1 };
// cells of one name become one
%p x(v) %p y(v); { x(v) = y(v) }; ; %n = {a, b} %p = { x = {a} y = {a, b} }; \
    %n = {i} %p = { x = {i} y = {i} sm = {i:1/2} }
// all parts at once
%p x(v) unique %p y(v); %f { x(v) } %p E(v) x(v) & y(v) %message E(v) x(v) -> \"m\" %new { y(v) = isNew(v) }; y; \
    %n = {a, b} %p = { x = {a:1/2} y = {a:1/2, b} }; \
    %n = {i, j, k} %p = { x = {k} y = {j} }
// the given update of a definition contradicts it
%p x(v) %i d() = E(v) x(v); { x(v) = 0 d() = 1 }; ; %n = {a} %p = { x = {a} d = 1 };";

/// Steps in the mode that passes over updates of definitions.
static RECOMPUTED: &str =
    "%p x(v) %i d() = E(v) x(v); { x(v) = 0 d() = 1 }; ; %n = {a} %p = { x = {a} d = 1 }; %n = {i} %p = {}";

#[derive(Clone, Copy)]
struct Row<'a> {
    declared: &'a str,
    parts: &'a str,
    values: &'a str,
    text: &'a str,
    wanted: &'a str,
}

fn row_of(line: &str) -> Option<Row<'_>> {
    let mut cells = line.split(';');
    Some(Row {
        declared: cells.next()?,
        parts: cells.next()?,
        values: cells.next()?.trim(),
        text: cells.next()?,
        wanted: cells.next()?.trim(),
    })
}

fn are_values(found: &[K3], wanted: &str) -> bool {
    let mut same = found.len() == wanted.len();
    for (k, letter) in found.iter().zip(wanted.as_bytes()) {
        same &= match k {
            K3::Yes => *letter == b'y',
            K3::No => *letter == b'n',
            K3::Half => *letter == b'h',
        };
    }
    same
}

/// Whether the answer has these results and values.
fn is_answer(alloc: Global, program: &Program, answer: &Answer, row: Row<'_>) -> Result<bool, Fail>
    requires { IsValid (program_of program.now) }
{
    match answer {
        Err(_) => Ok(false),
        Ok(out) => Ok(
            are_values(out.messages.as_slice(), row.values)
                && out.results == structures(alloc, program, row.wanted)?,
        ),
    }
}

/// Whether the structure's opening gives what the row says. Without an opening there are no results.
fn is_given_by_opening(
    alloc: Global,
    program: &Program,
    mode: Mode,
    s: &Structure,
    row: Row<'_>,
) -> Result<bool, Fail>
    requires valid { IsValid (program_of program.now) }
    requires over { IsOver program.now.vocab s.now }
{
    match stepped_opening(alloc, program, mode, s)? {
        None => Ok(row.wanted.is_empty()),
        Some(answer) => is_answer(alloc, program, &answer, row),
    }
}

/// Whether the structure gives what the row says, and so does its opening.
fn is_met(alloc: Global, mode: Mode, line: &str) -> Result<bool, Fail> {
    let Some(row) = row_of(line) else {
        return Ok(false);
    };
    let program = program(alloc, row.declared, row.parts)?;
    let s = structure(alloc, &program, row.text)?;
    let answer = stepped(alloc, &program, mode, &s)?;
    Ok(
        is_answer(alloc, &program, &answer, row)?
            && is_given_by_opening(alloc, &program, mode, &s, row)?,
    )
}

#[test]
fn steps_give_results(rt: HostRuntime) -> Result<(), Fail> {
    for (lines, mode) in [(GIVEN, Mode::Given), (RECOMPUTED, Mode::Recompute)] {
        for line in lines.lines() {
            assert!(rt;
                line.starts_with("//") || is_met(rt.alloc(), mode, line)?,
                "{line}"
            );
        }
    }
    Ok(())
}
