//! What small structures become, worked out by hand and by a second program.
//!
//! A line has the parts of an action, the individuals that are picked, a structure, and the structures that
//! the action gives. The first line of a text has the declarations. Lines that begin with `//` are remarks.

ghost use Rattle.tv_model.specs.Program.{program_of};
ghost use Rattle.tv_model.specs.Valid.{IsValid};
ghost use Rattle.tv_structure_form.specs.StructureForm.{IsOver};

use super::given::given;
use std::alloc::Global;
use std::process::Abort;
use std::test::Fail;
use tv_model::{Mode, Program};
use tv_struct::{Structure, Structures};
use tv_test_reader::{program, structure, structures};

/// Yes is kept and No is dropped; at Half both, dropped before kept, the first individual counting most.
const RETAINED: &str = "%p b() %p x(v) %p y(v) %p n(v, w)
%retain x(v); ; %n = {u} %p = { x = {u:1/2} }; %n = {} %p = {} %n = {u} %p = { x = {u:1/2} }
%retain x(v); ; \
    %n = {a, c, d} %p = { b = 1/2 x = {a, c:1/2} y = {c} n = {a->c, c->d:1/2, d->a} sm = {c:1/2, d:1/2} }; \
    %n = {a} %p = { b = 1/2 x = {a} } %n = {a, c} %p = { b = 1/2 x = {a, c:1/2} y = {c} n = {a->c} sm = {c:1/2} }
%retain x(v); ; %n = {a, c} %p = { x = {a:1/2, c:1/2} y = {c} }; \
    %n = {} %p = {} %n = {c} %p = { x = {c:1/2} y = {c} } %n = {a} %p = { x = {a:1/2} } %n = {a, c} %p = { \
      x = {a:1/2, c:1/2} y = {c} }
%retain 0; ; %n = {a, c} %p = { b = 1 x = {a} }; %n = {} %p = { b = 1 }
// What is picked is known there, on a summary only as one of its cells.
%p x(p) %retain v != p; 0; %n = {a, c} %p = { x = {a, c} }; %n = {c} %p = { x = {c} }
%p x(p) %retain v != p; 0; %n = {a, c} %p = { x = {a, c} sm = {a:1/2} }; \
    %n = {c} %p = { x = {c} } %n = {a, c} %p = { x = {a, c} sm = {a:1/2} }
%p x(v) %retain n(v, w); 0; %n = {a, c} %p = { x = {a} n = {a->c, c->a, c->c:1/2} }; \
    %n = {c} %p = { n = {c->c:1/2} }";

/// An individual that is added is no summary, and all is false of it in the structure that updates read.
const NEW: &str = "%p b() %p x(v) %p y(v) %p n(v, w)
%new; ; %n = {a} %p = { x = {a} n = {a->a} sm = {a:1/2} }; %n = {a, u} %p = { x = {a} n = {a->a} sm = {a:1/2} }
%new %retain isNew(v); ; %n = {a} %p = { b = 1 x = {a} }; %n = {u} %p = { b = 1 }
%new { n(v, w) = isNew(w) & x(v) }; ; %n = {a} %p = { x = {a:1/2} n = {a->a} }; \
    %n = {a, u} %p = { x = {a:1/2} n = {a->u:1/2} }
%new { x(v) = !x(v) }; ; %n = {a, c} %p = { x = {a, c:1/2} }; %n = {a, c, u} %p = { x = {c:1/2, u} }";

/// Updates read the same structure, each tuple by its own.
const UPDATED: &str = "%p b() %p x(v) %p y(v) %p n(v, w)
{ x(v) = y(v) y(v) = x(v) }; ; %n = {a, c} %p = { x = {a} y = {c:1/2} }; %n = {a, c} %p = { x = {c:1/2} y = {a} }
{ y(v) = 1/2 }; ; %n = {a, c} %p = { x = {a} y = {a} }; %n = {a, c} %p = { x = {a} y = {a:1/2, c:1/2} }
{ n(v, w) = 1/2 b() = 1/2 }; ; %n = {a, c} %p = { n = {a->a} }; \
    %n = {a, c} %p = { b = 1/2 n = {a->a:1/2, a->c:1/2, c->a:1/2, c->c:1/2} }
{ n(v, w) = n(w, v) }; ; %n = {a, c, d} %p = { n = {a->c, c->c:1/2, d->a:1/2} }; \
    %n = {a, c, d} %p = { n = {c->a, c->c:1/2, a->d:1/2} }
{ n(w, v) = x(w) & y(v) }; ; %n = {a, c} %p = { x = {a} y = {c} }; %n = {a, c} %p = { x = {a} y = {c} n = {a->c} }
{ n(v, w) = x(v) & v == w }; ; %n = {a, c} %p = { x = {a, c} sm = {c:1/2} }; \
    %n = {a, c} %p = { x = {a, c} n = {a->a, c->c:1/2} sm = {c:1/2} }
{ b() = A(v) x(v) }; ; %n = {a, c} %p = { x = {a, c:1/2} }; %n = {a, c} %p = { b = 1/2 x = {a, c:1/2} }
{ n(v, w) = n+(v, w) }; ; %n = {a, c, d} %p = { n = {a->c, c->d:1/2} }; \
    %n = {a, c, d} %p = { n = {a->c, a->d:1/2, c->d:1/2} }";

/// Updates read what is picked; an update's own variable hides a pick of its name.
const PICKED: &str = "%p b() %p x(v) %p y(v) %p n(v, w)
%p x(p) { y(v) = v == p }; 0; %n = {a, c} %p = { x = {a, c} sm = {c:1/2} }; \
    %n = {a, c} %p = { x = {a, c} y = {a} sm = {c:1/2} }
%p x(p) { y(v) = v == p }; 1; %n = {a, c} %p = { x = {a, c} sm = {c:1/2} }; \
    %n = {a, c} %p = { x = {a, c} y = {c:1/2} sm = {c:1/2} }
%p x(p) { y(v) = n(p, v) }; 2; %n = {a, c, d} %p = { x = {d} n = {a->a, d->c, d->d:1/2} }; \
    %n = {a, c, d} %p = { x = {d} y = {c, d:1/2} n = {a->a, d->c, d->d:1/2} }
%p x(v) { x(v) = !x(v) }; 0; %n = {a, c} %p = { x = {a} }; %n = {a, c} %p = { x = {c} }
%p x(v) & y(w) { n(w, v) = n(v, w) }; 00; %n = {a, c} %p = { x = {a} y = {a} n = {a->c} }; \
    %n = {a, c} %p = { x = {a} y = {a} n = {c->a} }
%p x(v) & y(w) { x(v) = v == w }; 01; %n = {a, c} %p = { x = {a} y = {c} }; %n = {a, c} %p = { x = {c} y = {c} }
%p x(v) & y(w) { y(v) = E(w) n(w, v) }; 01; %n = {a, c} %p = { x = {a} y = {c} n = {a->a:1/2} }; \
    %n = {a, c} %p = { x = {a} y = {a:1/2} n = {a->a:1/2} }";

/// Each definition rests on those behind it.
const ALONG_CHAIN: &str = "%i c() = !d() %i d() = E(v) e(v) %i e(v) = x(v) | y(v) %p x(v) %p y(v)
{ x(v) = 1 }; ; %n = {a} %p = { c = 1 }; %n = {a} %p = { x = {a} e = {a} d = 1 }
%new { y(v) = x(v) | isNew(v) x(v) = 1/2 }; ; %n = {} %p = { c = 1/2 }; \
    %n = {u} %p = { x = {u:1/2} y = {u} e = {u} d = 1 }";

/// What a definition doesn't mention may change without it, if no individuals come or go.
const KEPT: &str = "%p x(v) %p y(v) %i e() = E(v) y(v)
{ x(v) = 1 }; ; %n = {a} %p = { e = 1 }; %n = {a} %p = { x = {a} e = 1 }
{ y(v) = y(v) }; ; %n = {a} %p = { e = 1 }; %n = {a} %p = {}
%new; ; %n = {} %p = { e = 1 }; %n = {u} %p = {}
%retain 1; ; %n = {a} %p = { e = 1 }; %n = {a} %p = {}
// The definition is worked out in what is left.
%retain !y(v); ; %n = {a, c} %p = { y = {a:1/2, c} e = 1 }; %n = {} %p = {} %n = {a} %p = { y = {a:1/2} e = 1/2 }";

/// The head of a list is cut off.
const CUT: &str = "%p x(v) %p n(v, w) %i t(v, w) = n*(v, w) %i r(v) = E(w) x(w) & t(w, v)
{ n(v, w) = n(v, w) & !x(v) }; ; \
    %n = {h, u} %p = { x = {h} n = {h->u:1/2, u->u:1/2} t = {h->h, h->u, u->u:1/2} r = {h, u} sm = {u:1/2} }; \
    %n = {h, u} %p = { x = {h} n = {u->u:1/2} t = {h->h, u->u:1/2} r = {h} sm = {u:1/2} }";

/// The same in both modes.
const OF_NEW: &str = "%p x(v) %p y(v) %i e() = E(v) x(v) %i f() = !e()
%new { x(v) = isNew(v) }; ; %n = {} %p = {}; %n = {u} %p = { x = {u} e = 1 }
{ x(v) = 0 y(v) = e() }; ; %n = {a} %p = { x = {a} e = 1 }; %n = {a} %p = { y = {a} f = 1 }";

/// Updates that are given for defined predicates count, and contradict the definition.
const GIVEN: &str = "%p x(v) %p y(v) %i e() = E(v) x(v) %i f() = !e()
{ e() = 0 }; ; %n = {a} %p = { x = {a} e = 1 }; %n = {a} %p = { x = {a} f = 1 }
{ x(v) = 0 e() = 1 }; ; %n = {a} %p = { x = {a} f = 1 }; %n = {a} %p = { e = 1 }
%new { e() = 1 }; ; %n = {} %p = {}; %n = {u} %p = { e = 1 }";

/// The same where they don't count.
const RECOMPUTED: &str = "%p x(v) %p y(v) %i e() = E(v) x(v) %i f() = !e()
{ e() = 0 }; ; %n = {a} %p = { x = {a} e = 1 }; %n = {a} %p = { x = {a} e = 1 }
{ x(v) = 0 e() = 1 }; ; %n = {a} %p = { x = {a} f = 1 }; %n = {a} %p = { f = 1 }
%new { e() = 1 }; ; %n = {} %p = {}; %n = {u} %p = { f = 1 }";

/// The structures that the action gives where the last individual is marked.
const MARKED: &str = "%p b() %p x(v) %p y(v) %p n(v, w)
{ y(v) = x(v) }; ; %n = {a} %p = { x = {a} }; %n = {a, u} %p = { x = {a} y = {a} }
%new { x(v) = isNew(v) }; ; %n = {} %p = {}; %n = {u, w} %p = { x = {w} }";

/// Whether these are the structures of the text, and none of them has a mark.
fn are_wanted(
    alloc: Global,
    program: &Program,
    found: &Structures,
    wanted: &str,
) -> Result<bool, Fail>
    requires { IsValid (program_of program.now) }
{
    let unmarked = found.as_slice().iter().all(|t| t.fresh().is_none());
    Ok(unmarked && *found == structures(alloc, program, wanted)?)
}

/// The parts of an action, the individuals that are picked, a structure, and the structures that come.
#[derive(Clone, Copy)]
struct Row<'a> {
    parts: &'a str,
    picks: &'a str,
    text: &'a str,
    wanted: &'a str,
}

fn row_of(line: &str) -> Option<Row<'_>> {
    let mut cells = line.split("; ");
    Some(Row {
        parts: cells.next()?,
        picks: cells.next()?,
        text: cells.next()?,
        wanted: cells.next()?,
    })
}

/// Whether the action gives a row's structures from `s`.
fn is_met_from(
    alloc: Global,
    program: &Program,
    mode: Mode,
    s: &Structure,
    row: Row<'_>,
) -> Result<bool, Fail>
    requires valid { IsValid (program_of program.now) }
    requires over { IsOver program.now.vocab s.now }
{
    match given(alloc, program, mode, s, row.picks)? {
        Err(_) => Ok(false),
        Ok(found) => are_wanted(alloc, program, &found, row.wanted),
    }
}

/// Whether the action gives a row's structures.
fn is_met(alloc: Global, declared: &str, mode: Mode, line: &str) -> Result<bool, Fail> {
    let Some(row) = row_of(line) else {
        return Ok(false);
    };
    let program = program(alloc, declared, row.parts)?;
    let s = structure(alloc, &program, row.text)?;
    is_met_from(alloc, &program, mode, &s, row)
}

/// Whether it does so in each of the modes.
fn is_met_in(alloc: Global, declared: &str, modes: &[Mode], line: &str) -> Result<bool, Fail> {
    let mut is = true;
    for mode in modes {
        is = is && is_met(alloc, declared, *mode, line)?;
    }
    Ok(is)
}

/// Texts of rows, and the modes in which they are the same.
const ROWS: [(&str, &[Mode]); 10] = [
    (RETAINED, BOTH),
    (NEW, BOTH),
    (UPDATED, BOTH),
    (PICKED, BOTH),
    (ALONG_CHAIN, BOTH),
    (KEPT, BOTH),
    (CUT, BOTH),
    (OF_NEW, BOTH),
    (GIVEN, &[Mode::Given]),
    (RECOMPUTED, &[Mode::Recompute]),
];

const BOTH: &[Mode] = &[Mode::Given, Mode::Recompute];

#[test]
fn structures_are_updated(rt: HostRuntime) -> Result<(), Fail> {
    for (text, modes) in ROWS {
        let (declared, lines) = text.split_once('\n').ok_or("no rows")?;
        for line in lines.lines() {
            assert!(rt;
                line.starts_with("//") || is_met_in(rt.alloc(), declared, modes, line)?,
                "{line}"
            );
        }
    }
    Ok(())
}

/// Whether the action gives a row's structures from its structure with a new individual.
fn is_met_from_new(alloc: Global, declared: &str, line: &str) -> Result<bool, Fail> {
    let Some(row) = row_of(line) else {
        return Ok(false);
    };
    let program = program(alloc, declared, row.parts)?;
    let s = structure(alloc, &program, row.text)?;
    if s.size() > 255 {
        return Ok(false);
    }
    is_met_from(alloc, &program, Mode::Given, &s.with_new(alloc)?, row)
}

#[test]
fn marks_end(rt: HostRuntime) -> Result<(), Fail> {
    let (declared, lines) = MARKED.split_once('\n').ok_or("no rows")?;
    for line in lines.lines() {
        assert!(rt; is_met_from_new(rt.alloc(), declared, line)?, "{line}");
    }
    Ok(())
}
