//! Structures and lists of them.

ghost use Rattle.std.specs.Prelude.{◌≡◌, ◌<◌, ◌≤◌, IfOk, Some};
ghost use Rattle.tv_model.specs.Program.{program_of};
ghost use Rattle.tv_model.specs.Valid.{IsValid};

use super::reader::{program, vocabulary};
use std::alloc::{AllocError, Global};
use std::cmp::Ordering;
use std::process::Abort;
use std::test::Fail;
use tv_listing::Listing;
use tv_model::Program;
use tv_struct::Structure;
use tv_test_reader::structure;

/// A list whose head isn't pointed to, and a summary for the rest.
const LOOSE: &str = "%n = {h, u} %p = { n = {h->u:1/2, u->u:1/2} sm = {u:1/2} }";

const SURE: &str = "%n = {h, u} %p = { n = {h->u, u->u:1/2} sm = {u:1/2} }";

const LIST: &str = "%n = {h, u} %p = { x = {h} n = {h->u:1/2, u->u:1/2} sm = {u:1/2} }";
/// That list, and a further individual.
const LIST_AND_ONE: &str = "%n = {h, u, o} %p = { x = {h} n = {h->u:1/2, u->u:1/2} sm = {u:1/2} }";

/// Whether a copy is found again, and a sharper structure is none.
fn copies_are_found(alloc: Global) -> Result<bool, Fail> {
    let program = program(alloc)?;
    let s = structure(alloc, &program, LOOSE)?;
    let mut listing = Listing::new(alloc, 1)?;
    listing.push(0, s.copy(alloc)?)?;
    let is_again = !listing.add(0, s.copy(alloc)?)? && listing.count(0) == 1;
    let is_first = listing.count(0) > 0 && listing.at(0, 0).compare(&s) == Ordering::Equal;
    let is_another = listing.add(0, structure(alloc, &program, SURE)?)?;
    Ok(is_again && is_first && is_another && listing.count(0) == 2)
}

/// The list and a new individual, which is marked.
fn marked(alloc: Global, program: &Program) -> Result<Structure, Fail>
    requires { IsValid (program_of program.now) }
    ensures size { IfOk result (λ s. s.size ≡ 3) }
    ensures fresh { IfOk result (λ s. s.fresh ≡ Some 2) }
{
    let s = structure(alloc, program, LIST)?;
    if s.size() != 2 {
        return Err(Fail::new("not two individuals"));
    }
    Ok(s.with_new(alloc)?)
}

/// Whether a marked structure is found again where it stands without its mark, and is listed with it.
fn marked_ones_are_found(alloc: Global) -> Result<bool, Fail> {
    let program = program(alloc)?;
    let mut listing = Listing::new(alloc, 1)?;
    listing.push(0, structure(alloc, &program, LIST_AND_ONE)?)?;
    let is_again = !listing.add(0, marked(alloc, &program)?)?;
    listing.push(0, marked(alloc, &program)?)?;
    let is_marked = listing.count(0) == 2 && listing.at(0, 1).fresh() == Some(2);
    Ok(is_again && is_marked)
}

#[test]
fn structures_are_found_again(rt: HostRuntime) -> Result<(), Fail> {
    assert!(rt; copies_are_found(rt.alloc())?);
    assert!(rt; marked_ones_are_found(rt.alloc())?);
    Ok(())
}

/// What is done to the marked structure.
#[derive(Clone, Copy)]
enum Change {
    Copy,
    AddOne,
    SplitHead,
    SplitSummary,
    KeepAll,
    KeepEnds,
    KeepNone,
}

fn changed(alloc: Global, s: &Structure, change: Change) -> Result<Structure, AllocError>
    requires size { s.now.size ≡ 3 }
    requires fresh { s.now.fresh ≡ Some 2 }
{
    match change {
        Change::Copy => s.copy(alloc),
        Change::AddOne => s.with_new(alloc),
        Change::SplitHead => s.split(alloc, &[2, 1, 1]),
        Change::SplitSummary => s.split(alloc, &[1, 3, 1]),
        Change::KeepAll => s.without(alloc, &[true, true, true]),
        Change::KeepEnds => s.without(alloc, &[true, false, true]),
        Change::KeepNone => s.without(alloc, &[false, false, false]),
    }
}

/// Each change with what it makes, and the mark.
const CHANGES: [(Change, &str, Option<u32>); 7] = [
    (Change::Copy, LIST_AND_ONE, Some(2)),
    (
        Change::AddOne,
        "%n = {h, u, o, p} %p = { x = {h} n = {h->u:1/2, u->u:1/2} sm = {u:1/2} }",
        Some(3),
    ),
    (
        Change::SplitHead,
        "%n = {h, k, u, o} %p = { x = {h, k} n = {h->u:1/2, k->u:1/2, u->u:1/2} sm = {u:1/2} }",
        Some(3),
    ),
    (
        Change::SplitSummary,
        "%n = {h, r, s, t, o} %p = { x = {h} sm = {r:1/2, s:1/2, t:1/2} n = {h->r:1/2, h->s:1/2, h->t:1/2,
        r->r:1/2, r->s:1/2, r->t:1/2, s->r:1/2, s->s:1/2, s->t:1/2, t->r:1/2, t->s:1/2, t->t:1/2} }",
        Some(4),
    ),
    (Change::KeepAll, LIST_AND_ONE, None),
    (Change::KeepEnds, "%n = {h, o} %p = { x = {h} }", None),
    (Change::KeepNone, "%n = {} %p = {}", None),
];

fn is_changed(alloc: Global, change: Change, text: &str, mark: Option<u32>) -> Result<bool, Fail> {
    let program = program(alloc)?;
    let found = changed(alloc, &marked(alloc, &program)?, change)?;
    let is_same = found.compare(&structure(alloc, &program, text)?) == Ordering::Equal;
    Ok(is_same && found.fresh() == mark)
}

#[test]
fn marks_follow_their_individual(rt: HostRuntime) -> Result<(), Fail> {
    for (change, text, mark) in CHANGES {
        assert!(rt; is_changed(rt.alloc(), change, text, mark)?, "{text}");
    }
    Ok(())
}

/// Structures in ascending order: of each two neighbours one thing differs.
static ASCENDING: &str = "%n = {} %p = {}
%n = {a} %p = {}
%n = {a} %p = { sm = {a:1/2} }
%n = {a, c} %p = {}
%n = {a, c} %p = { n = {c->c:1/2} }
%n = {a, c} %p = { n = {c->c} }
%n = {a, c} %p = { n = {c->a} }
%n = {a, c} %p = { n = {a->c:1/2} }
%n = {a, c} %p = { n = {a->a:1/2} }
%n = {a, c} %p = { x = {c:1/2} }
%n = {a, c} %p = { x = {a:1/2} }
%n = {a, c} %p = { x = {a} }
%n = {a, c} %p = { sm = {c:1/2} }
%n = {a, c} %p = { sm = {a:1/2} }
%n = {a, c, d} %p = {}";

fn compared(alloc: Global, text: &str, other: &str) -> Result<Ordering, Fail> {
    let program = program(alloc)?;
    let s = structure(alloc, &program, text)?;
    Ok(s.compare(&structure(alloc, &program, other)?))
}

#[test]
fn the_order_goes_by_size_summaries_and_values(rt: HostRuntime) -> Result<(), Fail> {
    for (i, text) in ASCENDING.lines().enumerate() {
        for (j, other) in ASCENDING.lines().enumerate() {
            let found = compared(rt.alloc(), text, other)?;
            assert!(rt; found == i.cmp(&j), "{text} and {other}");
        }
    }
    Ok(())
}

/// Whether a structure of so many individuals takes one more, which is marked.
fn takes_one_more(alloc: Global, size: u32) -> Result<bool, Fail>
    requires { size < 256 }
{
    let vocab = vocabulary(alloc)?;
    let more = Structure::new(alloc, &vocab, size)?.with_new(alloc)?;
    Ok(more.size() == size + 1 && more.fresh() == Some(size))
}

fn the_largest_is_copied(alloc: Global) -> Result<bool, Fail> {
    let vocab = vocabulary(alloc)?;
    let largest = Structure::new(alloc, &vocab, 256)?;
    let is_same = largest.copy(alloc)?.compare(&largest) == Ordering::Equal;
    Ok(is_same && largest.size() == 256)
}

#[test]
fn sizes_reach_their_ends(rt: HostRuntime) -> Result<(), Fail> {
    for size in [0, 1, 255] {
        assert!(rt; takes_one_more(rt.alloc(), size)?, "{size}");
    }
    assert!(rt; the_largest_is_copied(rt.alloc())?);
    Ok(())
}
