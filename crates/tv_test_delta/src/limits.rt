//! Answers for predicates, and definitions whose updates would be too large.

ghost use Rattle.std.specs.Prelude.{◌≡◌, ◌<◌, slice_get, length, Some, IfOk};
ghost use Rattle.tv_model.specs.Program.{program_of};
ghost use Rattle.tv_model.specs.Valid.{IsValid};

use crate::rows::{are_all_same, first_updates};
use std::alloc::Global;
use std::process::Abort;
use std::test::Fail;
use tv_delta::differenced;
use tv_model::{Action, Program};
use tv_test_reader::program;

/// So many definitions that each rest twice on the one before, the first one on this formula.
fn doubled(alloc: Global, count: u32, first: &str, tail: &str) -> Result<String, Fail> {
    let mut text = String::new(alloc);
    text.push_str("%p b() %p c() ")?;
    let start = format!(in alloc; "%i d0() = {first} ")?;
    text.push_str(start.as_str())?;
    for k in 1..count {
        let before = k - 1;
        let next = format!(in alloc; "%i d{k}() = d{before}() & d{before}() {tail} ")?;
        text.push_str(next.as_str())?;
    }
    Ok(text)
}

/// How many updates differencing gives the one action.
fn update_count(alloc: Global, declared: &str) -> Result<usize, Fail> {
    let given = program(alloc, declared, "{ b() = 1 }")?;
    let made = differenced(alloc, &given)?;
    match made.actions.as_slice() {
        [] => Ok(0),
        [action, ..] => Ok(action.updates.as_slice().len()),
    }
}

/// Definitions that double what is formed get updates as long as these are small.
#[test]
fn large_updates_are_not_formed(rt: HostRuntime) -> Result<(), Fail> {
    let text = doubled(rt.alloc(), 12, "b() & c()", "")?;
    let count = update_count(rt.alloc(), text.as_str())?;
    assert!(rt; count == 8, "{count}");
    Ok(())
}

/// Definitions that are false each rest twice on the one before: each is opened once.
#[test]
fn false_definitions_are_opened_once(rt: HostRuntime) -> Result<(), Fail> {
    let text = doubled(rt.alloc(), 60, "b() & 0", "")?;
    let count = update_count(rt.alloc(), text.as_str())?;
    assert!(rt; count == 61, "{count}");
    Ok(())
}

/// A conjunction of so many doublings of `c()`, in balanced parentheses.
fn balanced(alloc: Global, doublings: u32) -> Result<String, Fail> {
    let mut text = String::from_str(alloc, "c()")?;
    for _ in 0..doublings {
        text = format!(in alloc; "({text} & {text})")?;
    }
    Ok(text)
}

/// The updates that differencing gives the action `{ b() = 1 }`, and those of an action with these.
fn are_updates(alloc: Global, declared: &str, wanted: &str) -> Result<bool, Fail> {
    let given = program(alloc, declared, "{ b() = 1 }")?;
    let made = differenced(alloc, &given)?;
    let meant = program(alloc, declared, wanted)?;
    Ok(are_all_same(first_updates(&made), first_updates(&meant)))
}

/// A definition has an update of 32,772 nodes, though the whole would have 65,540 after the step: that is to
/// be small only where a connective or a quantifier speaks of it.
#[test]
fn the_whole_may_be_large_after_the_step(rt: HostRuntime) -> Result<(), Fail> {
    let half = balanced(rt.alloc(), 14)?;
    let declared = format!(in rt.alloc(); "%p b() %p c() %i d() = b() & {half}")?;
    let wanted = format!(in rt.alloc(); "{{ b() = 1 d() = d() | (!b() & {half}) }}")?;
    assert!(rt; are_updates(rt.alloc(), declared.as_str(), wanted.as_str())?);
    Ok(())
}
