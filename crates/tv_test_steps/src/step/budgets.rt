//! Steps that meet a budget, and steps just within it.

use super::stepped::stepped;
use std::alloc::{AllocError, Global};
use std::process::Abort;
use std::test::Fail;
use tv_model::Mode;
use tv_struct::StageError;
use tv_test_reader::{individuals, program, put_list, structure};

/// How many individuals of unknown value and whether they are summaries, the parts of the action, and the
/// cause, if any.
type Row = (u32, bool, &'static str, Option<StageError>);

/// Each of eight summaries has none of a cell, all, and some: 3 ^ 8 choices. Lists of individuals count,
/// whether or not they pass.
const ROWS: [Row; 8] = [
    (7, true, "%f { x(v) }", None),
    (8, true, "%f { x(v) }", SPLITS),
    (12, false, "%retain x(v)", None),
    (13, false, "%retain x(v)", SPLITS),
    (64, false, PAIRS, None),
    (65, false, PAIRS, SPLITS),
    (255, false, "%new", None),
    (256, false, "%new", INDIVIDUALS),
];

const SPLITS: Option<StageError> = Some(StageError::Splits);

const INDIVIDUALS: Option<StageError> = Some(StageError::Individuals);

const PAIRS: &str = "%p (x(v) & x(w)) & 0 { x(u) = u == v }";

/// A list of so many individuals, each with the value behind it.
fn put_individuals(
    alloc: Global,
    text: &mut String,
    name: &str,
    size: u32,
    value: &str,
) -> Result<(), AllocError> {
    let items = individuals(alloc, size, value)?;
    put_list(text, name, items.as_slice())
}

fn put_values(
    alloc: Global,
    text: &mut String,
    size: u32,
    are_summaries: bool,
) -> Result<(), AllocError> {
    text.push_str("%p = { ")?;
    put_individuals(alloc, text, "x", size, ":1/2")?;
    if are_summaries {
        put_individuals(alloc, text, "sm", size, ":1/2")?;
    }
    text.push_str("}")
}

fn text_of(alloc: Global, size: u32, are_summaries: bool) -> Result<String, AllocError> {
    let mut text = String::new(alloc);
    put_individuals(alloc, &mut text, "%n", size, "")?;
    put_values(alloc, &mut text, size, are_summaries)?;
    Ok(text)
}

/// The cause with which the step of such a structure fails.
fn cause(
    alloc: Global,
    size: u32,
    are_summaries: bool,
    parts: &str,
) -> Result<Option<StageError>, Fail> {
    let program = program(alloc, "%p x(v)", parts)?;
    let text = text_of(alloc, size, are_summaries)?;
    let s = structure(alloc, &program, text.as_str())?;
    Ok(stepped(alloc, &program, Mode::Given, &s)?.err())
}

#[test]
fn budgets_are_kept(rt: HostRuntime) -> Result<(), Fail> {
    for (size, are_summaries, parts, wanted) in ROWS {
        assert!(rt;
            cause(rt.alloc(), size, are_summaries, parts)? == wanted,
            "{parts} of {size}"
        );
    }
    Ok(())
}
