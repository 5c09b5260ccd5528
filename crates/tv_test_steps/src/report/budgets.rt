//! The budgets of a step.

use super::analyzed::outcome;
use std::alloc::{AllocError, Global};
use std::test::Fail;
use tv_test_reader::{individuals, put_list};

/// The individuals that have this bit in their numbers.
fn with_bit(alloc: Global, count: u32, bit: u32) -> Result<Vec<String>, AllocError> {
    let mut items = Vec::new(alloc);
    for u in 0..count {
        if u.checked_shr(bit).map_or(false, |n| n % 2 == 1) {
            items.push(format!(in alloc; "u{u}")?)?;
        }
    }
    Ok(items)
}

/// The values of the predicates, letters: each holds for the individuals that have its bit.
fn put_values(alloc: Global, out: &mut String, names: &str, count: u32) -> Result<(), AllocError> {
    let mut bit: u32 = 0;
    for name in names.chars() {
        let name = format!(in alloc; "{name}")?;
        put_list(out, name.as_str(), with_bit(alloc, count, bit)?.as_slice())?;
        bit = bit.saturating_add(1);
    }
    Ok(())
}

/// How many individuals there are, the predicates that make them differ, the predicates that are unknown,
/// what is done to them along the one edge, and what comes.
#[derive(Clone, Copy)]
struct Row<'a> {
    count: u32,
    names: &'a str,
    unknown: &'a str,
    action: &'a str,
    wanted: &'a str,
}

fn row_of(line: &str) -> Option<Row<'_>> {
    let mut cells = line.split("; ");
    Some(Row {
        count: cells.next()?.parse::<u32>().ok()?,
        names: cells.next()?,
        unknown: cells.next()?,
        action: cells.next()?,
        wanted: cells.next()?,
    })
}

fn initial(alloc: Global, row: Row<'_>) -> Result<String, AllocError> {
    let mut text = String::new(alloc);
    put_list(
        &mut text,
        "%n",
        individuals(alloc, row.count, "")?.as_slice(),
    )?;
    text.push_str("%p = { ")?;
    put_values(alloc, &mut text, row.names, row.count)?;
    let halves = individuals(alloc, row.count, ":1/2")?;
    for name in row.unknown.split_whitespace() {
        put_list(&mut text, name, halves.as_slice())?;
    }
    text.push_str("}")?;
    Ok(text)
}

fn program(alloc: Global, row: Row<'_>) -> Result<String, AllocError> {
    let mut text = String::new(alloc);
    for name in row.names.chars() {
        text.push_str(format!(in alloc; "%p {name}(v) ")?.as_str())?;
    }
    let action = row.action;
    let rest = format!(in alloc; "%p x(v) %% %action Do() {{ {action} }} %% L0 Do() L1")?;
    text.push_str(rest.as_str())?;
    Ok(text)
}

fn is_met(alloc: Global, line: &str) -> Result<bool, Fail> {
    let Some(row) = row_of(line) else {
        return Ok(false);
    };
    let program = program(alloc, row)?;
    let initial = initial(alloc, row)?;
    Ok(outcome(alloc, program.as_str(), initial.as_str(), 5000)?.as_str() == row.wanted)
}

/// A step within a budget, and one past it: three cases for each of seven or eight summaries; twelve or
/// thirteen individuals that may go; pairs of 64 or 65 individuals; a new individual beside 255 or 256.
static ROWS: &str = "7; abc; x sm; %f { x(v) }; 1 2187
8; abc; x sm; %f { x(v) }; Splits
12; abcd; x; %retain x(v); 1 4096
13; abcd; x; %retain x(v); Splits
64; abcdef; ; %p x(v) & x(w); 1 0
65; abcdefg; ; %p x(v) & x(w); Splits
255; abcdefgh; ; %new; 1 1
256; abcdefgh; ; %new; Individuals";

#[test]
fn steps_keep_budgets(rt: HostRuntime) -> Result<(), Fail> {
    for line in ROWS.lines() {
        assert!(rt; is_met(rt.alloc(), line)?, "{line}");
    }
    Ok(())
}
