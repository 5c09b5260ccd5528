//! The closures of long chains whose last edge is unknown.
//!
//! Of the pairs of the closure over 70 individuals 69 * 68 / 2 = 2,346 are true, those of earlier and later
//! ones without the last, and 69 are unknown, those of each other one and the last.

use super::setting::program_with;
use super::values::{Way, values};
use std::alloc::{AllocError, Global};
use std::process::Abort;
use std::test::Fail;
use tv_test_reader::{individuals, put_list, structure};

/// The edges from each individual to the next; the last is unknown.
fn edges(alloc: Global, size: u32) -> Result<Vec<String>, AllocError> {
    let mut items = Vec::new(alloc);
    for x in 1..size {
        let u = x - 1;
        let value = if size - x == 1 { ":1/2" } else { "" };
        items.push(format!(in alloc; "u{u}->u{x}{value}")?)?;
    }
    Ok(items)
}

/// The pairs of an earlier and a later one without the last.
fn pairs(alloc: Global, size: u32) -> Result<Vec<String>, AllocError> {
    let mut items = Vec::new(alloc);
    for x in 0..size.saturating_sub(1) {
        for u in 0..x {
            items.push(format!(in alloc; "u{u}->u{x}")?)?;
        }
    }
    Ok(items)
}

/// The chain: `n` has its edges, `x` is true of the last individual, `r[n,x]` of the first, and `m` of the
/// pairs of earlier and later ones without the last.
fn chain(alloc: Global, size: u32) -> Result<String, AllocError> {
    let last = size.saturating_sub(1);
    let mut text = String::new(alloc);
    put_list(&mut text, "%n", individuals(alloc, size, "")?.as_slice())?;
    text.push_str(format!(in alloc; "%p = {{ x = {{u{last}}} r[n,x] = {{u0}} ")?.as_str())?;
    put_list(&mut text, "n", edges(alloc, size)?.as_slice())?;
    put_list(&mut text, "m", pairs(alloc, size)?.as_slice())?;
    text.push_str("}")?;
    Ok(text)
}

/// The value of the formula in a chain of so many individuals, or its values at all pairs.
fn values_in_chain(alloc: Global, formula: &str, size: u32, way: Way) -> Result<String, Fail> {
    let program = program_with(alloc, formula)?;
    let s = structure(alloc, &program, chain(alloc, size)?.as_str())?;
    values(alloc, &program, &s, way)
}

/// Formulas without free variables, and their values in the chain of 70.
static CLOSED: &str = "A(v, w) x(w) | (n+(v, w) <-> m(v, w)); y
// To the last nothing is true, and nothing false but from itself.
E(v, w) x(w) & n+(v, w); h
A(v, w) x(w) & !x(v) -> n+(v, w); h
E(v, w) x(v) & n+(v, w); n
// From the first all others are reached, the last maybe; from the last none.
A(v, w) r[n,x](v) & !x(w) -> n*(v, w); y
A(v, w) r[n,x](v) -> n*(v, w); h";

/// Whether the formula of a line has the value behind it.
fn is_value(alloc: Global, row: &str) -> Result<bool, Fail> {
    let Some((formula, wanted)) = row.split_once("; ") else {
        return Ok(false);
    };
    Ok(values_in_chain(alloc, formula, 70, Way::Ones)?.as_str() == wanted)
}

#[test]
fn a_long_chain_closes(rt: HostRuntime) -> Result<(), Fail> {
    for row in CLOSED.lines() {
        assert!(rt;
            row.starts_with("//") || is_value(rt.alloc(), row)?,
            "{row}"
        );
    }
    Ok(())
}

fn count(text: &str, letter: u8) -> usize {
    text.as_bytes()
        .iter()
        .filter(|byte| **byte == letter)
        .count()
}

/// The size of a chain, a formula, and at how many pairs it is true and unknown there.
static COUNTS: &str = "70; n+(v, w); 2346 69
70; TC (w, v) (a, c) n(a, c); 2346 69
63; n+(v, w); 1891 62
64; n+(v, w); 1953 63
65; n+(v, w); 2016 64
63; n(v, w); 61 1
64; n(v, w); 62 1
65; n(v, w); 63 1
63; !n(w, v); 3907 1
64; !n(w, v); 4033 1
65; !n(w, v); 4161 1
64; v == w; 64 0
63; x(w) | n(v, w); 124 0
65; x(w) | n(v, w); 128 0
63; E(d) n(v, d) & n(d, w); 60 1
64; E(d) n(v, d) & n(d, w); 61 1
65; E(d) n(v, d) & n(d, w); 62 1";

/// The first is closed once for each pair.
static COUNTS_BY_ONES: &str = "20; n+(v, w); 171 19
64; !n(w, v); 4033 1
65; x(w) | n(v, w); 128 0
64; v == w; 64 0";

/// Whether the formula of a line is true and unknown at as many pairs as the line tells.
fn are_counts(alloc: Global, row: &str, way: Way) -> Result<bool, Fail> {
    let Some((size, rest)) = row.split_once("; ") else {
        return Ok(false);
    };
    let Some((formula, wanted)) = rest.split_once("; ") else {
        return Ok(false);
    };
    let size = size.parse::<u32>().unwrap_or(0);
    let found = values_in_chain(alloc, formula, size, way)?;
    let (yes, half) = (count(found.as_str(), b'y'), count(found.as_str(), b'h'));
    Ok(format!(in alloc; "{yes} {half}")?.as_str() == wanted)
}

#[test]
fn pairs_are_counted(rt: HostRuntime) -> Result<(), Fail> {
    for (rows, way) in [(COUNTS, Way::Rows), (COUNTS_BY_ONES, Way::Ones)] {
        for row in rows.lines() {
            assert!(rt; are_counts(rt.alloc(), row, way)?, "{row}");
        }
    }
    Ok(())
}

/// The numbers of two individuals of the chain of 70, a formula, and its value there.
const PAIRS: [(usize, usize, &str, u8); 4] = [
    (0, 68, "n*(v, w)", b'y'),
    (0, 69, "n*(v, w)", b'h'),
    (69, 0, "n+(v, w)", b'n'),
    (68, 69, "n+(v, w)", b'h'),
];

/// The letter at a pair, where each row has 70 letters and a stroke.
fn letter_at(alloc: Global, formula: &str, u: usize, x: usize) -> Result<Option<u8>, Fail> {
    let found = values_in_chain(alloc, formula, 70, Way::Rows)?;
    let place = u.saturating_mul(71).saturating_add(x);
    Ok(found.as_str().as_bytes().get(place).copied())
}

#[test]
fn ends_are_reached(rt: HostRuntime) -> Result<(), Fail> {
    for (u, x, formula, wanted) in PAIRS {
        let found = letter_at(rt.alloc(), formula, u, x)?;
        assert!(rt; found == Some(wanted), "of {formula} at {u}, {x}");
    }
    Ok(())
}

/// More closures in closures than are kept.
#[test]
fn closures_in_closures_close(rt: HostRuntime) -> Result<(), Fail> {
    let mut text = String::new(rt.alloc());
    text.push_str("A(v, w) x(w) | ((TC(v, w)(a, b) ")?;
    for _ in 0..6 {
        text.push_str("TC(a, b)(c, d) TC(c, d)(a, b) ")?;
    }
    text.push_str("n(a, b)) <-> m(v, w))")?;
    assert!(rt; values_in_chain(rt.alloc(), text.as_str(), 70, Way::Ones)?.as_str() == "y");
    Ok(())
}
