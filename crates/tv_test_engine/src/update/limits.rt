//! The limits of an update: 256 individuals, and 4,096 choices of those that stay.

use super::given::given;
use std::alloc::{AllocError, Global};
use std::process::Abort;
use std::test::Fail;
use tv_model::Mode;
use tv_test_reader::{individuals, program, put_list, structure};

/// A text of so many individuals, the first ones of which have `x` unknown.
fn unknown(alloc: Global, size: u32, first: u32) -> Result<String, AllocError> {
    let mut text = String::new(alloc);
    put_list(&mut text, "%n", individuals(alloc, size, "")?.as_slice())?;
    text.push_str("%p = { ")?;
    put_list(
        &mut text,
        "x",
        individuals(alloc, first, ":1/2")?.as_slice(),
    )?;
    text.push_str("}")?;
    Ok(text)
}

/// Whether this is how many structures the action gives from so many individuals, the first ones of which
/// have `x` unknown, and how many individuals the first and the last one have; or why there are none.
fn is_met(alloc: Global, parts: &str, size: u32, first: u32, wanted: &str) -> Result<bool, Fail> {
    let program = program(alloc, "%p x(v)", parts)?;
    let s = structure(alloc, &program, unknown(alloc, size, first)?.as_str())?;
    let outcome = match given(alloc, &program, Mode::Given, &s, "")? {
        Err(fault) => format!(in alloc; "{fault:?}")?,
        Ok(found) => {
            let first = found.as_slice().first().map_or(0, |t| t.size());
            let last = found.as_slice().last().map_or(0, |t| t.size());
            format!(in alloc; "{} {first} {last}", found.len())?
        }
    };
    Ok(outcome.as_str() == wanted)
}

/// How many individuals there are, how many of them have `x` unknown, the parts of an action, and what comes.
const ROWS: [(u32, u32, &str, &str); 9] = [
    (12, 12, "%retain x(v)", "4096 0 12"),
    (13, 13, "%retain x(v)", "Splits"),
    (256, 12, "%retain !x(v)", "4096 244 256"),
    (256, 13, "%retain !x(v)", "Splits"),
    (255, 0, "%new", "1 256 256"),
    (256, 0, "%new", "Individuals"),
    (255, 1, "%new %retain x(v)", "2 0 1"),
    (256, 13, "%new %retain x(v)", "Individuals"),
    (256, 0, "{ x(v) = 1/2 }", "1 256 256"),
];

#[test]
fn updates_reach_their_limits(rt: HostRuntime) -> Result<(), Fail> {
    for (size, first, parts, wanted) in ROWS {
        let is = is_met(rt.alloc(), parts, size, first, wanted)?;
        assert!(rt; is, "{parts} from {size}");
    }
    Ok(())
}
