//! Traces that are read, and traces that are refused. Places were worked out by hand: each place is that of
//! the first token of a step, or of the token that can't stand where it does, or of the end.

use super::traced::answer;
use std::alloc::Global;
use std::test::Fail;
use tv_test_reader::{unfolded, whole_program};

/// Two nodes and two edges; the second one's action picks an individual and leaves a predicate free.
const PROGRAM: &str = "%p b() %p x(v) %% %action Flip() { { b() = !b() } } \
    %action Pick() { %p x(v) { x(w) = 1/2 } } %% L0 Flip() L1 L1 Pick() L1";

/// Traces, and what is read. `;` stands for a line feed.
static TRACES: &str = " =>
step 0 => step 0;
step 0 // flip;step 1 (0) free %n = {a} %p = { x = {a} } => step 0;step 1 0 free 1;
step 0 () => step 0;
step 1 (3, 2, 4294967295) => step 1 3 2 4294967295;
step 1 free %n = {a, b} %p = {} step 1 => step 1 free 2;step 1;
step => 1:5
step 2 => 1:1
step 0 step 2 step 9 => 1:8
step 0 ( => 1:9
step 0 (1,) => 1:11
step 0 1 => 1:8
stop => 1:1
step 00 => 1:6
step 4294967296 => 1:6
step 0 free => 1:12
step 0;step 0 free %n = {} %p = { c = 1 } => 2:1
step 0 free %n = {a, a} %p = {} step 7 => 1:1
step 0 step 9 free %n = { => 1:26
step 0 free %n = {} %p = {} (0) => 1:29
step % 0 => no tokens";

fn is_met(alloc: Global, line: &str) -> Result<bool, Fail> {
    let Some((text, wanted)) = line.split_once(" =>") else {
        return Ok(false);
    };
    let program = whole_program(alloc, PROGRAM)?;
    let found = answer(alloc, &program, unfolded(alloc, text)?.as_slice())?;
    Ok(found.as_slice() == unfolded(alloc, wanted.trim())?.as_slice())
}

#[test]
fn traces_are_read_or_refused(rt: HostRuntime) -> Result<(), Fail> {
    for line in TRACES.lines() {
        assert!(rt; is_met(rt.alloc(), line)?, "{line}");
    }
    Ok(())
}
