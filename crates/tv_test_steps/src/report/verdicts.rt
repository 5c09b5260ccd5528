//! Rows of small programs.
//!
//! The first line of a text has a program. Each other line has initial structures, a report, and what is
//! wanted of it. Lines that begin with `//` are remarks.

use super::judged::verdict;
use std::alloc::Global;
use std::test::Fail;

/// Reports without individuals.
const FLIP: &str = "%p b() %% %action Flip() { { b() = !b() } } %% L0 Flip() L1
%n = {} %p = { b = 1 } => \
    tvla report 1 node L0 structures 1 %n = {} %p = { b = 1 } node L1 structures 1 %n = {} %p = {} end => \
    accepted; initial 0 to 0; edge 0 0 0 to 0
%n = {} %p = { b = 1 } => \
    tvla report 1 node L0 structures 1 %n = {} %p = { b = 1 } node L1 structures 0 end => \
    edge 0 structure 0 result 0
%n = {} %p = { b = 1 } => \
    tvla report 1 node L0 structures 1 %n = {} %p = { b = 1 } node L1 structures 1 \
      %n = {} %p = { b = 1/2 } end => \
    accepted; initial 0 to 0; edge 0 0 0 to 0
%n = {} %p = { b = 1 } => tvla report 1 node L1 structures 1 %n = {} %p = {} end => initial 0
 => tvla report 1 end => accepted";

const CONTRADICTION: &str =
    "%p b() %r 1 ==> b() %r 1 ==> !b() %% %action Flip() { { b() = !b() } } %% L0 Flip() L1
%n = {} %p = { b = 1 } => tvla report 1 end => accepted";

/// Covers with maps.
const SKIP: &str = "%p x(v) %% %action Skip() { } %% L0 Skip() L1
%n = {u, w} %p = { x = {u} } => \
    tvla report 1 node L0 structures 1 %n = {a, b} %p = { x = {a:1/2, b:1/2} } node L1 structures 1 \
      %n = {c} %p = { x = {c:1/2} sm = {c:1/2} } end => \
    accepted; initial 0 to 0 0 1; edge 0 0 0 to 0 0
%n = {u, w} %p = { x = {u} } => \
    tvla report 2 node L0 structures 1 %n = {a, b} %p = { x = {a:1/2, b:1/2} } node L1 structures 1 \
      %n = {c} %p = { x = {c:1/2} sm = {c:1/2} } map initial 0 to 0 {1, 0} map initial 7 to 0 {0} end => \
    accepted; initial 0 to 0 1 0; edge 0 0 0 to 0 0
%n = {u, w} %p = { x = {u} } => \
    tvla report 2 node L0 structures 1 %n = {a, b} %p = { x = {a:1/2, b:1/2} } node L1 structures 1 \
      %n = {c} %p = { x = {c:1/2} sm = {c:1/2} } map initial 0 to 0 {0, 0} end => \
    initial 0
// the first of two covers, and not the structure itself
%n = {u, w} %p = { x = {u} } => \
    tvla report 1 node L0 structures 3 %n = {a} %p = { x = {a} } %n = {a, b} %p = { x = {a:1/2, b:1/2} } \
      %n = {a, b} %p = { x = {b} } node L1 structures 2 %n = {c} %p = { x = {c} } \
      %n = {c} %p = { x = {c:1/2} sm = {c:1/2} } end => \
    accepted; initial 0 to 1 0 1; edge 0 0 0 to 0 0; edge 0 1 0 to 1 0; edge 0 2 0 to 1 0 0
// a summary of x and of no x: no map is onto two individuals of which one has x
%n = {u} %p = { x = {u:1/2} sm = {u:1/2} } => \
    tvla report 1 node L0 structures 1 %n = {a, b} %p = { x = {b} sm = {a:1/2, b:1/2} } node L1 structures 1 \
      %n = {c} %p = { x = {c:1/2} sm = {c:1/2} } end => \
    initial 0";

/// Messages have lines.
const SAY: &str =
    "%p x(v) %% %action Say() { %message E(v) x(v) -> \"x\" %message A(v) x(v) -> \"all\" } %% L0 Say() L1
%n = {u, w} %p = { x = {u} } => \
    tvla report 1 node L0 structures 1 %n = {a, b} %p = { x = {b} } node L1 structures 1 \
      %n = {a, b} %p = { x = {b} } end => \
    message 0 0
%n = {u, w} %p = { x = {u} } => \
    tvla report 1 node L0 structures 1 %n = {a, b} %p = { x = {b} } node L1 structures 1 \
      %n = {a, b} %p = { x = {b} } message 0 0 1 \"x\" end => \
    accepted; initial 0 to 0 0 1; edge 0 0 0 to 0 0 1
%n = {u, w} %p = { x = {u} } => \
    tvla report 1 node L0 structures 1 %n = {a, b} %p = { x = {a:1/2, b} } node L1 structures 1 \
      %n = {a, b} %p = { x = {a:1/2, b} } message 0 0 1 \"x\" end => \
    message 0 1
// results come before messages, and initial structures before both
%n = {u, w} %p = { x = {u} } => \
    tvla report 1 node L0 structures 1 %n = {a, b} %p = { x = {b} } end => \
    edge 0 structure 0 result 0
%n = {u, w} %p = { x = {u} } => tvla report 1 node L0 structures 1 %n = {a} %p = { x = {a} } end => initial 0";

fn is_met(alloc: Global, program: &str, line: &str) -> Result<bool, Fail> {
    let Some((initial, rest)) = line.split_once(" => ") else {
        return Ok(false);
    };
    let Some((report, wanted)) = rest.split_once(" => ") else {
        return Ok(false);
    };
    Ok(verdict(alloc, program, initial, report)?.as_str() == wanted)
}

#[test]
fn reports_are_judged(rt: HostRuntime) -> Result<(), Fail> {
    for text in [FLIP, CONTRADICTION, SKIP, SAY] {
        let (program, lines) = text.split_once('\n').ok_or("no rows")?;
        for line in lines.lines() {
            assert!(rt;
                line.starts_with("//") || is_met(rt.alloc(), program, line)?,
                "{line}"
            );
        }
    }
    Ok(())
}
