//! Finite differencing, by whole calls.

use std::test::Fail;
use tv_test_call::{PLAIN, Row, wrong_part};

/// A conjunction of which one part is set.
const BOTH: &str = "%p b()
%p c()
%i d() = b() & c()
%%
%action Set() { { b() = 1 } }
%%
L0 Set() L1
";

const BOTH_REPORT: &str = "tvla report 2
node L0 structures 1
%n = {}
%p = {
  c = 1/2
}
node L1 structures 1
%n = {}
%p = {
  b = 1
  c = 1/2
  d = 1/2
}
end
";

/// A given update that disagrees with the definition; without it the update is made by differencing.
const WRONG: &str = "%p b()
%p c()
%i d() = b() & c()
%%
%action Set() { { b() = 1 d() = 0 } }
%%
L0 Set() L1
";

const WRONG_REPORT: &str = "tvla report 2
node L0 structures 1
%n = {}
%p = {
  c = 1
}
node L1 structures 0
end
";

const RIGHT_REPORT: &str = "tvla report 2
node L0 structures 1
%n = {}
%p = {
  c = 1
}
node L1 structures 1
%n = {}
%p = {
  b = 1
  c = 1
  d = 1
}
end
";

static ROWS: [Row; 6] = [
    Row {
        words: &["analyze", "--delta", "p", "i"],
        files: &[("p", BOTH), ("i", "%n = {} %p = { c = 1/2 }")],
        out: BOTH_REPORT,
        ..PLAIN
    },
    Row {
        words: &["check", "p", "i", "r", "--delta"],
        files: &[
            ("p", BOTH),
            ("i", "%n = {} %p = { c = 1/2 }"),
            ("r", BOTH_REPORT),
        ],
        out: "accepted\n",
        ..PLAIN
    },
    Row {
        words: &["analyze", "p", "i"],
        files: &[("p", WRONG), ("i", "%n = {} %p = { c = 1 }")],
        out: WRONG_REPORT,
        ..PLAIN
    },
    Row {
        words: &["analyze", "p", "i", "--delta"],
        files: &[("p", WRONG), ("i", "%n = {} %p = { c = 1 }")],
        out: RIGHT_REPORT,
        ..PLAIN
    },
    Row {
        words: &["check", "--delta", "p", "i", "r"],
        files: &[
            ("p", WRONG),
            ("i", "%n = {} %p = { c = 1 }"),
            ("r", WRONG_REPORT),
        ],
        code: 1,
        out: "rejected: edge 0 structure 0 result 0\n",
        ..PLAIN
    },
    Row {
        words: &["analyze", "--delta", "p", "i"],
        files: &[("i", "%n = {} %p = {}")],
        code: 5,
        err: "tvla: read fault\n",
        ..PLAIN
    },
];

#[test]
fn differenced_programs_end_as_they_should(rt: HostRuntime) -> Result<(), Fail> {
    for row in ROWS.iter() {
        assert_eq!(rt;
            wrong_part(rt.alloc(), row)?,
            None,
            "{} {}",
            row.code,
            row.out
        );
    }
    Ok(())
}
