//! The joined analysis, by whole calls.

use std::test::Fail;
use tv_test_call::{FLIP, FLIP_INITIAL, FLIP_REPORT, PLAIN, Row, wrong_part};

/// A program that adds individuals without end; a structure without individuals.
const NEW: &str = "%p x(v)
%%
%action New() { %new { x(v) = isNew(v) } }
%%
L0 New() L0
";

const NOBODY: &str = "%n = {} %p = {}";

/// At most one structure for the same individuals and nullary values: the one of two individuals is joined.
const JOINED: &str = "tvla report 2
node L0 structures 3
%n = {}
%p = {
}
%n = {i0}
%p = {
  x = {i0}
}
%n = {i0, i1}
%p = {
  x = {i1}
  sm = {i0:1/2}
}
end
";

/// Thirteen individuals that may stay: over 4,096 choices.
const RETAIN: &str = "%p a(v) %p b(v) %p c(v) %p d(v) %p x(v)
%%
%action Keep() { %retain x(v) }
%%
L0 Keep() L1
";

const CROWD: &str = "%n = {u0, u1, u2, u3, u4, u5, u6, u7, u8, u9, u10, u11, u12}
%p = {
  a = {u1, u3, u5, u7, u9, u11}
  b = {u2, u3, u6, u7, u10, u11}
  c = {u4, u5, u6, u7, u12}
  d = {u8, u9, u10, u11, u12}
  x = {u0:1/2, u1:1/2, u2:1/2, u3:1/2, u4:1/2, u5:1/2, u6:1/2, u7:1/2, u8:1/2, u9:1/2, u10:1/2, u11:1/2, u12:1/2}
}
";

/// The value of a nullary predicate is a part of the key, that of one that names don't tell isn't. What is
/// listed first is followed once, and its message told in the end.
const TURN: &str = "%p b() %p z(v) nonabs
%%
%action Turn() {
  %message b() -> \"on\"
  { b() = !b() z(v) = !z(v) }
}
%%
L0 Turn() L0
";

const TURNED: &str = "tvla report 2
node L0 structures 2
%n = {i0}
%p = {
}
%n = {i0}
%p = {
  b = 1
  z = {i0}
}
message 0 0 1 \"on\"
end
";

/// A message is told of what is listed in the end: it is true of the structure that was listed first, and
/// unknown of that which it became.
const SAY: &str = "%p z(v) nonabs
%%
%action Turn() {
  %message E(v) z(v) -> \"turned\"
  { z(v) = !z(v) }
}
%%
L0 Turn() L0
";

const SAID: &str = "tvla report 2
node L0 structures 1
%n = {i0}
%p = {
  z = {i0:1/2}
}
message 0 0 1/2 \"turned\"
end
";

static ROWS: [Row; 10] = [
    Row {
        words: &["join", "p", "i"],
        files: &[("p", NEW), ("i", NOBODY)],
        out: JOINED,
        ..PLAIN
    },
    Row {
        words: &["check", "p", "i", "r"],
        files: &[("p", NEW), ("i", NOBODY), ("r", JOINED)],
        out: "accepted\n",
        ..PLAIN
    },
    Row {
        words: &["join", "--max-structures=2", "p", "i"],
        files: &[("p", NEW), ("i", NOBODY)],
        code: 4,
        err: "tvla: more than 2 structures\n",
        ..PLAIN
    },
    Row {
        words: &["join", "p", "--recompute", "i", "--max-structures", "3"],
        files: &[("p", NEW), ("i", NOBODY)],
        out: JOINED,
        ..PLAIN
    },
    Row {
        words: &["join", "p", "i"],
        files: &[("p", FLIP), ("i", FLIP_INITIAL)],
        out: FLIP_REPORT,
        ..PLAIN
    },
    Row {
        words: &["join", "p", "i"],
        files: &[("p", TURN), ("i", "%n = {u} %p = { b = 1 z = {u} }")],
        out: TURNED,
        ..PLAIN
    },
    Row {
        words: &["join", "p", "i"],
        files: &[("p", SAY), ("i", "%n = {u} %p = { z = {u} }")],
        out: SAID,
        ..PLAIN
    },
    Row {
        words: &["join", "p", "i"],
        files: &[("p", RETAIN), ("i", CROWD)],
        code: 4,
        err: "tvla: too many splits\n",
        ..PLAIN
    },
    Row {
        words: &["join", "p", "i"],
        files: &[("p", FLIP)],
        code: 5,
        err: "tvla: read fault\n",
        ..PLAIN
    },
    Row {
        words: &["join", "p", "i"],
        files: &[("p", FLIP), ("i", "%n = {u} %p = { sm = {u:1} }")],
        code: 3,
        err: "tvla: initial: BadSm\n",
        ..PLAIN
    },
];

#[test]
fn joined_analyses_end_as_they_should(rt: HostRuntime) -> Result<(), Fail> {
    for row in ROWS.iter() {
        assert_eq!(rt;
            wrong_part(rt.alloc(), row)?,
            None,
            "{} {}",
            row.code,
            row.err
        );
    }
    Ok(())
}
