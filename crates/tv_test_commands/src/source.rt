//! Source programs, by whole calls.

use std::test::Fail;
use tv_test_call::{PLAIN, Row, wrong_part};

/// No cells: `x` and `y` are null.
const NOBODY: &str = "%n = {} %p = {}";

const WALK: &str = "vars {x, y} fields {n} y = x while (y != null) { y = y->n }";

/// The loop's body isn't reached, and nothing is told.
const WALKED: &str = "tvla report 2
node S0 structures 1
%n = {}
%p = {
}
node S1 structures 1
%n = {}
%p = {
}
node S2 structures 0
node Exit structures 1
%n = {}
%p = {
}
end
";

/// Null is followed, so nothing comes behind it.
const FOLLOWED: &str = "tvla report 2
node S0 structures 1
%n = {}
%p = {
}
node Exit structures 0
message 0 0 1 \"null dereference of y\"
end
";

static ROWS: [Row; 6] = [
    Row {
        words: &["source", "s", "i"],
        files: &[("s", WALK), ("i", NOBODY)],
        out: WALKED,
        ..PLAIN
    },
    Row {
        words: &["source", "s", "--max-structures=3", "i"],
        files: &[("s", WALK), ("i", NOBODY)],
        out: WALKED,
        ..PLAIN
    },
    Row {
        words: &["source", "--max-structures", "2", "s", "i"],
        files: &[("s", WALK), ("i", NOBODY)],
        code: 4,
        err: "tvla: more than 2 structures\n",
        ..PLAIN
    },
    Row {
        words: &["source", "s", "i"],
        files: &[("s", "vars {y} fields {n} y = y->n"), ("i", NOBODY)],
        out: FOLLOWED,
        ..PLAIN
    },
    Row {
        words: &["source", "s", "i"],
        files: &[("i", NOBODY)],
        code: 5,
        err: "tvla: read fault\n",
        ..PLAIN
    },
    Row {
        words: &["source", "s", "i"],
        files: &[("s", WALK)],
        code: 5,
        err: "tvla: read fault\n",
        ..PLAIN
    },
];

/// Files of which one is refused, and what `err` takes.
static REFUSED: [(&[(&str, &str)], &str); 9] = [
    (
        &[("s", "vars {x, x} fields {n} x = null"), ("i", NOBODY)],
        "tvla: source: NameTwice\n",
    ),
    (
        &[("s", "vars {x} fields {n} x = z"), ("i", NOBODY)],
        "tvla: source: NameUnknown\n",
    ),
    (
        &[("s", "vars {sm} fields {n} sm = null"), ("i", NOBODY)],
        "tvla: source: Reserved\n",
    ),
    (
        &[("s", "vars {x} fields {n}\nx = null }"), ("i", NOBODY)],
        "tvla: source: Syntax at 2:10\n",
    ),
    (
        &[("s", "vars {x} # fields {n}"), ("i", NOBODY)],
        "tvla: source: BadByte\n",
    ),
    (
        &[("s", "/* vars"), ("i", NOBODY)],
        "tvla: source: Unended\n",
    ),
    (
        &[("s", "#include \"w\""), ("w", WALK), ("i", NOBODY)],
        "tvla: source: BadByte\n",
    ),
    (
        &[("s", WALK), ("i", "%n = {u} %p = { z = {u} }")],
        "tvla: initial: NameUnknown\n",
    ),
    (
        &[("s", "vars {x} fields {n} x = z")],
        "tvla: source: NameUnknown\n",
    ),
];

fn refused(files: &'static [(&'static str, &'static str)], err: &'static str) -> Row {
    Row {
        words: &["source", "s", "i"],
        files,
        code: 3,
        err,
        ..PLAIN
    }
}

#[test]
fn source_programs_end_as_they_should(rt: HostRuntime) -> Result<(), Fail> {
    for row in ROWS.iter() {
        let part = wrong_part(rt.alloc(), row)?;
        assert_eq!(rt; part, None, "{} {}{}", row.code, row.out, row.err);
    }
    for (files, err) in REFUSED.iter() {
        let part = wrong_part(rt.alloc(), &refused(files, err))?;
        assert_eq!(rt; part, None, "{err}");
    }
    Ok(())
}
