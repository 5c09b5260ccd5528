//! Steps stage by stage, plans, counts and completed files.

use crate::call::{PLAIN, Row};
use crate::texts::PROGRAM;

/// One action that keeps individuals of which `x` holds, one that looks for them, and one that takes `y` away
/// from one of them, which the rule forbids.
const STEPS: &str = "%p x(v) %p y(v)
%r x(v) ==> y(v)
%%
%action Keep() { %retain x(v) }
%action Look() { %f { y(v) } }
%action Take() { %p x(a) { y(v) = y(v) & !(v == a) } }
%%
L0 Keep() L1
L0 Look() L1
L0 Take() L1
";

/// One defined predicate with an update and one without, an action that changes what both mention, and one
/// that changes nothing.
const PLANS: &str = "%p x(v)
%i some() = E(v) x(v)
%i all() = A(v) x(v)
%%
%action New() { { x(v) = 1 some() = 1 } }
%action Stay() { }
%%
L0 New() L1
L1 Stay() L0
";

const STEPPED: Row<'static, 'static, 'static, 'static> = Row {
    files: &[
        ("p", STEPS),
        ("one", "%n = {u} %p = { x = {u:1/2} y = {u} }"),
        ("many", "%n = {u} %p = { y = {u:1/2} sm = {u:1/2} }"),
        ("two", "%n = {u, w} %p = { x = {u, w:1/2} y = {u, w} }"),
        ("none", "%n = {u} %p = { x = {u} } %n = {} %p = {}"),
    ],
    ..PLAIN
};

const PLANNED: Row<'static, 'static, 'static, 'static> = Row {
    files: &[("p", PLANS), ("i", "%n = {u, w}\n%p = {\n  x = {u}\n}\n")],
    ..PLAIN
};

const COUNTED: Row<'static, 'static, 'static, 'static> = Row {
    files: &[("p", PROGRAM), ("i", "%n = {} %p = {}")],
    ..PLAIN
};

pub static VIEWS: [Row<'static, 'static, 'static, 'static>; 10] = [
    // an individual of which `x` may hold is dropped or kept, dropped first
    Row {
        words: &["step", "p", "one", "0"],
        out: "stage structure 0  (x?&y)
stage   coerced  (x?&y)
stage   update of 0  (x?&y)
stage     precondition is 1
stage       given 0
stage         coerced
stage         blurred
stage       given 1  (x?&y)
stage         coerced  (x?&y)
stage         blurred  (x?&y)
stage   result 0
stage   result 1  (x?&y)
",
        ..STEPPED
    },
    // a summary of which `y` may hold has none, all, or both
    Row {
        words: &["step", "p", "many", "1"],
        out: "stage structure 0  ((#0&y?))
stage   coerced  ((#0&y?))
stage   focus 0 atom 0
stage     at hand 0  ((#0&y?))
stage       choice 0  ((#0))
stage         coerced  ((#0))
stage       choice 1  ((y))
stage         coerced  ((y))
stage       choice 2  ((#0))  ((y))
stage         coerced  ((#0))  ((y))
stage   update of 0  ((#0))
stage     precondition is 1
stage       given 0  ((#0))
stage         coerced  ((#0))
stage         blurred  ((#0))
stage   update of 1  ((y))
stage     precondition is 1
stage       given 0  ((y))
stage         coerced  ((y))
stage         blurred  ((y))
stage   update of 2  ((#0))  ((y))
stage     precondition is 1
stage       given 0  ((#0))  ((y))
stage         coerced  ((#0))  ((y))
stage         blurred  ((#0))  ((y))
stage   result 0  ((#0))
stage   result 1  ((y))
stage   result 2  ((#0))  ((y))
",
        ..STEPPED
    },
    // what takes `y` from the first breaks the rule; taken from the second, `x` can't hold of it
    Row {
        words: &["step", "p", "two", "2"],
        out: "stage structure 0  (x&y)  (#1&x?&y)
stage   coerced  (x&y)  (#1&x?&y)
stage   update of 0  (x&y)  (#1&x?&y)
stage     precondition is 1 for #0
stage       given 0  (x)  (x?&y)
stage         dropped by rule 0
stage     precondition is 1/2 for #1
stage       given 0  (x&y)  (#1&x?)
stage         coerced  (x&y)  (#1)
stage         blurred  (#0)  (x&y)
stage   result 0  (#0)  (x&y)
",
        ..STEPPED
    },
    // the first contradicts the rule; in the second nobody can be picked
    Row {
        words: &["step", "p", "none", "2"],
        out: "stage structure 0  (x)
stage   dropped by rule 0
stage structure 1
stage   coerced
stage   update of 0
",
        ..STEPPED
    },
    Row {
        words: &["plan", "p"],
        out: "edge 0  p:8  L0 New ( ) L1
  some updated: some() = 1
  all evaluated anew
edge 1  p:9  L1 Stay ( ) L0
  some kept
  all kept
",
        ..PLANNED
    },
    // updates of defined predicates are passed over
    Row {
        words: &["plan", "--recompute", "p"],
        files: &[(
            "p",
            "%p b() %i on() = b() %% %action Go() { { b() = 1 on() = 1 } } %% L Go() L",
        )],
        out: "edge 0  p:1  L Go ( ) L\n  on evaluated anew\n",
        ..PLAIN
    },
    // not all are `x`, so `all` is 0 and needs no line
    Row {
        words: &["complete", "p", "i"],
        out: "%n = {u, w}\n%p = {\n  x = {u}\n  some = 1\n}\n",
        ..PLANNED
    },
    // what is named stays
    Row {
        words: &["complete", "p", "i"],
        files: &[("p", PLANS), ("i", "%n = {}\n%p = {\n  some = 0\n}\n")],
        out: "%n = {}\n%p = {\n  some = 0\n  all = 1\n}\n",
        ..PLAIN
    },
    Row {
        words: &["counts", "p", "i"],
        out: "finished\nnode L0 structures 1\nnode L1 structures 1\nnode L2 structures 1\n",
        ..COUNTED
    },
    Row {
        words: &["counts", "p", "i", "--max-structures=1"],
        out: "more than 1 structures
node L0 structures 1
node L1 structures 1
node L2 structures 0
",
        ..COUNTED
    },
];
