//! What analyses lose.

use crate::call::{PLAIN, Row};

/// A predicate without arguments that is defined: an initial structure has to say what it is.
const DEFINED: &str = "%p x(v) unique %i some() = E(v) x(v) %% %action skip() { } %% L1 skip() L2";

/// `x->n = x` under a rule against cycles.
const CYCLE: &str = "%p x(v) unique %p n(v, w) function %r n(v, w) ==> !n(w, v) %%
%action x_n_is_x() { { n(v, w) = (x(v) & x(w)) | (n(v, w) & !x(v)) } } %% L1 x_n_is_x() L2";

/// What `x` points to is freed, and what can be reached from `y` is taken to stay what it is.
const FREE: &str =
    "%p x(v) unique %p y(v) unique %p n(v, w) function %i r(v) = E(w) y(w) & n*(w, v) %%
%action free() { %retain !x(v) { r(v) = r(v) } } %% L1 free() L2";

/// `y` points there too.
const FREE_OF_BOTH: [(&str, &str); 2] = [
    ("p", FREE),
    (
        "i",
        "%n = {a, b} %p = { x = {a} y = {a} n = {a->b} r = {a, b} }",
    ),
];

/// No structure is left behind the action: whether that is a loss depends on its precondition.
const GUARDED: &str = "%p x(v) unique %p b() %r b() ==> 0 %%
%action set() { %p E(v) x(v) { b() = 1 } } %% L1 set() L2";

const FOCUSED: &str = "%p x(v) unique %p b() %r b() ==> 0 %%
%action set() { %f { x(v) } %p E(v) x(v) { b() = 1 } } %% L1 set() L2";

const PICKED: &str = "%p x(v) unique %p b() %r b() ==> 0 %%
%action set() { %p x(v) & !x(w) { b() = 1 } } %% L1 set() L2";

/// Rules against each of two predicates.
const EXCLUDED: &str = "%p x(v) unique %p b() %p c() %r c() ==> 0 %r b() ==> 0 %%
%action skip() { } %% L skip() L";

/// A rule against a predicate, and one against its negation.
const NEITHER: &str = "%p b() %r b() ==> 0 %r !b() ==> 0 %% %action skip() { } %% L skip() L";

const NOTHING: Row<'static, 'static, 'static, 'static> = Row {
    words: &["losses", "p", "i"],
    out: "nothing is lost\n",
    ..PLAIN
};

const LOST: Row<'static, 'static, 'static, 'static> = Row {
    words: &["losses", "p", "i"],
    code: 1,
    ..PLAIN
};

pub static LOSSES: [Row<'static, 'static, 'static, 'static>; 21] = [
    Row {
        files: &[("p", DEFINED), ("i", "%n = {a} %p = { x = {a} some = 1 }")],
        ..NOTHING
    },
    // what isn't written of `some` is 0
    Row {
        files: &[("p", DEFINED), ("i", "%n = {a} %p = { x = {a} }")],
        out: "initial 0 has no opening, by the declaration of some
node L1 lists nothing
node L2 lists nothing
",
        ..LOST
    },
    Row {
        files: &[
            ("p", DEFINED),
            (
                "i",
                "%n = {a} %p = { x = {a} some = 1 } %n = {a} %p = { some = 1 } %n = {} %p = { some = 1 }",
            ),
        ],
        out: "initial 1 has no opening, by the declaration of some
initial 2 has no opening, by the declaration of some
",
        ..LOST
    },
    // of two rules that are contradicted the first is named, and the rule of `x` is counted before them
    Row {
        files: &[
            ("p", EXCLUDED),
            ("i", "%n = {} %p = { b = 1 } %n = {} %p = { b = 1 c = 1 }"),
        ],
        out: "initial 0 has no opening, by rule 2
initial 1 has no opening, by rule 1
node L lists nothing
",
        ..LOST
    },
    // each rule alone leaves a value of `b`, and both leave none
    Row {
        files: &[("p", NEITHER), ("i", "%n = {} %p = { b = 1/2 }")],
        out: "initial 0 has no opening, by declarations together
node L lists nothing
",
        ..LOST
    },
    // of two structures that in which `x` points to a cell, which has two and so stands second
    Row {
        files: &[
            ("p", CYCLE),
            ("i", "%n = {a, b} %p = { x = {a} } %n = {a} %p = { }"),
        ],
        out: "edge 0 loses 1 of 2 structures, first 1  p:2  L1 x_n_is_x ( ) L2\n",
        ..LOST
    },
    Row {
        files: &[("p", CYCLE), ("i", "%n = {a} %p = { x = {a} }")],
        out: "node L2 lists nothing
edge 0 loses 1 of 1 structures, first 0  p:2  L1 x_n_is_x ( ) L2
",
        ..LOST
    },
    Row {
        files: &[("p", CYCLE), ("i", "%n = {a} %p = { }")],
        ..NOTHING
    },
    // `r` stays true of the second cell, which nothing reaches any more
    Row {
        files: &FREE_OF_BOTH,
        out: "node L2 lists nothing
edge 0 loses 1 of 1 structures, first 0  p:2  L1 free ( ) L2
",
        ..LOST
    },
    // and isn't where its definition is asked
    Row {
        words: &["losses", "p", "i", "--recompute"],
        files: &FREE_OF_BOTH,
        ..NOTHING
    },
    Row {
        words: &["losses", "--delta", "--max-structures=2", "--", "p", "i"],
        files: &FREE_OF_BOTH,
        ..NOTHING
    },
    Row {
        files: &[
            ("p", FREE),
            (
                "i",
                "%n = {a, b} %p = { x = {a} y = {b} n = {a->b} r = {b} }",
            ),
        ],
        ..NOTHING
    },
    // the precondition is 1/2
    Row {
        files: &[("p", GUARDED), ("i", "%n = {a} %p = { x = {a:1/2} }")],
        out: "node L2 lists nothing\n",
        ..LOST
    },
    // it is 1
    Row {
        files: &[
            ("p", GUARDED),
            (
                "i",
                "%n = {a} %p = { x = {a} } %n = {a, b} %p = { x = {a} }",
            ),
        ],
        out: "node L2 lists nothing
edge 0 loses 2 of 2 structures, first 0  p:2  L1 set ( ) L2
",
        ..LOST
    },
    // it is 1/2, and 1 behind focus
    Row {
        files: &[("p", FOCUSED), ("i", "%n = {a} %p = { x = {a:1/2} }")],
        out: "node L2 lists nothing
edge 0 loses 1 of 1 structures, first 0  p:2  L1 set ( ) L2
",
        ..LOST
    },
    // it is 1 where the two cells are picked, each in its place
    Row {
        files: &[("p", PICKED), ("i", "%n = {a, b} %p = { x = {a} }")],
        out: "node L2 lists nothing
edge 0 loses 1 of 1 structures, first 0  p:2  L1 set ( ) L2
",
        ..LOST
    },
    // and nowhere
    Row {
        files: &[
            ("p", PICKED),
            ("i", "%n = {a, b} %p = { x = {a:1/2, b:1/2} }"),
        ],
        out: "node L2 lists nothing\n",
        ..LOST
    },
    Row {
        files: &[("p", PICKED), ("i", "%n = {a, b} %p = { }")],
        out: "node L2 lists nothing\n",
        ..LOST
    },
    // no initial structure at all
    Row {
        files: &[("p", DEFINED), ("i", "")],
        out: "node L1 lists nothing\nnode L2 lists nothing\n",
        ..LOST
    },
    // a loss that can't be written is told as a write fault
    Row {
        files: &[("p", GUARDED), ("i", "%n = {a} %p = { x = {a:1/2} }")],
        out_fail: &[2],
        code: 6,
        out: "node L2 li",
        err: "tvla-explain: write fault\n",
        ..LOST
    },
    Row {
        words: &["losses", "p", "i", "--recompute", "--max-structures", "1"],
        files: &FREE_OF_BOTH,
        code: 4,
        err: "tvla-explain: more than 1 structures\n",
        ..PLAIN
    },
];
