//! The traversal of a list of two or more cells, as four files, and its report.

use crate::call::{ANALYZE, Call, wrong_part};
use std::alloc::{AllocError, Global};
use std::test::Fail;
use tv_test_call::{CALM, Ending, LIST, LIST_PREDICATES};

const GUARDED: &str = "/* Traversal of a list. */
%s PVar {x, y}
#include \"preds.tvp\"
%%
#include \"actions.tvp\"
%%
L1 Copy_Var(y, x)      L2
L2 Is_Not_Null_Var(y)  L3
L3 Get_Next_L(y, y)    L2
L2 Is_Null_Var(y)      L4
";

/// The loop goes on without a test.
const UNGUARDED: &str = "%s PVar {x, y}
#include \"preds.tvp\"
%%
#include \"actions.tvp\"
%%
L1 Copy_Var(y, x)    L2
L2 uninterpreted()   L3
L3 Get_Next_L(y, y)  L2
L2 Is_Null_Var(y)    L4
";

const ACTIONS: &str = "%action uninterpreted() {
  %t \"uninterpreted\"
}
%action Is_Not_Null_Var(lhs) {
  %t lhs + \" != NULL\"
  %f { lhs(v) }
  %p E(v) lhs(v)
}
%action Is_Null_Var(lhs) {
  %t lhs + \" == NULL\"
  %f { lhs(v) }
  %p !(E(v) lhs(v))
}
%action Copy_Var(lhs, rhs) {
  %t lhs + \" = \" + rhs
  %f { rhs(v) }
  {
    lhs(v) = rhs(v)
    r[n,lhs](v) = r[n,rhs](v)
  }
}
%action Get_Next_L(lhs, rhs) {
  %t lhs + \" = \" + rhs + \"->n\"
  %f { E(v_1) rhs(v_1) & n(v_1, v) }
#include \"message.tvp\"
  {
    lhs(v) = E(v_1) rhs(v_1) & n(v_1, v)
    r[n,lhs](v) = r[n,rhs](v) & !rhs(v)
  }
}
";

const MESSAGE: &str = "%message !(E(v) rhs(v)) -> \"null dereference of \" + rhs";

/// Two cells, and the pointer is null.
const TWO: &str = "%n = {i0, i1}
%p = {
  x = {i1}
  n = {i1->i0}
  t[n] = {i0->i0, i1->i0, i1->i1}
  r[n,x] = {i0, i1}
}
";

/// More than two cells, or two, and the pointer is null.
const MORE: &str = "%n = {i0, i1}
%p = {
  x = {i1}
  n = {i0->i0:1/2, i1->i0:1/2}
  t[n] = {i0->i0:1/2, i1->i0, i1->i1}
  r[n,x] = {i0, i1}
  sm = {i0:1/2}
}
";

/// Two cells, and the pointer is at the second.
const SECOND: &str = "%n = {i0, i1}
%p = {
  x = {i1}
  y = {i0}
  n = {i1->i0}
  t[n] = {i0->i0, i1->i0, i1->i1}
  r[n,x] = {i0, i1}
  r[n,y] = {i0}
}
";

/// All others in which the pointer is at a cell.
const OTHERS: &str = "%n = {i0, i1}
%p = {
  x = {i1}
  y = {i1}
  n = {i0->i0:1/2, i1->i0:1/2}
  t[n] = {i0->i0:1/2, i1->i0, i1->i1}
  r[n,x] = {i0, i1}
  r[n,y] = {i0, i1}
  sm = {i0:1/2}
}
%n = {i0, i1, i2}
%p = {
  x = {i2}
  y = {i1}
  n = {i0->i1, i2->i0}
  t[n] = {i0->i0, i0->i1, i1->i1, i2->i0, i2->i1, i2->i2}
  r[n,x] = {i0, i1, i2}
  r[n,y] = {i1}
}
%n = {i0, i1, i2}
%p = {
  x = {i2}
  y = {i1}
  n = {i0->i0:1/2, i1->i0:1/2, i2->i1}
  t[n] = {i0->i0:1/2, i1->i0, i1->i1, i2->i0, i2->i1, i2->i2}
  r[n,x] = {i0, i1, i2}
  r[n,y] = {i0, i1}
  sm = {i0:1/2}
}
%n = {i0, i1, i2}
%p = {
  x = {i2}
  y = {i1}
  n = {i0->i0:1/2, i0->i1:1/2, i2->i0:1/2}
  t[n] = {i0->i0:1/2, i0->i1, i1->i1, i2->i0, i2->i1, i2->i2}
  r[n,x] = {i0, i1, i2}
  r[n,y] = {i1}
  sm = {i0:1/2}
}
%n = {i0, i1, i2, i3}
%p = {
  x = {i3}
  y = {i2}
  n = {i0->i2, i1->i1:1/2, i2->i1:1/2, i3->i0}
  t[n] = {i0->i0, i0->i1, i0->i2, i1->i1:1/2, i2->i1, i2->i2, i3->i0, i3->i1, i3->i2, i3->i3}
  r[n,x] = {i0, i1, i2, i3}
  r[n,y] = {i1, i2}
  sm = {i1:1/2}
}
%n = {i0, i1, i2, i3}
%p = {
  x = {i3}
  y = {i2}
  n = {i0->i0:1/2, i0->i2:1/2, i1->i1:1/2, i2->i1:1/2, i3->i0:1/2}
  t[n] = {i0->i0:1/2, i0->i1, i0->i2, i1->i1:1/2, i2->i1, i2->i2, i3->i0, i3->i1, i3->i2, i3->i3}
  r[n,x] = {i0, i1, i2, i3}
  r[n,y] = {i1, i2}
  sm = {i0:1/2, i1:1/2}
}
";

/// The report where the loop is guarded by a test of the pointer.
const GUARDED_REPORT: [&str; 14] = [
    "tvla report 2\nnode L1 structures 1\n",
    MORE,
    "node L2 structures 9\n",
    TWO,
    SECOND,
    MORE,
    OTHERS,
    "node L3 structures 7\n",
    SECOND,
    OTHERS,
    "node L4 structures 2\n",
    TWO,
    MORE,
    "end\n",
];

/// The report where it isn't: all structures go on, and the pointer may be null where it is followed.
const UNGUARDED_REPORT: [&str; 17] = [
    "tvla report 2\nnode L1 structures 1\n",
    MORE,
    "node L2 structures 9\n",
    TWO,
    SECOND,
    MORE,
    OTHERS,
    "node L3 structures 9\n",
    TWO,
    SECOND,
    MORE,
    OTHERS,
    "node L4 structures 2\n",
    TWO,
    MORE,
    "message 2 0 1 \"null dereference of y\"\n",
    "end\n",
];

/// Texts one behind the other.
fn joined(alloc: Global, parts: &[&str]) -> Result<String, AllocError> {
    let mut out = String::new(alloc);
    for part in parts {
        out.push_str(part)?;
    }
    Ok(out)
}

/// The report of the guarded loop.
pub fn list_report(alloc: Global) -> Result<String, AllocError> {
    joined(alloc, &GUARDED_REPORT)
}

const INCLUDED: [(&str, &str); 3] = [
    ("preds.tvp", LIST_PREDICATES),
    ("actions.tvp", ACTIONS),
    ("message.tvp", MESSAGE),
];

/// The same, and a list of two cells with a run that goes twice around the guarded loop.
const REPLAYED: [(&str, &str); 5] = [
    ("preds.tvp", LIST_PREDICATES),
    ("actions.tvp", ACTIONS),
    ("message.tvp", MESSAGE),
    (
        "s",
        "%n = {a, b} %p = { x = {a} n = {a->b} t[n] = {a->a, a->b, b->b} r[n,x] = {a, b} }",
    ),
    ("t", "step 0 step 1 step 2 step 1 step 2 step 3"),
];

/// The same without the message.
const SILENT: [(&str, &str); 3] = [
    ("preds.tvp", LIST_PREDICATES),
    ("actions.tvp", ACTIONS),
    ("message.tvp", ""),
];

/// The guarded loop is analyzed.
pub const LIST_CALL: Call<'static, 'static, 'static, 'static> = Call {
    program: GUARDED,
    initial: LIST,
    more: &INCLUDED,
    ..ANALYZE
};

/// Calls on the list, and what `out` takes.
static TRAVERSALS: [(Call<'static, 'static, 'static, 'static>, &[&str]); 5] = [
    (LIST_CALL, &GUARDED_REPORT),
    (
        Call {
            program: UNGUARDED,
            ..LIST_CALL
        },
        &UNGUARDED_REPORT,
    ),
    (
        Call {
            more: &SILENT,
            ..LIST_CALL
        },
        &GUARDED_REPORT,
    ),
    (
        Call {
            words: &["analyze", "--recompute", "p", "i"],
            ..LIST_CALL
        },
        &GUARDED_REPORT,
    ),
    (
        Call {
            words: &["analyze", "--delta", "p", "i"],
            ..LIST_CALL
        },
        &GUARDED_REPORT,
    ),
];

fn wrong_traversal(
    alloc: Global,
    call: &Call<'_, '_, '_, '_>,
    out: &[&str],
) -> Result<Option<&'static str>, AllocError> {
    let out = joined(alloc, out)?;
    let wanted = Ending {
        code: 0,
        out: out.as_str(),
        err: "",
    };
    wrong_part(alloc, call, &CALM, &wanted)
}

#[test]
fn lists_are_traversed(rt: HostRuntime) -> Result<(), Fail> {
    for (call, out) in TRAVERSALS.iter() {
        assert_eq!(rt; wrong_traversal(rt.alloc(), call, out)?, None);
    }
    Ok(())
}

/// What a replay of the run writes.
const STATES: [&str; 8] = [
    "state 0 node L1 size 2\nconcrete ok\ninitial 0 {0, 1}\nrules ok\nlisted 0 {1, 0}\n",
    "state 1 node L2 size 2\nupdates ok\nrules ok\nlisted 3 {1, 0}\n",
    "state 2 node L3 size 2\nupdates ok\nrules ok\nlisted 1 {1, 0}\n",
    "state 3 node L2 size 2\nupdates ok\nrules ok\nlisted 1 {1, 0}\n",
    "state 4 node L3 size 2\nupdates ok\nrules ok\nlisted 0 {1, 0}\n",
    "state 5 node L2 size 2\nupdates ok\nrules ok\nlisted 0 {1, 0}\n",
    "state 6 node L4 size 2\nupdates ok\nrules ok\nlisted 0 {1, 0}\n",
    "end\n",
];

/// Whether a call on the guarded loop and its report writes this.
fn writes(alloc: Global, words: &[&str], out: &[&str]) -> Result<bool, AllocError> {
    let report = list_report(alloc)?;
    let call = Call {
        words,
        report: report.as_str(),
        more: &REPLAYED,
        ..LIST_CALL
    };
    Ok(wrong_traversal(alloc, &call, out)?.is_none())
}

#[test]
fn traversals_are_accepted_and_replayed(rt: HostRuntime) -> Result<(), Fail> {
    for words in [
        &["check", "p", "i", "r"][..],
        &["check", "p", "i", "r", "--recompute"],
        &["check", "p", "i", "r", "--delta"],
    ] {
        assert!(rt; writes(rt.alloc(), words, &["accepted\n"])?, "{words:?}");
    }
    assert!(rt;
        writes(rt.alloc(), &["replay", "p", "i", "s", "t", "r"], &STATES)?,
        "replay"
    );
    Ok(())
}
