//! The closed rules of small programs, and of the linked list.

use super::show::{numbers, rules, variables};
use std::alloc::Global;
use std::test::Fail;
use tv_model::PredId;
use tv_rules::{Closed, close_rules};
use tv_test_reader::program;

/// The closed rules of a program with these declarations.
fn closed(alloc: Global, declarations: &str) -> Result<Closed, Fail> {
    let program = program(alloc, declarations, "")?;
    Ok(close_rules(alloc, &program)?)
}

/// Declarations and, behind a tab, their closed rules: `P0(1)` is the first predicate at the second variable.
static ROWS: &str = "%p q(v) %p p(v, w) %r q(v) ==> p(v, v)\tP0(0)>P1(0,0);!P1(0,0)>!P0(0);
%p x(v) unique\tP0(0)&P0(1)>0=1;!0=1&P0(1)>!P0(0);P0(0)&!0=1>!P0(1);
%p n(v, w) function\tP0(0,1)&P0(0,2)>1=2;!1=2&P0(0,2)>!P0(0,1);P0(0,1)&!1=2>!P0(0,2);
%p n(v, w) invfunction\tP0(1,0)&P0(2,0)>1=2;!1=2&P0(2,0)>!P0(1,0);P0(1,0)&!1=2>!P0(2,0);
%p n(v, w) transitive\tP0(0,1)&P0(1,2)>P0(0,2);!P0(0,2)&P0(1,2)>!P0(0,1);P0(0,1)&!P0(0,2)>!P0(1,2);
%p n(v, w) reflexive\t1>P0(0,0);
%p n(v, w) symmetric\tP0(0,1)>P0(1,0);!P0(1,0)>!P0(0,1);
%p n(v, w) %i d(v) = E(a, b) n(v, a) & n(a, b)\tP0(0,1)&P0(1,2)>P1(0);!E1 E2 (P0(0,1)&P0(1,2))>!P1(0);\
!P1(0)&P0(1,2)>!P0(0,1);P0(0,1)&!P1(0)>!P0(1,2);
%p x(v) %i d(v) = E(v) x(v)\tE0 P0(0)>P1(0);!E0 P0(0)>!P1(0);
%p b() %r E(v) b() ==> 0\tE0 P0()>0;
%p x(v) %r E(v) x(v) ==> 0\tP0(0)>0;1>!P0(0);
%p x(v) %r E(v) E(v) x(v) ==> 0\tE0 E0 P0(0)>0;
%p x(v) %p y(v) %r x(v) ==> !y(v)\tP0(0)>!P1(0);P1(0)>!P0(0);
%p x(v) %p y(v) %r x(v) & y(w) ==> v == w\tP0(0)&P1(1)>0=1;!0=1&P1(1)>!P0(0);P0(0)&!0=1>!P1(1);
%p x(v) %p y(v) %r x(v) & y(w) ==> !(v == w)\tP0(0)&P1(1)>!0=1;0=1&P1(1)>!P0(0);P0(0)&0=1>!P1(1);
%p x(v) %r !x(v) ==> 0\t!P0(0)>0;1>P0(0);
%p x(v) %p y(v) %r x(v) & x(v) ==> y(v)\tP0(0)&P0(0)>P1(0);!P1(0)&P0(0)>!P0(0);P0(0)&!P1(0)>!P0(0);
%p x(v) %p y(v) %r x(v) | y(v) ==> 0\t(P0(0)|P1(0))>0;
%p x(v) %r x(v) & (1 & (x(v) & !!x(v))) ==> 0\tP0(0)&1&P0(0)&!!P0(0)>0;1&1&P0(0)&!!P0(0)>!P0(0);\
P0(0)&1&1&!!P0(0)>!P0(0);
%p x(v) %r x(v) & x(w) & v != w ==> 0\tP0(0)&P0(1)&!0=1>0;1&P0(1)&!0=1>!P0(0);P0(0)&1&!0=1>!P0(1);\
P0(0)&P0(1)&1>0=1;
%p x(v) %p b() %r x(v) ==> b() %r b() ==> 0\tP0(0)>P1();P1()>0;!P1()>!P0(0);1>!P1();";

/// Whether the declarations of a row have its closed rules.
fn is_met(alloc: Global, row: &str) -> Result<bool, Fail> {
    let (declarations, expected) = row.split_once('\t').ok_or("no row")?;
    let found = rules(alloc, &closed(alloc, declarations)?)?;
    Ok(found.as_str() == expected)
}

static LIST: &str = "%p x(v) unique box %p y(v) unique box %p n(v, w) function
%i t[n](v, w) = n*(v, w) transitive reflexive
%i r[n,x](v) = E(w) x(w) & t[n](w, v)
%i r[n,y](v) = E(w) y(w) & t[n](w, v)
%r t[n](v, w) ==> !n(w, v)
%r n(v, w) & t[n](v, u) & v != u ==> t[n](w, u)";

/// Its closed rules.
static LIST_RULES: &str =
    "P0(0)&P0(1)>0=1;P1(0)&P1(1)>0=1;P2(0,1)&P2(0,2)>1=2;P3(0,1)&P3(1,2)>P3(0,2);1>P3(0,0);\
(0=1|TC(0,1))>P3(0,1);!(0=1|TC(0,1))>!P3(0,1);P0(1)&P3(1,0)>P4(0);!E1 (P0(1)&P3(1,0))>!P4(0);\
P1(1)&P3(1,0)>P5(0);!E1 (P1(1)&P3(1,0))>!P5(0);P3(0,1)>!P2(1,0);P2(0,1)&P3(0,2)&!0=2>P3(1,2);\
!0=1&P0(1)>!P0(0);P0(0)&!0=1>!P0(1);!0=1&P1(1)>!P1(0);P1(0)&!0=1>!P1(1);\
!1=2&P2(0,2)>!P2(0,1);P2(0,1)&!1=2>!P2(0,2);!P3(0,2)&P3(1,2)>!P3(0,1);P3(0,1)&!P3(0,2)>!P3(1,2);\
!P4(0)&P3(1,0)>!P0(1);P0(1)&!P4(0)>!P3(1,0);!P5(0)&P3(1,0)>!P1(1);P1(1)&!P5(0)>!P3(1,0);P2(1,0)>!P3(0,1);\
!P3(1,2)&P3(0,2)&!0=2>!P2(0,1);P2(0,1)&!P3(1,2)&!0=2>!P3(0,2);P2(0,1)&P3(0,2)&!P3(1,2)>0=2;";

/// Whether the closed rules of the list are these.
fn the_list_is(alloc: Global, wanted: &str) -> Result<bool, Fail> {
    Ok(rules(alloc, &closed(alloc, LIST)?)?.as_str() == wanted)
}

#[test]
fn programs_are_closed(rt: HostRuntime) -> Result<(), Fail> {
    for row in ROWS.lines() {
        assert!(rt; is_met(rt.alloc(), row)?, "{row}");
    }
    assert!(rt; the_list_is(rt.alloc(), LIST_RULES)?);
    Ok(())
}

/// What watches a rule.
#[derive(Clone, Copy, Debug)]
enum Watch {
    Predicate(u32),
    Summaries,
}

/// Whether the rules that are watched so have these numbers.
fn are_watched(
    alloc: Global,
    declarations: &str,
    watch: Watch,
    wanted: &str,
) -> Result<bool, Fail> {
    let closed = closed(alloc, declarations)?;
    let found = match watch {
        Watch::Predicate(p) => numbers(alloc, closed.by_pred(PredId(p)))?,
        Watch::Summaries => numbers(alloc, closed.by_sm())?,
    };
    Ok(found.as_str() == wanted)
}

/// The first predicate stands in the body, the second one twice in the head with one variable.
const LOOPS: &str = "%p q(v) %p p(v, w) %r q(v) ==> p(v, v)";

/// Declarations, what watches, and the numbers of the rules.
const WATCHED: [(&str, Watch, &str); 6] = [
    (LOOPS, Watch::Predicate(0), "0 1 "),
    (LOOPS, Watch::Predicate(1), "0 1 "),
    (LIST, Watch::Predicate(2), "2 5 6 11 12 17 18 25 26 27 28 "),
    (LIST, Watch::Predicate(6), ""),
    (LOOPS, Watch::Summaries, "0 "),
    (
        LIST,
        Watch::Summaries,
        "0 1 2 4 5 6 12 13 14 15 16 17 18 26 27 28 ",
    ),
];

#[test]
fn rules_are_watched(rt: HostRuntime) -> Result<(), Fail> {
    for (declarations, watch, wanted) in WATCHED {
        let is = are_watched(rt.alloc(), declarations, watch, wanted)?;
        assert!(rt; is, "{watch:?} of {declarations}");
    }
    Ok(())
}

/// Whether these are the variables of the rule of that number.
fn are_variables(
    alloc: Global,
    declarations: &str,
    number: usize,
    wanted: &str,
) -> Result<bool, Fail> {
    let closed = closed(alloc, declarations)?;
    if number >= closed.count() {
        return Ok(false);
    }
    let found = closed.shape(number).variables.as_slice();
    Ok(variables(alloc, found)?.as_str() == wanted)
}

#[test]
fn further_rules_have_the_variables_of_their_base(rt: HostRuntime) -> Result<(), Fail> {
    let declarations = "%p n(v, w) %r n(u, w) & n(v, w) ==> n(v, v)";
    assert!(rt; are_variables(rt.alloc(), declarations, 1, "0 1 2 ")?);
    // what is said of a variable alone goes first
    let alone = "%p x(v) %p n(v, w) %p r(v) %r n(u, v) & x(v) ==> r(u)";
    assert!(rt; are_variables(rt.alloc(), alone, 0, "1 0 ")?);
    let denied = "%p x(v) %p n(v, w) %r n(u, v) & !n(v, v) ==> x(u)";
    assert!(rt; are_variables(rt.alloc(), denied, 0, "1 0 ")?);
    // and behind it what stands in a conjunct with one of those before
    let tied = "%p x(v) %p n(v, w) %r n(a, b) & n(c, d) & n(d, b) ==> x(a)";
    assert!(rt; are_variables(rt.alloc(), tied, 0, "0 1 3 2 ")?);
    Ok(())
}
