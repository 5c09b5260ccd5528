//! How formulas group, and at which token a text stops being one.
use super::rows::{Frame, View, readable, wrong};

const GROUPED: Frame = Frame {
    before: b"%p a() %p b() %p c() %p d() %p e() %p p(v) %p q(v) %p n(v, w) %p t[n](v) %p r[n,m]() %p _9(u, v) %r ",
    behind: b" ==> 0 %% %action a() {} %% L a() L",
    view: View::Rules,
};

// `P0` to `P4` are a to e, then p, q, n, t[n], r[n,m] and _9. Each connective has parentheses around it.
static GROUPS: &[u8] = b"0\t0==>0;
1\t1==>0;
a==b\t0=1==>0;
a!=b\t!0=1==>0;
_9(e,tc)\tP10(0,1)==>0;
t[n](v)\tP8(0)==>0;
r [ n , m ] ()\tP9()==>0;
n*(v,w)\t(0=1|TC(0,1)(2,3)P7(2,3))==>0;
n + (v,w)\tTC(0,1)(2,3)P7(2,3)==>0;
((0))\t0==>0;
!!!a()\t!!!P0()==>0;
a() & b() & c()\t((P0()&P1())&P2())==>0;
a() | b() | c()\t((P0()|P1())|P2())==>0;
a() <-> b() <-> c()\t((P0()~P1())~P2())==>0;
a() -> b() -> c()\t(!P0()|(!P1()|P2()))==>0;
a() & (b() & c())\t(P0()&(P1()&P2()))==>0;
a() | (b() | c())\t(P0()|(P1()|P2()))==>0;
a() <-> (b() <-> c())\t(P0()~(P1()~P2()))==>0;
(a() -> b()) -> c()\t(!(!P0()|P1())|P2())==>0;
a() ? b() : c()\t(P0()?P1():P2())==>0;
a() ? b() : c() ? d() : e()\t(P0()?P1():(P2()?P3():P4()))==>0;
a() ? b() ? c() : d() : e()\t(P0()?(P1()?P2():P3()):P4())==>0;
(a() ? b() : c()) ? d() : e()\t((P0()?P1():P2())?P3():P4())==>0;
a() | b() & c()\t(P0()|(P1()&P2()))==>0;
a() & b() | c()\t((P0()&P1())|P2())==>0;
a() -> b() | c()\t(!P0()|(P1()|P2()))==>0;
a() | b() -> c()\t(!(P0()|P1())|P2())==>0;
a() <-> b() -> c()\t(P0()~(!P1()|P2()))==>0;
a() -> b() <-> c()\t((!P0()|P1())~P2())==>0;
a() <-> b() ? c() : d()\t((P0()~P1())?P2():P3())==>0;
a() ? b() <-> c() : d() -> e()\t(P0()?(P1()~P2()):(!P3()|P4()))==>0;
!a() & b()\t(!P0()&P1())==>0;
!(a() & b())\t!(P0()&P1())==>0;
!a == b\t!0=1==>0;
E(v) a() & b()\tE0 (P0()&P1())==>0;
E(v) a() | b() -> c()\tE0 (!(P0()|P1())|P2())==>0;
E(v) a() <-> b()\tE0 (P0()~P1())==>0;
E(v) a() ? b() : c()\tE0 (P0()?P1():P2())==>0;
a() & E(v) b() | c()\t(P0()&E0 (P1()|P2()))==>0;
a() ? E(v) b() : c()\t(P0()?E0 P1():P2())==>0;
A(v, w) p(v) -> q(w)\tA0 A1 (!P5(0)|P6(1))==>0;
TC (u, x) (v, w) n(v, w) & p(v)\tTC(0,1)(2,3)(P7(2,3)&P5(2))==>0;
!E(v) p(v) & a()\t!E0 (P5(0)&P0())==>0;
(E(v) p(v)) & a()\t(E0 P5(0)&P0())==>0;
!TC (u, x) (v, w) n(v, w) | a()\t!TC(0,1)(2,3)(P7(2,3)|P0())==>0;";

const ENDLESS: Frame = Frame {
    before: b"%r ",
    behind: b"",
    view: View::Rules,
};

static FAULTS: &[u8] = b"\tSyntax(Place { line: 1, column: 4 })
a\tSyntax(Place { line: 1, column: 5 })
a =\tSyntax(Place { line: 1, column: 6 })
E\tSyntax(Place { line: 1, column: 5 })
E(v)\tSyntax(Place { line: 1, column: 8 })
E v\tSyntax(Place { line: 1, column: 6 })
A(v,)\tSyntax(Place { line: 1, column: 8 })
a(E)\tSyntax(Place { line: 1, column: 6 })
a(A)\tSyntax(Place { line: 1, column: 6 })
a(TC)\tSyntax(Place { line: 1, column: 6 })
a(in)\tSyntax(Place { line: 1, column: 6 })
a(foreach)\tSyntax(Place { line: 1, column: 6 })
foreach()\tSyntax(Place { line: 1, column: 4 })
in()\tSyntax(Place { line: 1, column: 4 })
TC()\tSyntax(Place { line: 1, column: 7 })
TC (a, b) n(a, b)\tSyntax(Place { line: 1, column: 14 })
TC (a, b) (c, d, e) 1\tSyntax(Place { line: 1, column: 19 })
a(v,)\tSyntax(Place { line: 1, column: 8 })
a(v w)\tSyntax(Place { line: 1, column: 8 })
a[]()\tSyntax(Place { line: 1, column: 6 })
a[x]\tSyntax(Place { line: 1, column: 8 })
a[n] == b\tSyntax(Place { line: 1, column: 9 })
2()\tSyntax(Place { line: 1, column: 4 })
a(1)\tSyntax(Place { line: 1, column: 6 })
a == 0\tSyntax(Place { line: 1, column: 9 })
a() &\tSyntax(Place { line: 1, column: 9 })
a() ? b()\tSyntax(Place { line: 1, column: 13 })
a() ? b() & c() d\tSyntax(Place { line: 1, column: 20 })
(a()\tSyntax(Place { line: 1, column: 8 })
(a() b())\tSyntax(Place { line: 1, column: 9 })
a() ? b() -> \"t\" : c()\tSyntax(Place { line: 1, column: 17 })
n*(a)\tSyntax(Place { line: 1, column: 8 })
n+(a,b,c)\tSyntax(Place { line: 1, column: 10 })
p()*(a, b)\tSyntax(Place { line: 1, column: 7 })
a == b == c\tSyntax(Place { line: 1, column: 11 })
!\tSyntax(Place { line: 1, column: 5 })
-> a()\tSyntax(Place { line: 1, column: 4 })
1/23 ==> 0\tBadByte
01 ==> 0\tSyntax(Place { line: 1, column: 4 })";

#[test]
fn formulas_by_example(rt: HostRuntime) {
    let found = wrong(rt.alloc(), GROUPED, GROUPS);
    assert!(rt; found.text().is_empty(), "{}", readable(&found));
    let found = wrong(rt.alloc(), ENDLESS, FAULTS);
    assert!(rt; found.text().is_empty(), "{}", readable(&found));
}
