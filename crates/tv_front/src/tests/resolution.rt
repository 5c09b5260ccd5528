//! What resolution gives, and what it refuses.
use super::rows::{Frame, View, readable, wrong};

const GRAPH: &[u8] = b" %% %action a() {} %% L a() L";

const DECLARATIONS: Frame = Frame {
    before: b"",
    behind: GRAPH,
    view: View::Preds,
};

// A predicate is shown as its name, its arity, a letter for each property, `-` where it is `nonabs`, and its
// definition.
static PREDICATES: &[u8] = b"%p b()\tb/0;
%p x(v) unique\tx/1U;
%p n(v, w) function\tn/2F;
%p n(v, w) invfunction\tn/2I;
%p n(v, w) transitive\tn/2T;
%p n(v, w) reflexive\tn/2R;
%p n(v, w) symmetric\tn/2S;
%p n(v, w) symmetric reflexive transitive invfunction function\tn/2FITRS;
%p x(v) nonabs\tx/1-;
%p x(v) abs\tx/1;
%p x(v) abs nonabs\tx/1-;
%p x(v) nonabs abs\tx/1;
%p x(v) nonabs unique nonabs abs\tx/1U;
%p b() nonabs %p n(v, w) nonabs\tb/0;n/2;
%p b() abs %p n(v, w) abs\tb/0;n/2;
%p b() box pointer %p x(v) box pointer %p n(v, w) box pointer\tb/0;x/1;n/2;
%p sm[x](v) %p isNew[x](v)\tsm[x]/1;isNew[x]/1;
%p unique(v) unique %p Ex() %p A1() %p _() %p s() %p p()\tunique/1U;Ex/0;A1/0;_/0;s/0;p/0;
%p E()\tSyntax(Place { line: 1, column: 4 })
%p A(v)\tSyntax(Place { line: 1, column: 4 })
%p TC(v, w)\tSyntax(Place { line: 1, column: 4 })
%p in()\tSyntax(Place { line: 1, column: 4 })
%p r[ n , z ](v)\tr[n,z]/1;
%p sm(v)\tReserved
%p sm()\tReserved
%p isNew(v)\tReserved
%i sm(v) = 1\tReserved
%i isNew() = 1\tReserved
%p x(v) %p x(v)\tNameTwice
%p x(v) %p x()\tNameTwice
%p x(v) %i x(v) = 1\tNameTwice
%p r[n,z](v) %p r[ n , z ]()\tNameTwice
%p f(u, v, w)\tArityTooLarge
%i f(u, v, w) = 1\tArityTooLarge
%p n(v, v)\tNameTwice
%i n(v, v) = 1\tNameTwice
%p b() unique\tArityWrong
%p n(v, w) unique\tArityWrong
%p b() function\tArityWrong
%p x(v) function\tArityWrong
%p b() invfunction\tArityWrong
%p x(v) invfunction\tArityWrong
%p b() transitive\tArityWrong
%p x(v) transitive\tArityWrong
%p b() reflexive\tArityWrong
%p x(v) reflexive\tArityWrong
%p b() symmetric\tArityWrong
%p x(v) symmetric\tArityWrong
%i d(v, w) = 1 unique\tArityWrong
%i d(v) = 1 reflexive\tArityWrong";

// The first of two refusals counts.
static PREDICATE_PAIRS: &[u8] = b"%p sm(u, v, w)\tReserved
%p sm(v, v)\tReserved
%p sm(v) function\tReserved
%p isNew(v, v, v) unique\tReserved
%p x(v) %p x(u, v, w)\tNameTwice
%p b() %p b(v) function\tNameTwice
%p f(v, v, v)\tArityTooLarge
%p f(u, v, w) unique\tArityTooLarge
%p n(v, v) unique\tNameTwice
%p x(v) function %p sm(v)\tArityWrong
%p sm(v) %p x(v) function\tReserved
%p f(u, v, w) %p n(v, v)\tArityTooLarge
%p n(v, v) %p f(u, v, w)\tNameTwice
%i d() = y() %p sm(v)\tReserved
%i d() = 1/2 %p x(v) function\tArityWrong
%i d() = d() %p f(u, v, w)\tArityTooLarge
%r 1/2 ==> 0 %p x(v) function\tArityWrong
%r y() ==> 0 %i d() = 1/2\tHalfLiteral
%r 1 ==> 1 %i d() = d()\tDefinitionCycle
%i d() = 1/2 %i e() = y()\tHalfLiteral
%i d() = y() %i e() = 1/2\tNameUnknown
%i d() = d() %i e() = 1/2\tHalfLiteral
%i d() = d() %i e() = y()\tNameUnknown
%i d() = d() %r 1/2 ==> 0\tDefinitionCycle";

static DEFINITIONS: &[u8] = b"%i d() = 1\td/0()=1;
%p x(v) %i d(v) = x(v) nonabs unique\tx/1;d/1U-(0)=P0(0);
%i d(v, w) = v == w reflexive\td/2R(0,1)=0=1;
%i d(v) = x(v) %p x(v)\td/1(0)=P1(0);x/1;
%i d(v) = E(w) w == v\td/1(0)=E1 1=0;
%i d(v) = E(v) v == v\td/1(0)=E0 0=0;
%p n(v, w) %i t(v, w) = n*(v, w) transitive reflexive\tn/2;t/2TR(0,1)=(0=1|TC(0,1)(2,3)P0(2,3));
%p n(v, w) %i t(v, w) = n+(w, v)\tn/2;t/2(0,1)=TC(1,0)(2,3)P0(2,3);
%p n(v, w) %i c(v) = n+(v, v)\tn/2;c/1(0)=TC(0,0)(1,2)P0(1,2);
%i d() = e() & f() %i e() = f() %i f() = 1\td/0()=(P1()&P2());e/0()=P2();f/0()=1;
%i d(v) = y(v)\tNameUnknown
%i d(v) = sm(v)\tReserved
%i d(v) = isNew(v)\tNameUnknown
%i d(v) = d(v, v)\tArityWrong
%i d(v) = v == w\tVariableUnbound
%i d(v) = w == v\tVariableUnbound
%i d() = (E(v) v == v) & v == v\tVariableUnbound
%i d(v) = TC (v, w) (a, b) a == b\tVariableUnbound
%i d(v) = TC (v, v) (a, b) a == c\tVariableUnbound
%p n(v, w) %i d(v) = n+(v, w)\tVariableUnbound
%p n(v, w) %i d(v) = n*(w, v)\tVariableUnbound
%i d() = E(v, v) 1\tNameTwice
%i d() = 1/2\tHalfLiteral
%i d() = (1/2)\tHalfLiteral
%i d() = d()\tDefinitionCycle
%i d() = 1 | !d()\tDefinitionCycle
%i d() = e() %i e() = f() %i f() = d()\tDefinitionCycle
%i d() = e() %i e() = e()\tDefinitionCycle
%i d(v, w) = d+(v, w)\tDefinitionCycle
%i d(v, w) = d*(v, w)\tDefinitionCycle
%i d(v, w) = TC (v, w) (a, b) (a == b | d(a, b))\tDefinitionCycle
%i d(v, w) = e+(v, w) %i e(v, w) = d(w, v)\tDefinitionCycle
%i d(v) = E(w) A(u) (u == w ? 1 : d(u))\tDefinitionCycle";

#[test]
fn predicates_and_their_definitions(rt: HostRuntime) {
    let found = wrong(rt.alloc(), DECLARATIONS, PREDICATES);
    assert!(rt; found.text().is_empty(), "{}", readable(&found));
    let found = wrong(rt.alloc(), DECLARATIONS, PREDICATE_PAIRS);
    assert!(rt; found.text().is_empty(), "{}", readable(&found));
    let found = wrong(rt.alloc(), DECLARATIONS, DEFINITIONS);
    assert!(rt; found.text().is_empty(), "{}", readable(&found));
}

const RULES: Frame = Frame {
    before: b"%p x(v) %p y(v) %p n(v, w) %p b() %r ",
    behind: GRAPH,
    view: View::Rules,
};

// A variable is shown as its number, and `P0` to `P3` are x, y, n and b.
static NUMBERS: &[u8] = b"x(v) ==> 0\tP0(0)==>0;
x(w) & y(v) & x(w) ==> 0\t((P0(0)&P1(1))&P0(0))==>0;
x(v) ==> y(w)\tP0(0)==>P1(1);
n(v, v) ==> v == w\tP2(0,0)==>0=1;
x(v) & (E(v) y(v)) ==> 0\t(P0(0)&E0 P1(0))==>0;
(E(v) x(v)) & y(v) ==> 0\t(E0 P0(0)&P1(0))==>0;
E(v, w) n(v, w) ==> 0\tE0 E1 P2(0,1)==>0;
A(w, v) n(v, w) ==> 0\tA0 A1 P2(1,0)==>0;
A(v) E(v) x(v) ==> 0\tA0 E0 P0(0)==>0;
TC (a, b) (l, r) n(l, r) ==> 0\tTC(0,1)(2,3)P2(2,3)==>0;
TC (a, b) (b, a) n(a, b) ==> 0\tTC(0,1)(1,0)P2(0,1)==>0;
TC (v, v) (l, r) (n(l, r) & x(v)) ==> 0\tTC(0,0)(1,2)(P2(1,2)&P0(0))==>0;
n*(v, w) ==> 0\t(0=1|TC(0,1)(2,3)P2(2,3))==>0;
n+(v, v) ==> 0\tTC(0,0)(1,2)P2(1,2)==>0;
x(u) & n+(v, w) & y(z) ==> 0\t((P0(0)&TC(1,2)(3,4)P2(3,4))&P1(5))==>0;
n+(v, w) & n*(w, u) ==> n(u, z)\t(TC(0,1)(2,3)P2(2,3)&(1=4|TC(1,4)(2,3)P2(2,3)))==>P2(4,5);
E(v) n+(v, v) ==> n(v, w)\tE0 TC(0,0)(1,2)P2(1,2)==>P2(0,3);
b() -> b() ==> 0\t(!P3()|P3())==>0;
b() <-> 1 ==> 0\t(P3()~1)==>0;
b() ? 0 : 1 ==> 0\t(P3()?0:1)==>0;
v != w ==> 0\t!0=1==>0;
((x(v))) ==> 0\tP0(0)==>0;
!!b() ==> 0\t!!P3()==>0;
x(v) ==> 0 %r y(w) & x(v) ==> 0\tP0(0)==>0;(P1(0)&P0(1))==>0;";

static HEADS: &[u8] = b"1 ==> 0\t1==>0;
1 ==> (((0)))\t1==>0;
1 ==> x(v)\t1==>P0(0);
1 ==> !x(v)\t1==>!P0(0);
1 ==> n(w, v)\t1==>P2(0,1);
1 ==> b()\t1==>P3();
1 ==> (x(v))\t1==>P0(0);
1 ==> (!(x(v)))\t1==>!P0(0);
1 ==> !((x(v)))\t1==>!P0(0);
1 ==> v == w\t1==>0=1;
1 ==> v != w\t1==>!0=1;
1 ==> !v == w\t1==>!0=1;
1 ==> !(v == w)\t1==>!0=1;
1 ==> ((v != w))\t1==>!0=1;
1 ==> 1\tHeadForm
1 ==> !0\tHeadForm
1 ==> !1\tHeadForm
1 ==> !!x(v)\tHeadForm
1 ==> !(!x(v))\tHeadForm
1 ==> !(v != w)\tHeadForm
1 ==> x(v) & y(v)\tHeadForm
1 ==> x(v) | y(v)\tHeadForm
1 ==> x(v) -> y(v)\tHeadForm
1 ==> b() <-> b()\tHeadForm
1 ==> b() ? b() : b()\tHeadForm
1 ==> E(v) x(v)\tHeadForm
1 ==> A(v) x(v)\tHeadForm
1 ==> (E(v) x(v))\tHeadForm
1 ==> TC (v, w) (a, b) n(a, b)\tHeadForm
1 ==> n*(v, w)\tHeadForm
1 ==> n+(v, w)\tHeadForm
1 ==> !n*(v, w)\tHeadForm
1 ==> !n+(v, w)\tHeadForm
1 ==> !(x(v) & y(v))\tHeadForm
1 ==> isNew(v)\tNameUnknown
1 ==> sm(v)\tReserved
1 ==> 1/2\tHalfLiteral
1 ==> !1/2\tHalfLiteral";

// The first refusal in reading order counts.
static RULE_REFUSALS: &[u8] = b"z(v) ==> 0\tNameUnknown
z+(v, w) ==> 0\tNameUnknown
sm(v) ==> 0\tReserved
sm(v, w) ==> 0\tReserved
sm*(v, w) ==> 0\tReserved
isNew(v) ==> 0\tNameUnknown
isNew*(v, w) ==> 0\tNameUnknown
isNew(v, w) ==> 0\tNameUnknown
x() ==> 0\tArityWrong
x(v, w) ==> 0\tArityWrong
n(v) ==> 0\tArityWrong
n(u, v, w) ==> 0\tArityWrong
b(v) ==> 0\tArityWrong
x*(v, w) ==> 0\tArityWrong
x+(v, w) ==> 0\tArityWrong
b+(v, w) ==> 0\tArityWrong
E(v, v) x(v) ==> 0\tNameTwice
A(v, w, v) 1 ==> 0\tNameTwice
TC (v, w) (a, a) n(a, a) ==> 0\tNameTwice
1/2 ==> 0\tHalfLiteral
x(v) & 1/2 ==> 0\tHalfLiteral
1/2 | 1 ==> 0\tHalfLiteral
!1/2 ==> 0\tHalfLiteral
(1/2) ==> 0\tHalfLiteral
E(v) 1/2 ==> 0\tHalfLiteral
A(v) 1/2 ==> 0\tHalfLiteral
TC (v, w) (a, b) 1/2 ==> 0\tHalfLiteral
1/2 -> 1 ==> 0\tHalfLiteral
1 <-> 1/2 ==> 0\tHalfLiteral
1/2 ? 0 : 1 ==> 0\tHalfLiteral
1 ? 1/2 : 0 ==> 0\tHalfLiteral
1 ? 0 : 1/2 ==> 0\tHalfLiteral
x() & sm(v) ==> 0\tArityWrong
sm(v) & x() ==> 0\tReserved
1/2 & z(v) ==> 0\tHalfLiteral
z(v) & 1/2 ==> 0\tNameUnknown
1/2 | x() ==> 0\tHalfLiteral
x() -> 1/2 ==> 0\tArityWrong
z() <-> sm() ==> 0\tNameUnknown
sm() <-> z() ==> 0\tReserved
1 ? z(v) : 1/2 ==> 0\tNameUnknown
1/2 ? z(v) : 1 ==> 0\tHalfLiteral
E(v, v) z(v) ==> 0\tNameTwice
z(v) & (E(v, v) 1) ==> 0\tNameUnknown
A(v, v) 1/2 ==> 0\tNameTwice
TC (v, w) (a, a) sm(a) ==> 0\tNameTwice
x() ==> sm(v)\tArityWrong
sm(v) ==> x()\tReserved
1/2 ==> 1\tHalfLiteral
1 ==> x() & b()\tArityWrong
1 ==> !!z()\tNameUnknown
1 ==> 1 %r 1/2 ==> 0\tHeadForm
1/2 ==> 0 %r 1 ==> 1\tHalfLiteral
x() ==> 0 %r sm() ==> 0\tArityWrong
sm() ==> 0 %r x() ==> 0\tReserved";

#[test]
fn rules_and_their_heads(rt: HostRuntime) {
    let found = wrong(rt.alloc(), RULES, NUMBERS);
    assert!(rt; found.text().is_empty(), "{}", readable(&found));
    let found = wrong(rt.alloc(), RULES, HEADS);
    assert!(rt; found.text().is_empty(), "{}", readable(&found));
    let found = wrong(rt.alloc(), RULES, RULE_REFUSALS);
    assert!(rt; found.text().is_empty(), "{}", readable(&found));
}

const ACTION: Frame = Frame {
    before: b"%p x(v) %p y(v) %p n(v, w) %p b() %i d(v) = x(v) %% %action a() { ",
    behind: b" } %% L a() L",
    view: View::Actions,
};

// `P4` is d. `pick0` says that the step picks an individual for variable 0, `=*` that an update is free.
static PARTS: &[u8] = b"\t{}
%t \"c\" + a\t{}
%new\t{new;}
%f {}\t{}
%f { x(v), y(w), n(v, u) }\t{focus P0(0);focus P1(1);focus P2(0,2);}
%f { x(v) } %p y(w)\t{focus P0(0);pre P1(0);pick0 }
%p 1\t{pre 1;}
%p x(v)\t{pre P0(0);pick0 }
%p E(v) x(v)\t{pre E0 P0(0);}
%p n(v, w) & x(v)\t{pre (P2(0,1)&P0(0));pick0 pick1 }
%p (E(v) x(v)) & n(w, v)\t{pre (E0 P0(0)&P2(1,0));pick1 pick0 }
%p n+(v, w)\t{pre TC(0,1)(2,3)P2(2,3);pick0 pick1 }
%message E(v) x(v) -> \"t\"\t{say E0 P0(0) t;}
%message b() -> \"t\" + z + \"u\"\t{say P3() tzu;}
%message b() -> \"one\" %p 1 %message !b() -> \"two\"\t{pre 1;say P3() one;say !P3() two;}
%retain x(v)\t{keep(0)P0(0);}
%retain 1\t{keep(0)1;}
%retain b()\t{keep(0)P3();}
%retain E(w) x(w)\t{keep(1)E0 P0(0);}
%retain (E(w) x(w)) & y(v)\t{keep(1)(E0 P0(0)&P1(1));}
%retain (E(v) x(v)) & y(v)\t{keep(0)(E0 P0(0)&P1(0));}
%retain n+(v, v)\t{keep(0)TC(0,0)(1,2)P2(1,2);}
%retain E(v, w) n+(v, w)\t{keep(4)E0 E1 TC(0,1)(2,3)P2(2,3);}
%retain n(v, v) & v == v\t{keep(0)(P2(0,0)&0=0);}
%new %retain !isNew(v)\t{new;keep(0)!new(0);}
%new %retain E(w) isNew(w) & n(w, v)\t{new;keep(1)E0 (new(0)&P2(0,1));}
%p x(v) %retain n(v, w)\t{pre P0(0);pick0 keep(1)P2(0,1);}
%p x(v) %retain y(v)\t{pre P0(0);pick0 keep(1)P1(0);}
%p x(v) %retain 1\t{pre P0(0);pick0 keep(1)1;}
%p n(u, v) & y(v) %retain x(w)\t{pre (P2(0,1)&P1(1));pick0 pick1 keep(2)P0(2);}
%p (E(u) x(u)) & y(v) %retain n(v, w)\t{pre (E0 P0(0)&P1(1));pick1 keep(0)P2(1,0);}
%p (E(u) x(u)) & y(v) %retain y(v)\t{pre (E0 P0(0)&P1(1));pick1 keep(0)P1(1);}
%p (E(u) x(u)) & y(v) %retain n+(v, w)\t{pre (E0 P0(0)&P1(1));pick1 keep(0)TC(1,0)(2,3)P2(2,3);}
%p (E(u) x(u)) & y(v) %retain n+(v, v)\t{pre (E0 P0(0)&P1(1));pick1 keep(3)TC(1,1)(0,2)P2(0,2);}
%p x(v) %retain E(v) n(v, w)\t{pre P0(0);pick0 keep(1)E0 P2(0,1);}
{ x(v) = y(v) }\t{P0(0)=P1(0);}
{ n(v, w) = n(w, v) }\t{P2(0,1)=P2(1,0);}
{ b() = E(v) x(v) }\t{P3()=E0 P0(0);}
{ x(v) = 1/2 }\t{P0(0)=*;}
{ n(v, w) = 1/2 b() = 1/2 }\t{P2(0,1)=*;P3()=*;}
{ d(v) = x(v) }\t{P4(0)=P0(0);}
{ x(v) = E(w) n(v, w) y(w) = x(w) }\t{P0(0)=E1 P2(0,1);P1(0)=P0(0);}
{ x(v) = E(v) y(v) }\t{P0(0)=E0 P1(0);}
%new { x(v) = isNew(v) }\t{new;P0(0)=new(0);}
{ b() = E(v) isNew(v) } %new\t{new;P3()=E0 new(0);}
%p x(v) { y(w) = w == v }\t{pre P0(0);pick0 P1(1)=1=0;}
%p x(v) { y(v) = x(v) }\t{pre P0(0);pick0 P1(1)=P0(1);}
%p x(v) { y(v) = 1/2 }\t{pre P0(0);pick0 P1(1)=*;}
%p n(v, w) { n(w, v) = n(v, w) }\t{pre P2(0,1);pick0 pick1 P2(2,3)=P2(3,2);}
%p x(v) { y(v) = E(v) x(v) }\t{pre P0(0);pick0 P1(1)=E1 P0(1);}
%p x(v) { y(w) = E(v) n(v, w) }\t{pre P0(0);pick0 P1(1)=E0 P2(0,1);}
%p x(v) { b() = x(v) }\t{pre P0(0);pick0 P3()=P0(0);}
%p (E(u) x(u)) & y(v) { n(a, c) = n+(a, v) }\t{pre (E0 P0(0)&P1(1));pick1 P2(0,2)=TC(0,1)(3,4)P2(3,4);}
%p (E(u) x(u)) & y(v) { x(u) = n(u, v) }\t{pre (E0 P0(0)&P1(1));pick1 P0(0)=P2(0,1);}
{ x(v) = 1 } %retain 1 %message b() -> \"t\" %p 1 %f { 0 }\t{focus 0;pre 1;say P3() t;keep(0)1;P0(0)=1;}";

static PART_REFUSALS: &[u8] = b"%f { sm(v) }\tReserved
%f { z(v) }\tNameUnknown
%f { isNew(v) } %new\tNameUnknown
%f { x() }\tArityWrong
%f { 1/2 }\tHalfLiteral
%f { x(v), 1/2 }\tHalfLiteral
%f { 1/2, x() }\tHalfLiteral
%f { x(), 1/2 }\tArityWrong
%f { E(v, v) 1 }\tNameTwice
%p sm(v)\tReserved
%p z(v)\tNameUnknown
%p isNew(v) %new\tNameUnknown
%p n+(v, w) & x(v, w)\tArityWrong
%p 1/2\tHalfLiteral
%p A(v, v) 1\tNameTwice
%message x(v) -> \"t\"\tVariableUnbound
%p x(v) %message x(v) -> \"t\"\tVariableUnbound
%message (E(v) x(v)) & v == v -> \"t\"\tVariableUnbound
%message sm() -> \"t\"\tReserved
%message E(v) isNew(v) -> \"t\" %new\tNameUnknown
%message b(v) -> \"t\"\tArityWrong
%message 1/2 -> \"t\"\tHalfLiteral
%message E(v, v) 1 -> \"t\"\tNameTwice
%message x(v) -> \"t\" %message 1/2 -> \"u\"\tVariableUnbound
%message 1/2 -> \"t\" %message x(v) -> \"u\"\tHalfLiteral
%retain n(v, w)\tVariableUnbound
%retain x(v) & y(w)\tVariableUnbound
%retain x(v) & (E(w) n(v, w)) & y(w)\tVariableUnbound
%p x(v) %retain n(u, w)\tVariableUnbound
%retain TC (v, w) (a, c) n(a, c)\tVariableUnbound
%retain n*(v, w)\tVariableUnbound
%retain sm(v)\tReserved
%new %retain sm(v)\tReserved
%retain isNew(v)\tNameUnknown
%retain isNew+(v, v)\tNameUnknown
%new %retain isNew()\tArityWrong
%new %retain isNew(v, w)\tArityWrong
%new %retain isNew*(v, v)\tArityWrong
%new %retain isNew+(v, v)\tArityWrong
%new %retain isNew(v) & isNew(w)\tVariableUnbound
%retain 1/2\tHalfLiteral
%retain E(v, v) 1\tNameTwice
{ sm(v) = 1 }\tReserved
{ isNew(v) = 1 }\tReserved
%new { isNew(v) = 1 }\tReserved
{ z(v) = 1 }\tNameUnknown
{ x() = 1 }\tArityWrong
{ x(v, w) = 1 }\tArityWrong
{ b(v) = 1 }\tArityWrong
{ n(u, v, w) = 1 }\tArityWrong
{ n(v, v) = 1 }\tNameTwice
{ x(v) = 1 x(v) = 0 }\tUpdateTwice
{ x(v) = 1 y(v) = 1 x(w) = 1/2 }\tUpdateTwice
{ x(v) = y(w) }\tVariableUnbound
%p x(v) { y(w) = n(u, v) }\tVariableUnbound
%p E(v) x(v) { y(w) = x(v) }\tVariableUnbound
{ x(v) = 1/2 & 1 }\tHalfLiteral
{ x(v) = !1/2 }\tHalfLiteral
{ x(v) = (1/2) }\tHalfLiteral
{ d(v) = 1/2 }\tHalfLiteral
{ x(v) = sm(v) }\tReserved
{ x(v) = isNew(v) }\tNameUnknown
{ x(v) = isNew*(v, v) }\tNameUnknown
%new { x(v) = isNew(v, v) }\tArityWrong
%new { x(v) = isNew+(v, v) }\tArityWrong
{ x(v) = E(w, w) 1 }\tNameTwice";

// The first of two refusals in the order of the parts counts, whatever their order in the text.
static PART_PAIRS: &[u8] = b"%p sm(v) %f { x() }\tArityWrong
%message x(v) -> \"t\" %f { x() }\tArityWrong
%retain 1/2 %f { x() }\tArityWrong
{ x(v) = 1 x(v) = 1 } %f { x() }\tArityWrong
%message x(v) -> \"t\" %p sm(v)\tReserved
%retain 1/2 %p sm(v)\tReserved
{ x(v) = 1 x(v) = 1 } %p sm(v)\tReserved
%retain 1/2 %message x(v) -> \"t\"\tVariableUnbound
{ x(v) = 1 x(v) = 1 } %message x(v) -> \"t\"\tVariableUnbound
{ x(v) = 1 x(v) = 1 } %retain 1/2\tHalfLiteral
%f { 1/2 } { sm(v) = 1 }\tHalfLiteral
{ sm(v, v) = z() }\tReserved
{ isNew() = z() }\tReserved
{ z(v, v) = sm() }\tNameUnknown
{ x(v, v) = z() }\tArityWrong
{ n(v, v) = z() }\tNameTwice
{ x(v) = 1 x(v, w) = 1 }\tArityWrong
{ n(v, w) = 1 n(v, v) = 1 }\tNameTwice
{ x(v) = 1 x(v) = z() }\tUpdateTwice
{ x(v) = 1/2 & 1 sm(v) = 1 }\tHalfLiteral
{ sm(v) = 1 x(v) = 1/2 & 1 }\tReserved
{ x(v) = y(w) x(v) = 1 }\tVariableUnbound
{ x(v) = z(w) }\tNameUnknown
{ x(v) = x(v, w) }\tArityWrong
{ x(v) = n(w, v) & 1/2 }\tVariableUnbound
{ x(v) = 1/2 & n(w, v) }\tHalfLiteral
%new { x(v) = isNew(w, v) }\tArityWrong
%retain x(v) & y(w) & 1/2\tVariableUnbound
%retain x(v) & 1/2 & y(w)\tHalfLiteral";

#[test]
fn actions_and_their_parts(rt: HostRuntime) {
    let found = wrong(rt.alloc(), ACTION, PARTS);
    assert!(rt; found.text().is_empty(), "{}", readable(&found));
    let found = wrong(rt.alloc(), ACTION, PART_REFUSALS);
    assert!(rt; found.text().is_empty(), "{}", readable(&found));
    let found = wrong(rt.alloc(), ACTION, PART_PAIRS);
    assert!(rt; found.text().is_empty(), "{}", readable(&found));
}

const EDGES: Frame = Frame {
    before: b"%% %action a() {} %action c() {} %% ",
    behind: b"",
    view: View::Graph,
};

// The nodes by number, and the edges by numbers of node, action and node.
static GRAPHS: &[u8] = b"L a() L\tL;0>0>0;
L a() M M c() L\tL;M;0>0>1;1>1>0;
M c() L L a() M\tM;L;0>0>1;1>1>0;
L a() M L a() N N a() L\tL;M;N;0>0>1;0>0>2;2>0>0;
L a() M L a() M\tL;M;0>0>1;0>0>1;
7 a() 7 E a() 007\t7;E;007;0>0>0;1>0>2;
L a() M %% L, X, 7\tL;M;0>0>1;
L a() M %%\tL;M;0>0>1;
\tNoEdge
%%\tNoEdge
L e() M\tNameUnknown
L a(x) M\tArgumentCount";

const WHOLE: Frame = Frame {
    before: b"",
    behind: b"",
    view: View::Graph,
};

// The first stage that refuses a text, and in resolution its first phase, decide.
static STAGES: &[u8] = b"%p x(~\tBadByte
%s S T %% %% \"\x01\tBadByte
%p x( \"abc\tUnended
%p sm(v) %% %% /* \tUnended
%p x( %% %%\tSyntax(Place { line: 1, column: 7 })
%p sm(v) %% x\tSyntax(Place { line: 1, column: 13 })
%s S T %p\tSyntax(Place { line: 1, column: 10 })
%p sm(v) %s S T %% %%\tNameUnknown
%p x(v) function %% %action f() {} %% L f(x) L\tArgumentCount
%p sm(v) %% %action f() {} %action f() {} %%\tNameTwice
%p sm(v) %% %%\tReserved
%i d() = 1/2 %% %%\tHalfLiteral
%i d() = d() %% %%\tDefinitionCycle
%r 1 ==> 1 %% %%\tHeadForm
%% %action a() { %p sm(v) } %%\tNoEdge
%r 1 ==> 1 %% %action a() { %p sm(v) } %% L a() L\tHeadForm
%i d() = d() %% %action a() { %p sm(v) } %% L a() L\tDefinitionCycle
%% %action a() { %p sm(v) } %action c() { %p 1/2 } %% L c() L L a() L\tHalfLiteral
%% %action a() { %p sm(v) } %action c() { %p 1/2 } %% L a() L L c() L\tReserved
%% %action a() { %p sm(v) } %action c() {} %% L c() L\tL;0>0>0;
\tSyntax(Place { line: 1, column: 1 })";

#[test]
fn graphs_and_the_order_of_stages(rt: HostRuntime) {
    let found = wrong(rt.alloc(), EDGES, GRAPHS);
    assert!(rt; found.text().is_empty(), "{}", readable(&found));
    let found = wrong(rt.alloc(), WHOLE, STAGES);
    assert!(rt; found.text().is_empty(), "{}", readable(&found));
}
