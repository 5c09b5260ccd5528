//! Values of formulas in structures, worked out by hand and by a second program.
//!
//! A text has a structure in its first line, and in each other line a formula and its value there, or its
//! values with v and w at each pair of individuals.

use super::setting::program_with;
use super::values::{Way, values};
use std::alloc::Global;
use std::process::Abort;
use std::test::Fail;
use tv_test_reader::structure;

/// A list: the head, and a summary for the rest.
const LIST: &str = "%n = {h, u} %p = { x = {h} n = {h->u:1/2, u->u:1/2} sm = {u:1/2} }
v == w; yn/nh
!n(v, w); yh/yh
!(v == w); ny/yh
E(v, w) !(v == w) & n(v, w); h
A(v) E(w) n(v, w); h
E(v) x(v); y
A(v) x(v); n
n*(v, w); yh/nh
n+(v, w); nh/nh";

/// Values of all kinds.
const MIXED: &str =
    "%n = {a, c, d} %p = { b = 1/2 x = {a, c:1/2} n = {a->c, c->d:1/2, d->a} m = {a->c:1/2, c->c} sm = {d:1/2} }
x(v) & n(v, w); nyn/nnh/nnn
x(v) | m(v, w); yyy/hyh/nnn
A(v) b(); h
n+(v, w); hyh/hhh/yyh
A(v, w) n+(v, w) <-> n+(v, w); h
E(v, w) n+(v, w) & TC (w, v) (a, c) m(c, a); h";

/// Definite values, and no summary.
const PLAIN: &str = "%n = {a, c, d} %p = { x = {a, d} n = {a->c, c->d} m = {a->d} }
n(v, w) <-> m(v, w); ynn/yyn/yyy
x(v) ? n(v, w) : m(w, v); nyn/nnn/nnn
A(v) x(v) | E(w) n(v, w); y
E(v) !x(v) & A(w) !n(v, w); n
E(v, w) n+(v, w) & !m+(v, w); y
E(v, w) n+(v, w) & !TC (v, w) (a, c) n(c, a); y
E(d) TC (v, w) (a, c) n(a, c) & c == d; nyn/nny/nnn";

/// A chain of four, whose last edge is unknown.
const CHAIN: &str = "%n = {a, c, d, f} %p = { n = {a->c, c->d, d->f:1/2} }
n+(v, w); nyyh/nnyh/nnnh/nnnn
TC (v, w) (v, w) n(v, w); nyyh/nnyh/nnnh/nnnn
TC (v, w) (a, c) n+(a, c); nyyh/nnyh/nnnh/nnnn";

/// Two ways, of which one is unknown.
const TWO_WAYS: &str = "%n = {a, c, d, f} %p = { n = {a->c:1/2, c->f:1/2, a->d, d->f} }
n+(v, w); nhyy/nnnh/nnny/nnnn";

const ROUND: &str = "%n = {a, c, d} %p = { n = {a->c, c->d, d->a} }
TC (v, w) (a, c) n(a, c) & !n+(c, a); nnn/nnn/nnn";

/// A chain with a shortcut to its end, and `x` at the third.
const SHORTCUT: &str = "%n = {a, c, d, f} %p = { x = {d} n = {a->c, c->d, d->f, a->f:1/2} }
E(d) x(d) & TC (v, w) (a, c) n(a, c) & !(c == d); nynh/nnnn/nnny/nnnn";

const TWO: &str = "%n = {a, c} %p = { x = {a} }
x(v) & E(v) !x(v); yy/nn";

/// Connectives where a value is unknown.
const UNKNOWN: &str = "%n = {a} %p = { b = 1/2 }
b() <-> b(); h
1 <-> b(); h
b() <-> 0; h
b() ? 1 : 1; h
b() ? 1 : 0; h
1 ? 0 : b(); n
0 ? b() : 1; y
!b(); h
b() & 0; n
b() | 1; y";

/// Connectives.
const ONE: &str = "%n = {a} %p = {}
0 <-> 0; y
0 <-> 1; n";

/// Quantifiers over no individuals: some is false, all is true.
const NONE: &str = "%n = {} %p = {}
E(v) x(v); n
A(v) x(v); y";

/// Values of all kinds, two summaries, and formulas at random.
const MANY: &str =
    "%n = {a, c, d, f} %p = { b = 1/2 x = {a, c:1/2} n = {a->c, c->d:1/2, d->d, d->f:1/2} m = {a->a:1/2, c->a, f->d} \
      t[n] = {a->d, d->a:1/2} r[n,x] = {a:1/2, c, f} sm = {d:1/2, f:1/2} }
((!(x(v) & x(v)) -> !x(v)) -> !(x(v) -> x(v))); nnnn/hhhh/nnnn/nnnn
((((m(w, w) & x(v)) -> n(w, w)) -> !((w != v) <-> n(w, w))) -> ((v != w) <-> !m(w, w))); hyyy/hyyy/hyhy/hyyh
((A(t) !(t == t)) | (!(b() | m(v, w)) <-> !(v != v))); hhhh/nhhh/hhhh/hhhh
!(!!(w == v) | !n(w, w)); nnyn/nnyn/nnhn/nnyn
(n+(w, v) & ((m(v, v) ? b() : m(w, v)) <-> (n(v, v) & n(v, w)))); nnnn/ynnn/hhnn/hhhn
(((E(v) x(w)) | (E(w) b())) ? !!!x(w) : !(0 -> x(v))); nhhh/nhhh/nhhh/nhhh
!(m*(v, w) | (E(t) b())); nhhh/nnhh/hhhh/hhnh
(m*(w, v) | ((m(v, v) <-> x(w)) | (E(w) m(v, v)))); yyhh/nyyy/nhyy/nhyy
(E(w) (E(v) ((m(w, v) & x(w)) & (x(w) | b())))); h
!!((b() <-> m(w, v)) | (v != w)); hyyy/yhyy/yyhy/yyyh
((TC (v, w) (w, v) n(w, v)) | ((TC (w, w) (t, s) b()) -> ((A(v) (w != w)) | !(w != v)))); yyhh/hyhh/hhyh/hhhh
((A(t) (x(t) | x(v))) & (1 | (E(v) b()))); yyyy/hhhh/nnnn/nnnn
(((TC (v, w) (t, v) n(v, t)) | (E(w) x(v))) & ((x(v) ? n(w, w) : x(w)) | (v == v))); yyyy/yhhh/hhhn/hhhn
((m(w, v) -> (b() & x(v))) <-> ((m(w, w) | (v != w)) <-> n(v, v))); hhnn/nynn/yyhn/nnnh
!(TC (w, v) (s, t) (x(v) | !b())); nnnn/hhhh/hhhh/hhhh
!(m*(v, w) | (A(v) (b() | n(v, v)))); nhhh/nnhh/hhhh/hhnh
(E(w) (!m(w, w) ? !1 : ((n(w, v) & (w == w)) & 1))); nnnn/hhhh/nnnn/nnnn
(!!(v != v) <-> (A(w) (n(w, w) & 0))); yyyy/yyyy/hhhh/hhhh
!((A(t) (m(v, w) & x(t))) | (n(v, w) ? (E(w) (w != v)) : !x(v))); ynyy/hhhh/nnnh/nnnn
((!(n(v, w) | 0) ? ((b() & n(w, v)) & (E(v) m(w, v))) : !1) -> !!x(v)); yyyy/hyyy/yhyy/yyyy
(m+(w, v) ? (TC (v, w) (s, w) (b() | b())) : (x(v) & ((w == v) & (v == v)))); hhnn/nhnn/nnnh/nnnn
(!(A(w) m(v, w)) -> (!(m(v, w) & n(w, v)) & m+(v, w))); hnnn/nnnn/nnnn/nnhn
(!(A(t) (n(v, w) | b())) | (E(t) m+(w, t))); hyhy/hyhy/hyny/hyhy
(!(TC (v, w) (s, w) b()) & n*(w, v)); hnnn/hhnn/hhhn/hhhh
((!(x(w) ? x(v) : m(w, v)) & (E(w) x(w))) -> !(m(v, v) <-> m(w, w))); yhhh/hhnn/hnny/hnnn
((A(v) (b() -> x(w))) & (E(v) x(v))); yhhh/yhhh/yhhh/yhhh
(n+(v, w) & ((b() & m(w, w)) -> n(v, w))); nyhh/nnhh/nnyh/nnnn
((!!b() -> (m(v, v) <-> m(v, v))) & (A(t) !0)); hhhh/yyyy/yyyy/yyyy
(((A(w) (w == w)) | !(m(v, v) <-> b())) | !!n*(w, v)); yhhh/yyhh/hhyh/hhhh
((E(w) (x(v) & x(w))) | m+(w, w)); yyyy/hhhh/hnnn/hnnn";

const VALUES: [&str; 12] = [
    LIST, MIXED, PLAIN, CHAIN, TWO_WAYS, ROUND, SHORTCUT, TWO, UNKNOWN, ONE, NONE, MANY,
];

/// Whether the formula has these values in the structure, one by one and at once.
fn are_values(alloc: Global, text: &str, row: &str) -> Result<bool, Fail> {
    let Some((formula, wanted)) = row.split_once("; ") else {
        return Ok(false);
    };
    let program = program_with(alloc, formula)?;
    let s = structure(alloc, &program, text)?;
    let ones = values(alloc, &program, &s, Way::Ones)?;
    let rows = values(alloc, &program, &s, Way::Rows)?;
    Ok(ones.as_str() == wanted && rows.as_str() == wanted)
}

#[test]
fn formulas_have_their_values(rt: HostRuntime) -> Result<(), Fail> {
    for text in VALUES {
        let (structure, rows) = text.split_once('\n').ok_or("no rows")?;
        for row in rows.lines() {
            assert!(rt;
                are_values(rt.alloc(), structure, row)?,
                "of {row} in {structure}"
            );
        }
    }
    Ok(())
}

/// A formula, a structure that gets a new individual, and the value or values.
const NEW_ONES: [(&str, &str, &str); 2] = [
    ("isNew(v)", "%n = {a} %p = {}", "nn/yy"),
    ("E(v) isNew(v)", "%n = {} %p = {}", "y"),
];

fn values_with_new(alloc: Global, formula: &str, text: &str, way: Way) -> Result<String, Fail> {
    let program = program_with(alloc, formula)?;
    let s = structure(alloc, &program, text)?;
    if s.size() > 255 {
        return Err(Fail::new("too large"));
    }
    values(alloc, &program, &s.with_new(alloc)?, way)
}

/// Whether these are the values where the structure gets a new individual, one by one and at once.
fn are_new_values(alloc: Global, formula: &str, text: &str, wanted: &str) -> Result<bool, Fail> {
    let ones = values_with_new(alloc, formula, text, Way::Ones)?;
    let rows = values_with_new(alloc, formula, text, Way::Rows)?;
    Ok(ones.as_str() == wanted && rows.as_str() == wanted)
}

#[test]
fn new_individuals_are_new(rt: HostRuntime) -> Result<(), Fail> {
    for (formula, text, wanted) in NEW_ONES {
        let is = are_new_values(rt.alloc(), formula, text, wanted)?;
        assert!(rt; is, "of {formula} in {text}");
    }
    let is = are_values(
        rt.alloc(),
        "%n = {a, c} %p = { x = {a} }",
        "E(v) isNew(v); n",
    )?;
    assert!(rt; is);
    Ok(())
}
