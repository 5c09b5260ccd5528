//! Texts at the limits and past them.
use super::rows::{View, readable, shown};
use super::show::{Shown, put, put_number};
use std::alloc::Global;

fn put_series(out: &mut Shown, count: u32, part: &str, end: &str) {
    for number in 0..count {
        put(out, part.as_bytes());
        put_number(out, number);
        put(out, end.as_bytes());
    }
}

#[derive(Clone, Copy)]
/// A text in which a part stands many times, with its number and an end behind it each time.
struct Series<'a> {
    front: &'a str,
    count: u32,
    part: &'a str,
    end: &'a str,
    behind: &'a str,
    expected: &'a str,
}

fn series_of(row: &str) -> Option<Series<'_>> {
    let mut cells = row.split('\t');
    Some(Series {
        count: cells.next()?.parse::<u32>().ok()?,
        front: cells.next()?,
        part: cells.next()?,
        end: cells.next()?,
        behind: cells.next()?,
        expected: cells.next()?,
    })
}

fn text_of(alloc: Global, wanted: &Series) -> Shown {
    let mut out = Shown::new(alloc);
    put(&mut out, wanted.front.as_bytes());
    put_series(&mut out, wanted.count, wanted.part, wanted.end);
    put(&mut out, wanted.behind.as_bytes());
    out
}

/// Whether what comes of the text is what stands at the end of the row.
fn holds(alloc: Global, wanted: &Series) -> bool {
    let text = text_of(alloc, wanted);
    let found = shown(alloc, View::Sizes, text.text());
    found.text() == wanted.expected.as_bytes()
}

fn row_holds(alloc: Global, row: &str) -> bool {
    match series_of(row) {
        Some(wanted) => holds(alloc, &wanted),
        None => false,
    }
}

/// The rows that don't hold.
fn wrong(alloc: Global, rows: &str) -> Shown {
    let mut out = Shown::new(alloc);
    for row in rows.split('\n') {
        if !row_holds(alloc, row) {
            put(&mut out, row.as_bytes());
            put(&mut out, b"\n");
        }
    }
    out
}

// A row: how often the part stands; what stands before; the part; its end; what stands behind; and how many
// predicates, rules, actions, edges and nodes come of it, or the refusal. The numbers of the parts stand in
// comments where they aren't wanted.
static PREDICATES_AND_NODES: &str = "512\t\t%p q\t() \t %% %action a() {} %% L a() L\t512;0;1;1;1;
513\t\t%p q\t() \t %% %action a() {} %% L a() L\tTooMany
512\t\t%p q\t() \t%p sm(v) %% %action a() {} %% L a() L\tReserved
512\t\t%p q\t() \t%p q0(u, v, w) %% %action a() {} %% L a() L\tNameTwice
512\t\t%p q\t() \t%p f(u, v, w) %% %action a() {} %% L a() L\tArityTooLarge
512\t\t%p q\t() \t%p n(v, v) %% %action a() {} %% L a() L\tNameTwice
512\t\t%p q\t() \t%p x(v) function %% %action a() {} %% L a() L\tArityWrong
512\t\t%p q\t() \t%p x(v) unique %% %action a() {} %% L a() L\tTooMany
512\t\t%p q\t() \t%i d() = 1/2 %% %action a() {} %% L a() L\tTooMany
4096\t%% %action a() {} %% \tn\t a() n0 \t\t0;0;1;4096;4096;
4097\t%% %action a() {} %% \tn\t a() n0 \t\tTooMany
4095\t%% %action a() {} %% \tn\t a() n0 \tn0 a() last\t0;0;1;4096;4096;
4096\t%% %action a() {} %% \tn\t a() n0 \tn0 a() last\tTooMany
16384\t%% %action a() {} %% \tL a() L /*\t*/ \t\t0;0;1;16384;1;
16385\t%% %action a() {} %% \tL a() L /*\t*/ \t\tTooMany
16384\t%% %action a() {} %% \tL a() L /*\t*/ \tM c() L\tNameUnknown";

static ITEMS: &str =
    "39\t%s S {b\t, a\t\t} foreach (x in S) { foreach (y in S) { foreach (z in S) { %r 0 ==> 0 } } } %% %action a() {} %% L a() L\t0;64000;1;1;1;
40\t%s S {b\t, a\t\t} foreach (x in S) { foreach (y in S) { foreach (z in S) { %r 0 ==> 0 } } } %% %action a() {} %% L a() L\tTooManyItems
255\t%s S {b\t, a\t\t} foreach (x in S) { foreach (y in S) { %r 0 ==> 0 } } %% %action a() {} %%\tNoEdge
255\t%s S {b\t, a\t\t} foreach (x in S) { foreach (y in S) { %r 0 ==> 0 } } %% %action a() {} %% L a() L\tTooManyItems
255\t%s S {b\t, a\t\t} foreach (x in S) { foreach (y in S) { %r 0 ==> 0 } } %% %action a() {} %% L c() L\tNameUnknown
255\t%s S {b\t, a\t\t} foreach (x in S) { foreach (y in S) { %r 0 ==> 0 } } foreach (x in T) {} %% %%\tNameUnknown
255\t%s S {b\t, a\t\t} foreach (x in S) { foreach (y in S) { %r 0 ==> 0 } } %p x() foreach (x in T) {} %% %%\tTooManyItems";

static VARIABLES: &str = "31\t%r E(v\t, w\t\t) 1 ==> 0 %% %action a() {} %% L a() L\t0;1;1;1;1;
32\t%r E(v\t, w\t\t) 1 ==> 0 %% %action a() {} %% L a() L\tTooManyVariables
31\t%r E(v\t, w\t\t) 1 ==> u == v %% %action a() {} %% L a() L\tTooManyVariables
31\t%r E(v\t, w\t\t, v) 1 ==> 0 %% %action a() {} %% L a() L\tNameTwice
32\t%r E(v\t, w\t\t, v) 1 ==> 0 %% %action a() {} %% L a() L\tTooManyVariables
31\t%r E(v\t, w\t\t) A(v, w0) v == w0 ==> v == w0 %% %action a() {} %% L a() L\t0;1;1;1;1;
29\t%i d(u, v) = E(w\t, w\t\t) 1 %% %action a() {} %% L a() L\t1;0;1;1;1;
30\t%i d(u, v) = E(w\t, w\t\t) 1 %% %action a() {} %% L a() L\tTooManyVariables
31\t%i d() = E(v\t, w\t\t) v == u %% %action a() {} %% L a() L\tVariableUnbound
27\t%p n(v, w) %r n+(u, v) & n*(v, u) & E(w\t, w\t\t) 1 ==> 0 %% %action a() {} %% L a() L\t1;1;1;1;1;
28\t%p n(v, w) %r n+(u, v) & n*(v, u) & E(w\t, w\t\t) 1 ==> 0 %% %action a() {} %% L a() L\tTooManyVariables
29\t%p n(v, w) %r E(v\t, w\t\t) n*(v, v) ==> 0 %% %action a() {} %% L a() L\t1;1;1;1;1;
30\t%p n(v, w) %r E(v\t, w\t\t) n*(v, v) ==> 0 %% %action a() {} %% L a() L\tTooManyVariables
31\t%p x(v) %p b() %% %action a() { %p x(v)\t & x(v\t)\t  } %% L a() L\t2;0;1;1;1;
32\t%p x(v) %p b() %% %action a() { %p x(v)\t & x(v\t)\t  } %% L a() L\tTooManyVariables
31\t%p x(v) %p b() %% %action a() { %p x(v)\t & x(v\t)\t { x(w) = 1 } } %% L a() L\tTooManyVariables
31\t%p x(v) %p b() %% %action a() { %p x(v)\t & x(v\t)\t { x(v) = 1 } } %% L a() L\tTooManyVariables
31\t%p x(v) %p b() %% %action a() { %p x(v)\t & x(v\t)\t { x(w) = 1/2 } } %% L a() L\tTooManyVariables
31\t%p x(v) %p b() %% %action a() { %p x(v)\t & x(v\t)\t { b() = x(v) } } %% L a() L\t2;0;1;1;1;
31\t%p x(v) %p b() %% %action a() { %p x(v)\t & x(v\t)\t { x(w) = sm(v) } } %% L a() L\tTooManyVariables
31\t%p x(v) %p b() %% %action a() { %p x(v)\t & x(v\t)\t { x(w, w) = 1 } } %% L a() L\tArityWrong
31\t%p x(v) %p b() %% %action a() { %p x(v)\t & x(v\t)\t %retain 1 } %% L a() L\tTooManyVariables
31\t%p x(v) %p b() %% %action a() { %p x(v)\t & x(v\t)\t %retain x(v) } %% L a() L\tTooManyVariables
31\t%p x(v) %p b() %% %action a() { %p x(v)\t & x(v\t)\t %retain x(w) } %% L a() L\tTooManyVariables
31\t%p x(v) %p b() %% %action a() { %p x(v)\t & x(v\t)\t %retain sm(v) } %% L a() L\tReserved
31\t%p x(v) %p b() %% %action a() { %p x(v)\t & x(v\t)\t %retain 1 & 1/2 } %% L a() L\tHalfLiteral
31\t%p x(v) %p b() %% %action a() { %p x(v)\t & x(v\t)\t %message E(u, w) 1 -> \"t\" } %% L a() L\t2;0;1;1;1;
30\t%p x(v) %p b() %% %action a() { %p x(v)\t & x(v\t)\t %retain 1 } %% L a() L\t2;0;1;1;1;
30\t%p x(v) %p b() %% %action a() { %p x(v)\t & x(v\t)\t %retain x(w) } %% L a() L\t2;0;1;1;1;
30\t%p x(v) %p b() %% %action a() { %p x(v)\t & x(v\t)\t %retain x(w) & x(u) } %% L a() L\tVariableUnbound
30\t%p x(v) %p b() %% %action a() { %p x(v)\t & x(v\t)\t %retain x(w) & (E(u) x(u)) } %% L a() L\tTooManyVariables
30\t%p x(v) %p b() %% %action a() { %p x(v)\t & x(v\t)\t %retain E(u) x(u) } %% L a() L\tTooManyVariables
30\t%p x(v) %p b() %% %action a() { %p x(v)\t & x(v\t)\t %retain E(v) x(v) } %% L a() L\t2;0;1;1;1;
30\t%p x(v) %p b() %% %action a() { %p x(v)\t & x(v\t)\t { x(w) = 1 } } %% L a() L\t2;0;1;1;1;
30\t%p x(v) %p b() %% %action a() { %p x(v)\t & x(v\t)\t { x(v) = x(v) } } %% L a() L\t2;0;1;1;1;
30\t%p x(v) %p b() %% %action a() { %p x(v)\t & x(v\t)\t { x(w) = E(u) x(u) } } %% L a() L\tTooManyVariables
30\t%p x(v) %p b() %% %action a() { %p x(v)\t & x(v\t)\t { x(w) = x(u) } } %% L a() L\tVariableUnbound";

static HEIGHTS: &str = "200\t%p p() %r \t! /*\t*/ \t0 ==> 0 %% %action a() {} %% L a() L\t1;1;1;1;1;
201\t%p p() %r \t! /*\t*/ \t0 ==> 0 %% %action a() {} %% L a() L\tTooDeep
199\t%p p() %r \tE(v) /*\t*/ \t0 ==> 0 %% %action a() {} %% L a() L\t1;1;1;1;1;
200\t%p p() %r \tE(v) /*\t*/ \t0 ==> 0 %% %action a() {} %% L a() L\tTooDeep
199\t%p p() %r \tA(v) /*\t*/ \t0 ==> 0 %% %action a() {} %% L a() L\t1;1;1;1;1;
200\t%p p() %r \tA(v) /*\t*/ \t0 ==> 0 %% %action a() {} %% L a() L\tTooDeep
200\t%p p() %r \tp() -> /*\t*/ \t0 ==> 0 %% %action a() {} %% L a() L\t1;1;1;1;1;
201\t%p p() %r \tp() -> /*\t*/ \t0 ==> 0 %% %action a() {} %% L a() L\tTooDeep
200\t%p p() %r \tp() & /*\t*/ \t0 ==> 0 %% %action a() {} %% L a() L\t1;1;1;1;1;
201\t%p p() %r \tp() & /*\t*/ \t0 ==> 0 %% %action a() {} %% L a() L\tTooDeep
200\t%p p() %r \tp() | /*\t*/ \t0 ==> 0 %% %action a() {} %% L a() L\t1;1;1;1;1;
201\t%p p() %r \tp() | /*\t*/ \t0 ==> 0 %% %action a() {} %% L a() L\tTooDeep
200\t%p p() %r \tp() <-> /*\t*/ \t0 ==> 0 %% %action a() {} %% L a() L\t1;1;1;1;1;
201\t%p p() %r \tp() <-> /*\t*/ \t0 ==> 0 %% %action a() {} %% L a() L\tTooDeep
200\t%p p() %r \tp() ? 1 : /*\t*/ \t0 ==> 0 %% %action a() {} %% L a() L\t1;1;1;1;1;
201\t%p p() %r \tp() ? 1 : /*\t*/ \t0 ==> 0 %% %action a() {} %% L a() L\tTooDeep
201\t%r \t( /*\t*/ \t~\tBadByte
201\t%r \t( /*\t*/ \t\"\tUnended
201\t%r \t( /*\t*/ \t%%\tTooDeep";

#[test]
fn limits_on_predicates_nodes_and_items(rt: HostRuntime) {
    let found = wrong(rt.alloc(), PREDICATES_AND_NODES);
    assert!(rt; found.text().is_empty(), "{}", readable(&found));
    let found = wrong(rt.alloc(), ITEMS);
    assert!(rt; found.text().is_empty(), "{}", readable(&found));
}

#[test]
fn limits_on_variables_and_heights(rt: HostRuntime) {
    let found = wrong(rt.alloc(), VARIABLES);
    assert!(rt; found.text().is_empty(), "{}", readable(&found));
    let found = wrong(rt.alloc(), HEIGHTS);
    assert!(rt; found.text().is_empty(), "{}", readable(&found));
}

/// An action of 1,024 nodes, and so many edges with different arguments.
fn many_nodes(alloc: Global, edges: u32) -> Shown {
    let mut text = Shown::new(alloc);
    put(&mut text, b"%% %action a(z) { %f { 0");
    put_series(&mut text, 1023, ", 0 /*", "*/ ");
    put(&mut text, b"} } %% ");
    put_series(&mut text, edges, "L a(z", ") L ");
    shown(alloc, View::Sizes, text.text())
}

#[test]
fn the_limit_on_formula_nodes(rt: HostRuntime) {
    let most = many_nodes(rt.alloc(), 1024);
    assert!(rt;
        most.text() == b"0;0;1024;1024;1;".as_slice(),
        "{}",
        readable(&most)
    );
    let more = many_nodes(rt.alloc(), 1025);
    assert!(rt;
        more.text() == b"TooManyItems".as_slice(),
        "{}",
        readable(&more)
    );
}
