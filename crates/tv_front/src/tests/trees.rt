//! Trees of programs, printed, and the places of faults in their texts.
use std::alloc::Global;
use std::test::Fail;
use tv_lex::lex;
use tv_parse::parse_program;
use tv_phrases::SyntaxError;
use tv_tree::print_program;

// Texts and their printed trees.
static TREES: &[u8] = b"%%%%\t%%;%%;
%%%%%%\t%%;%%;%%;
%%%%%% a, b, 7\t%%;%%;%%;a , b , 7;
%p x(v)unique%%%%\t%p x ( v ) unique;%%;%%;
%s S = {f, g} - (T + {h}) + U %%%%\t%s S { f , g } - ( T + { h } ) + U;%%;%%;
%s S {} %%%%\t%s S { };%%;%%;
%p x[f,g](v, w) unique function invfunction abs nonabs transitive reflexive symmetric box pointer %%%%\t%p x [ f , g ] ( v , w ) unique function invfunction abs nonabs transitive reflexive symmetric box pointer;%%;%%;
%i d(v) = E(w) n(v, w) abs %r a() & b() -> !c() ==> 0 %%%%\t%i d ( v ) = E ( w ) n ( v , w ) abs;%r a ( ) & b ( ) -> ! c ( ) ==> 0;%%;%%;
foreach (z in S) { %p p[z](v) foreach (y in T + S) { %r 0 ==> p[z, y]() } } %%%%\tforeach ( z in S ) {;%p p [ z ] ( v );foreach ( y in T + S ) {;%r 0 ==> p [ z , y ] ( );};};%%;%%;
%r v == w | v != w <-> 1/2 ==> TC (l, r) (a, b) n(a, b) %%%%\t%r v == w | v != w <-> 1/2 ==> TC ( l , r ) ( a , b ) n ( a , b );%%;%%;
%r a() ? b() : c() ? 0 : 1 ==> n[f]+(v, w) & n*(v, w) %%%%\t%r a ( ) ? b ( ) : c ( ) ? 0 : 1 ==> n [ f ] + ( v , w ) & n * ( v , w );%%;%%;
%r (A(v, w) x(v) & !(0)) ==> 1 %%%%\t%r ( A ( v , w ) x ( v ) & ! ( 0 ) ) ==> 1;%%;%%;
%% %action Go(z) { %t \"a b\" + z %f { 0, x(v) } %p 1 %message E(v) x(v) -> y(v) -> \"t\" %new %retain 1 { x(v) = 1/2 } } %%%%\t%%;%action Go ( z ) {;%t \"a b\" + z;%f { 0 , x ( v ) };%p 1;%message E ( v ) x ( v ) -> y ( v ) -> \"t\";%new;%retain 1;{;x ( v ) = 1/2;};};%%;%%;
%% %action Go() { %message a() -> b() -> \"t\" + z + \"u\" %message 0 -> \"x\" } %action H() { } %%%%\t%%;%action Go ( ) {;%message a ( ) -> b ( ) -> \"t\" + z + \"u\";%message 0 -> \"x\";};%action H ( ) {;};%%;%%;
%% %action Go() { { foreach (z in {f}) { x[z]() = 0 y() = 1 } } %f {} } %% 0 Go(a, b) L1 L1 Go() 0 %%\t%%;%action Go ( ) {;{;foreach ( z in { f } ) {;x [ z ] ( ) = 0;y ( ) = 1;};};%f { };};%%;0 Go ( a , b ) L1;L1 Go ( ) 0;%%;
%r !!!a() ==> !0 %%%%\t%r ! ! ! a ( ) ==> ! 0;%%;%%;
%r a() ? b() ? c() : d() : e() ==> 0 %%%%\t%r a ( ) ? b ( ) ? c ( ) : d ( ) : e ( ) ==> 0;%%;%%;
%r a() <-> b() -> c() | d() & !e() ==> 0 %%%%\t%r a ( ) <-> b ( ) -> c ( ) | d ( ) & ! e ( ) ==> 0;%%;%%;
%i d() = E(v) a() & b() unique function %%%%\t%i d ( ) = E ( v ) a ( ) & b ( ) unique function;%%;%%;
%%%% E go() foreach %% in, TC\t%%;%%;E go ( ) foreach;%%;in , TC;
%% %action a() { %message 0 -> \"t\" %p 1 %message 1 -> \"u\" + v } %% /* c */ 1 a() 2 // d\t%%;%action a ( ) {;%message 0 -> \"t\";%p 1;%message 1 -> \"u\" + v;};%%;1 a ( ) 2;";

// Texts and the places of their faults.
static FAULTS: &[u8] = b"%%\t1:3
%p\t1:3
%p x\t1:5
%p x(v\t1:7
%p x(v,) %%%%\t1:8
%p E(v) %%%%\t1:4
%p x(A) %%%%\t1:6
%p x[]() %%%%\t1:6
%s in {a} %%%%\t1:4
%s S a + %%%%\t1:10
%i x() %%%%\t1:8
%r 0 1 ==> 0 %%%%\t1:6
%r 0 %%%%\t1:6
%r v = w ==> 0 %%%%\t1:6
%r E() 0 ==> 0 %%%%\t1:6
%r TC (a) (b, c) 0 ==> 0 %%%%\t1:9
foreach (TC in S) { } %%%%\t1:10
foreach (z in S) { %p x() %%%%\t1:27
%p a() -> \"x\" %%%%\t1:8
%% %action a() { %p 1 %p 1 } %%%%\t1:23
%% %action a() { %t \"x\" %new %t \"y\" } %%%%\t1:30
%% %action a() { {} {} } %%%%\t1:21
%% %action a() { %message 0 -> z } %%%%\t1:34
%% %action a() { %message 0 } %%%%\t1:29
%% %action a() { %p (a() -> \"x\") } %%%%\t1:29
%% %action foreach() { } %%%%\t1:12
%% %action a() { %f { 0, } } %%%%\t1:26
%% %action a() { { x() 1 } } %%%%\t1:24
%% %action a() %new %%%%\t1:16
%%%% L a() %%\t1:12
%%%% L a() M,\t1:13
%%%%%% a b\t1:10
%%%%%% a, %%\t1:11
%%%%%%%%\t1:7
%p x() uniqe %%%%\t1:8
%p x(0) %%%%\t1:6
%r a() -> \"x\" ==> 0 %%%%\t1:11
%r 0 ==> a() -> \"x\" %%%%\t1:17
%i d() = 1 -> \"x\" %%%%\t1:15
%i d() = 1 abs -> \"x\" %%%%\t1:16
%% %action a() { %p 1 -> \"x\" } %%%%\t1:26
%% %action a() { %f { 1 -> \"x\" } } %%%%\t1:28
%% %action a() { { x() = 1 -> \"x\" } } %%%%\t1:31
%% %action a() { %new -> \"x\" } %%%%\t1:23
%% %action a() { %message 0 -> \"t\" -> \"x\" } %%%%\t1:36
%s S a -> \"x\" %%%%\t1:8
%r E(v) E ==> 0 %%%%\t1:11
%r (a() ==> 0 %%%%\t1:9
%r a() ? b() ==> 0 %%%%\t1:14
%p x(v) unique = 1 %%%%\t1:16
foreach (z in S) { %r 0 ==> 0 } -> \"x\"\t1:33
%% %action a() { { x() = 1 } -> \"x\" }\t1:30
%% %action a() { { foreach (z in S) { x() = 1 } -> \"x\" } }\t1:49
%% %action a() { { foreach (z in S) { x() = 1 -> \"x\" } } }\t1:50
%% %action a() { %p (a()) -> \"x\" }\t1:30
%% %action a() { %p x -> \"x\" }\t1:23
%% %action a() { %retain 1 %retain 1 } %%%%\t1:28
%% %action a() { %f { } %f { } } %%%%\t1:25
%%%% L E() M\t1:8
%%%% L a(in) M\t1:10
%s S {a + b} %%%%\t1:9
%s S (a %%%%\t1:9
%r ((((((((((((((((((((((((((((((((((((((((((((((((((((((((((((((((((((((((((((((((((((((((((((((((((((((((((((((((((((((((((((((((((((((((((((((((((((((((((((((((((((((((((((((((((((((((((((((((((((((((\t1:204
%r (((((((((((((((((((((((((((((((((((((((((((((((((((((((((((((((((((((((((((((((((((((((((((((((((((((((((((((((((((((((((((((((((((((((((((((((((((((((((((((((((((((((((((((((((((((((((((((((((((((((((\tTooDeep";

// The printed tree of a text, or the place where it is no program.
fn shown(alloc: Global, text: &[u8]) -> Result<Vec<u8>, Fail> {
    if text.len() > 100_000 {
        return Ok(Vec::new(alloc));
    }
    let tokens = lex(alloc, text)?;
    match parse_program(alloc, text, &tokens) {
        Ok(tree) => Ok(print_program(alloc, &tree)?),
        Err(SyntaxError::Syntax(place)) => {
            Ok(format!(in alloc; "{}:{}", place.line, place.column)?.into_bytes())
        }
        Err(SyntaxError::TooDeep) => Ok(b"TooDeep".to_vec(alloc)?),
        Err(SyntaxError::Memory) => Ok(b"Memory".to_vec(alloc)?),
    }
}

// Whether a row's text, before the tab, is shown like what stands behind it, where `;` is for a line feed.
fn holds(alloc: Global, row: &[u8]) -> Result<bool, Fail> {
    let mut halves = row.split(|byte| *byte == b'\t');
    let (Some(text), Some(expected)) = (halves.next(), halves.next()) else {
        return Ok(false);
    };
    let found = shown(alloc, text)?;
    let mut same = found.len() == expected.len();
    for (byte, wanted) in found.iter().zip(expected) {
        same = same && (*byte == *wanted || (*byte == b'\n' && *wanted == b';'));
    }
    Ok(same)
}

fn all_hold(alloc: Global, rows: &[u8]) -> Result<bool, Fail> {
    for row in rows.split(|byte| *byte == b'\n') {
        if !holds(alloc, row)? {
            return Ok(false);
        }
    }
    Ok(true)
}

#[test]
fn trees_are_printed_again(rt: HostRuntime) -> Result<(), Fail> {
    assert!(rt; all_hold(rt.alloc(), TREES)?);
    Ok(())
}

#[test]
fn places_of_faults(rt: HostRuntime) -> Result<(), Fail> {
    assert!(rt; all_hold(rt.alloc(), FAULTS)?);
    Ok(())
}

// `%r` with so many pairs of parentheses around a `1`.
fn nested(alloc: Global, pairs: usize) -> Result<Vec<u8>, Fail> {
    let mut text = b"%r ".to_vec(alloc)?;
    for _ in 0..pairs {
        text.push(b'(')?;
    }
    text.push(b'1')?;
    for _ in 0..pairs {
        text.push(b')')?;
    }
    text.extend_from_slice(b" ==> 0 %%%%")?;
    Ok(text)
}

#[test]
fn heights(rt: HostRuntime) -> Result<(), Fail> {
    let alloc = rt.alloc();
    let lower = shown(alloc, &nested(alloc, 199)?)?;
    assert_eq!(rt; lower.len(), 813);
    let low = shown(alloc, &nested(alloc, 200)?)?;
    assert_eq!(rt; low.len(), 817);
    let high = shown(alloc, &nested(alloc, 201)?)?;
    assert!(rt; high.as_slice() == b"TooDeep".as_slice());
    Ok(())
}
