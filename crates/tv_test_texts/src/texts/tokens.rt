//! Texts and their tokens, by example.
use super::cells::cells;
use std::alloc::{AllocError, Global};
use std::test::Fail;
use tv_lex::{LexError, Place, Token, TokenKind, lex, place, text};

/// A line has a text, and behind `$` its tokens, a letter for each kind and the token's bytes; or the
/// refusal. `;` stands for a line feed.
static TEXTS: &[u8] = b"$
 \t\r;$
==> <-> -> == != ( ) { } [ ] , : + - * = ! & | ?$P==> P<-> P-> P== P!= P( P) P{ P} P[ P] P, P: P+ P- P* P= P! P& P| P?
===>$BadByte
<-$BadByte
a<->b->c==>d==e!=f$wa P<-> wb P-> wc P==> wd P== we P!= wf
==>=$P==> P=
--> =!= !-$P- P-> P= P!= P! P-
<$BadByte
a <$BadByte
>$BadByte
/$BadByte
1/2$H1/2
(1/2)$P( H1/2 P)
1/23$BadByte
1/2_$BadByte
1/2 3$H1/2 w3
a1/2$BadByte
_1/2$BadByte
11/2$BadByte
%s1/2$D%s H1/2
1/2/2$BadByte
1 /2$BadByte
1//2;3$w1 w3
1/*2*/3$w1 w3
E A TC foreach in a_1 9Z$wE wA wTC wforeach win wa_1 w9Z
%s %p1 %message%%%%x$D%s D%p w1 D%message S%% S%% wx
%$BadByte
%1$BadByte
%_$BadByte
\"\"$T\"\"
\"a b\" \"!~\"$T\"a b\" T\"!~\"
\"a$Unended
\"a;\"$Unended
\"a\tb\"$BadByte
\"a\r;\"$BadByte
\"a\x7f$BadByte
\"a;\x01$Unended
\"\x80\"$BadByte
\"a\" \"$Unended
\"//\" x$T\"//\" wx
\"/* a\" */$BadByte
// \"a;b$wb
// \x00\xff$
/* \"a */ b$wb
/* \x00\xff; */b$wb
/*/$Unended
/*/ */x$wx
/**/x$wx
/***/x$wx
/* /* */ x$wx
/* */ */$BadByte
/*$Unended
/* *$Unended
a /* \x01$Unended
\x01 /*$BadByte
/* a */ \x01$BadByte
\x00$BadByte
a\x00$BadByte
\x7f$BadByte
\x80$BadByte
\xc3\xa9$BadByte
\x0c$BadByte
#$BadByte
'$BadByte
@$BadByte
a#b$BadByte";

fn letter(kind: TokenKind) -> u8 {
    match kind {
        TokenKind::Word => b'w',
        TokenKind::Half => b'H',
        TokenKind::Text => b'T',
        TokenKind::Directive => b'D',
        TokenKind::Parts => b'S',
        TokenKind::Punct => b'P',
    }
}

fn shown(alloc: Global, bytes: &[u8]) -> Result<Vec<u8>, AllocError> {
    let mut out = Vec::new(alloc);
    if bytes.len() > 1000 {
        return Ok(out);
    }
    match lex(alloc, bytes) {
        Ok(tokens) => {
            for t in &tokens.list {
                if !out.is_empty() {
                    out.push(b' ')?;
                }
                out.push(letter(t.kind))?;
                out.extend_from_slice(text(bytes, t))?;
            }
        }
        Err(LexError::BadByte) => out.extend_from_slice(b"BadByte")?,
        Err(LexError::Unended) => out.extend_from_slice(b"Unended")?,
        Err(LexError::Memory) => out.extend_from_slice(b"Memory")?,
    }
    Ok(out)
}

/// Whether the text of a line has the tokens behind it.
fn is_met(alloc: Global, row: &[u8]) -> Result<bool, AllocError> {
    let Some((bytes, wanted)) = cells(alloc, row)? else {
        return Ok(false);
    };
    Ok(shown(alloc, bytes.as_slice())?.as_slice() == wanted.as_slice())
}

#[test]
fn tokens_by_example(rt: HostRuntime) -> Result<(), Fail> {
    for row in TEXTS.split(|byte| *byte == b'\n') {
        assert!(rt; is_met(rt.alloc(), row)?, "{row:?}");
    }
    Ok(())
}

/// The numbers of bytes of `ab\n\nc\r`, and their places.
const PLACES: [(usize, u32, u32); 7] = [
    (0, 1, 1),
    (1, 1, 2),
    (2, 1, 3),
    (3, 2, 1),
    (4, 3, 1),
    (5, 3, 2),
    (6, 3, 3),
];

fn is_place(bytes: &[u8], at: usize, line: u32, column: u32) -> bool {
    if at > bytes.len() || bytes.len() > 1000 {
        return false;
    }
    place(bytes, at) == Place { line, column }
}

#[test]
fn places_by_example(rt: HostRuntime) {
    for (at, line, column) in PLACES {
        assert!(rt; is_place(b"ab\n\nc\r", at, line, column), "at {at}");
    }
    assert!(rt; is_place(b"", 0, 1, 1));
}

/// Whether the tokens of a small text have their kinds and spans.
fn are_spanned(alloc: Global) -> Result<bool, Fail> {
    let wanted = [
        (TokenKind::Word, 0, 1),
        (TokenKind::Text, 8, 11),
        (TokenKind::Punct, 12, 14),
    ];
    let tokens = lex(alloc, b"a /*x*/ \"b\"\n->").ok().ok_or("no tokens")?;
    let mut same = tokens.list.len() == 3;
    for (t, (kind, start, end)) in tokens.list.iter().zip(wanted) {
        same &= *t == Token { kind, start, end };
    }
    Ok(same)
}

/// Whether the bytes of `abc` from `start` to `end` are those, as far as there are any.
fn is_text(start: u32, end: u32, wanted: &[u8]) -> bool {
    let kind = TokenKind::Word;
    text(b"abc", &Token { kind, start, end }) == wanted
}

#[test]
fn spans_by_example(rt: HostRuntime) -> Result<(), Fail> {
    assert!(rt; are_spanned(rt.alloc())?);
    assert!(rt; is_text(1, 9, b"bc") && is_text(4, 9, b"") && is_text(2, 1, b""));
    Ok(())
}
