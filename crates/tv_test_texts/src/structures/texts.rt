//! Texts of structures, by example.

ghost use Rattle.std.specs.Prelude.{◌≡◌, None, All};
ghost use Rattle.tv_structure_form.specs.StructureForm.{IsOver};
ghost use Rattle.tv_tvs.specs.Meaning.{IsVocabulary};

use super::reader::vocabulary;
use std::alloc::{AllocError, Global};
use std::process::Abort;
use std::test::Fail;
use tv_lex::lex;
use tv_model::Vocab;
use tv_struct::Structure;
use tv_test_reader::unfolded;
use tv_tvs::{TvsError, read_one, read_tvs, write_tvs};

/// A line has a text and, behind a tab, what is written of its structures, or why it is refused. `;` stands
/// for a line feed. Lines that begin with `//` are remarks.
static TEXTS: &str = "\t
 // nothing;\t
%n = {} %p = {}\t%n = {};%p = {;};
%n={}%p={}%n={u}%p={}\t%n = {};%p = {;};%n = {i0};%p = {;};
%n = {} %p = { b = 1 }\t%n = {};%p = {;  b = 1;};
%n = {} %p = { b = 1/2 }\t%n = {};%p = {;  b = 1/2;};
%n = {} %p = { b = 0 }\t%n = {};%p = {;};
%n = {} %p = { b = 1 b = 0 }\t%n = {};%p = {;};
%n = {} %p = { b = 0 b = 1/2 }\t%n = {};%p = {;  b = 1/2;};
%n = {u} %p = { x = {} n = {} sm = {} }\t%n = {i0};%p = {;};
%n = {u} %p = { x = {u:1/2} sm = {u:1/2} }\t%n = {i0};%p = {;  x = {i0:1/2};  sm = {i0:1/2};};
%n = {u, v} %p = { sm = {v:1/2} x = {v, u:1/2} }\t%n = {i0, i1};%p = {;  x = {i0:1/2, i1};  sm = {i1:1/2};};
%n = {u} %p = { sm = {u:1/2, u:0} }\t%n = {i0};%p = {;};
%n = {u} %p = { x = {u, u:0} }\t%n = {i0};%p = {;};
%n = {u} %p = { x = {u:0, u:1, u:1/2} x = {u:1} }\t%n = {i0};%p = {;  x = {i0};};
%n = {a, b} %p = { n = {b->a, a->b:1/2, b->b:0} }\t%n = {i0, i1};%p = {;  n = {i0->i1:1/2, i1->i0};};
%n = {a, b} %p = { n = {a->b} n = {b->a} n = {a->b:0} }\t%n = {i0, i1};%p = {;  n = {i1->i0};};
%n = {0, 1, E, in, 007} %p = { x = {0, 1:1/2, E, in:0, 007} }\t\
    %n = {i0, i1, i2, i3, i4};%p = {;  x = {i0, i1:1/2, i2, i4};};
%n = {i1, i0} %p = { n = {i1->i0} }\t%n = {i0, i1};%p = {;  n = {i0->i1};};
%n = {u} %p = { t [ n ] = {u -> u} r[n , x] = {u} }\t%n = {i0};%p = {;  t[n] = {i0->i0};  r[n,x] = {i0};};
%n = {h, u};%p = { x = {h} n = {h->u:1/2, u->u:1/2} t[n] = {h->h, h->u, u->u:1/2} r[n,x] = {h, u} sm = \
    {u:1/2} }\t\
    %n = {i0, i1};%p = {;  x = {i0};  n = {i0->i1:1/2, i1->i1:1/2};  t[n] = {i0->i0, i0->i1, i1->i1:1/2};  \
    r[n,x] = {i0, i1};  sm = {i1:1/2};};
/* a */ %n = { u /* b */ } // c; %p = { }\t%n = {i0};%p = {;};
// Written texts are read again.
%n = {};%p = {;  b = 1;};%n = {};%p = {;};\t%n = {};%p = {;  b = 1;};%n = {};%p = {;};
%n = {i0, i1};%p = {;  x = {i1};  sm = {i0:1/2, i1:1/2};};\t\
    %n = {i0, i1};%p = {;  x = {i1};  sm = {i0:1/2, i1:1/2};};
%n = {i0, i1};%p = {;  x = {i1};  n = {i0->i0:1/2, i1->i0:1/2};  t[n] = {i0->i0:1/2, i1->i0, i1->i1};  \
    r[n,x] = {i0, i1};  sm = {i0:1/2};};\t\
    %n = {i0, i1};%p = {;  x = {i1};  n = {i0->i0:1/2, i1->i0:1/2};  t[n] = {i0->i0:1/2, i1->i0, i1->i1};  \
    r[n,x] = {i0, i1};  sm = {i0:1/2};};
// What no structure goes on with.
x\tSyntax 1:1
%p\tSyntax 1:1
%n\tSyntax 1:3
%n {\tSyntax 1:4
%n = {u\tSyntax 1:8
%n = {u,} %p = {}\tSyntax 1:9
%n = {u v} %p = {}\tSyntax 1:9
%n = {} %p = {\tSyntax 1:15
%n = {};%p = { 0 = 1 }\tSyntax 2:8
%n = {};%p = { E = 1 }\tSyntax 2:8
%n = {} %p = { b }\tSyntax 1:18
%n = {} %p = { b = 2 }\tSyntax 1:20
%n = {} %p = { b = 1 } }\tSyntax 1:24
%n = {} %p = { x = {u->} }\tSyntax 1:24
%n = {} %p = { x = {u:} }\tSyntax 1:23
%n = {} %p = { x = {u:x} }\tSyntax 1:23
%n = {} %p = { x = {u:1->u} }\tSyntax 1:24
%n = {} %p = { x = {u,} }\tSyntax 1:23
%n = {} %p = { r[] = {} }\tSyntax 1:18
%n = {} %p = { r[n = {} }\tSyntax 1:20
%n = {u, u} %p = {} %n = {} %p = { x = 2 }\tSyntax 1:40
// One refusal alone.
%n = {u, u} %p = {}\tIndividualTwice
%n = {u} %p = { x = {w} }\tIndividualUnknown
%n = {u} %p = { n = {u->w} }\tIndividualUnknown
%n = {u} %p = { y = {u} }\tNameUnknown
%n = {u} %p = { r[x,n] = {u} }\tNameUnknown
%n = {u} %p = { isNew = {u} }\tNameUnknown
%n = {u} %p = { x = 1 }\tArityWrong
%n = {u} %p = { b = {} }\tArityWrong
%n = {u} %p = { sm = 0 }\tArityWrong
%n = {u} %p = { sm = {u:1} }\tBadSm
%n = {u} %p = { sm = {u} }\tBadSm
// The first of two.
%n = {u, u} %p = { y = {u} }\tIndividualTwice
%n = {u} %p = { y = {u->w} }\tNameUnknown
%n = {u} %p = { x = {w, u->u} }\tArityWrong
%n = {u} %p = { x = {w} y = {u} }\tIndividualUnknown
%n = {u} %p = { sm = {w} }\tIndividualUnknown
%n = {u} %p = { sm = {u, w:0} }\tBadSm
%n = {u} %p = { sm = {u->u} }\tArityWrong
%n = {u} %p = { sm = {u} } %n = {u, u} %p = {}\tBadSm
%n = {u, u} %p = { x = 1 }\tIndividualTwice
%n = {u, u} %p = { x = {w} }\tIndividualTwice
%n = {u, u} %p = { sm = {u} }\tIndividualTwice
%n = {u} %p = { y = {u} x = 1 }\tNameUnknown
%n = {u} %p = { x = 1 y = {u} }\tArityWrong
%n = {u} %p = { y = {u} x = {w} }\tNameUnknown
%n = {u} %p = { y = {u} sm = {u} }\tNameUnknown
%n = {u} %p = { sm = {u} y = {u} }\tBadSm
%n = {u} %p = { x = 1 n = {u->w} }\tArityWrong
%n = {u} %p = { n = {u->w} x = 1 }\tIndividualUnknown
%n = {u} %p = { x = 1 sm = {u} }\tArityWrong
%n = {u} %p = { sm = {u} x = 1 }\tBadSm
%n = {u} %p = { sm = {u, u->u} }\tArityWrong
%n = {u} %p = { sm = {w:0, u} }\tIndividualUnknown
%n = {u} %p = { x = {w} } %n = {\tSyntax 1:33";

fn put_fault(alloc: Global, out: &mut Vec<u8>, fault: TvsError) -> Result<(), AllocError> {
    let text = match fault {
        TvsError::Syntax(at) => format!(in alloc; "Syntax {}:{}", at.line, at.column)?,
        _ => format!(in alloc; "{fault:?}")?,
    };
    out.extend_from_slice(text.as_str().as_bytes())
}

fn put_structure(
    alloc: Global,
    out: &mut Vec<u8>,
    vocab: &Vocab,
    s: &Structure,
) -> Result<(), AllocError>
    requires vocabulary { IsVocabulary vocab.now }
    requires over { IsOver vocab.now s.now }
{
    out.extend_from_slice(write_tvs(alloc, vocab, s)?.as_slice())
}

fn put_structures(
    alloc: Global,
    out: &mut Vec<u8>,
    vocab: &Vocab,
    list: &[Structure],
) -> Result<(), AllocError>
    requires vocabulary { IsVocabulary vocab.now }
    requires over { All (λ s. IsOver vocab.now s × (s.fresh ≡ None)) list.now }
{
    for s in list {
        put_structure(alloc, out, vocab, s)?;
    }
    Ok(())
}

/// What is written of the structures of a text, or why it is refused.
fn outcome(alloc: Global, vocab: &Vocab, text: &[u8]) -> Result<Vec<u8>, AllocError>
    requires { IsVocabulary vocab.now }
{
    let mut out = Vec::new(alloc);
    if text.len() > 10000 {
        return Ok(out);
    }
    match lex(alloc, text) {
        Err(_) => out.extend_from_slice(b"no tokens")?,
        Ok(tokens) => match read_tvs(alloc, vocab, text, &tokens) {
            Ok(list) => put_structures(alloc, &mut out, vocab, list.as_slice())?,
            Err(fault) => put_fault(alloc, &mut out, fault)?,
        },
    }
    Ok(out)
}

/// Whether a line's text gives what stands behind it.
fn is_met(alloc: Global, row: &str) -> Result<bool, Fail> {
    let Some((text, wanted)) = row.split_once('\t') else {
        return Ok(false);
    };
    let vocab = vocabulary(alloc)?;
    let found = outcome(alloc, &vocab, unfolded(alloc, text)?.as_slice())?;
    Ok(found.as_slice() == unfolded(alloc, wanted)?.as_slice())
}

/// A number of a token, a text, and what `read_one` answers there: the number of the token behind, and what
/// is written of the structure, or the refusal.
static PLACES: &str = "1\ttvla %n = {} %p = { b = 1 } %x\t12 %n = {};%p = {;  b = 1;};
0\ttvla %n = {} %p = { b = 1 } %x\tSyntax 1:1
12\ttvla %n = {} %p = { b = 1 } %x\tSyntax 1:29
13\ttvla %n = {} %p = { b = 1 } %x\tSyntax 1:31
4294967295\ttvla %n = {} %p = { b = 1 } %x\tSyntax 1:31
0\t%n = {u};%p = { sm = {u} } )\tBadSm
8\t%n = {} %p = {} %n = {u} %p = {}\t17 %n = {i0};%p = {;};
0\t%n = {} %p = {} %n = {u} %p = {\t8 %n = {};%p = {;};";

fn outcome_at(alloc: Global, vocab: &Vocab, text: &[u8], at: u32) -> Result<Vec<u8>, AllocError>
    requires { IsVocabulary vocab.now }
{
    let mut out = Vec::new(alloc);
    if text.len() > 10000 {
        return Ok(out);
    }
    match lex(alloc, text) {
        Err(_) => out.extend_from_slice(b"no tokens")?,
        Ok(tokens) => match read_one(alloc, vocab, text, &tokens, at) {
            Ok(one) => {
                let next = format!(in alloc; "{} ", one.next)?;
                out.extend_from_slice(next.as_str().as_bytes())?;
                put_structure(alloc, &mut out, vocab, &one.found)?;
            }
            Err(fault) => put_fault(alloc, &mut out, fault)?,
        },
    }
    Ok(out)
}

/// Whether a line's text gives what stands behind it, from the token of its number.
fn is_met_at(alloc: Global, row: &str) -> Result<bool, Fail> {
    let Some((number, rest)) = row.split_once('\t') else {
        return Ok(false);
    };
    let Some((text, wanted)) = rest.split_once('\t') else {
        return Ok(false);
    };
    let at = number.parse::<u32>().unwrap_or(0);
    let vocab = vocabulary(alloc)?;
    let found = outcome_at(alloc, &vocab, unfolded(alloc, text)?.as_slice(), at)?;
    Ok(found.as_slice() == unfolded(alloc, wanted)?.as_slice())
}

#[test]
fn texts_by_example(rt: HostRuntime) -> Result<(), Fail> {
    for row in TEXTS.lines() {
        assert!(rt; row.starts_with("//") || is_met(rt.alloc(), row)?, "{row}");
    }
    for row in PLACES.lines() {
        assert!(rt; is_met_at(rt.alloc(), row)?, "{row}");
    }
    Ok(())
}

/// The text of a structure of that many individuals, numbered in steps of `step`.
fn many(alloc: Global, size: u32, step: u32) -> Result<Vec<u8>, AllocError> {
    let mut text = Vec::from_slice(alloc, b"%n = {i0")?;
    for u in 1..size {
        let name = format!(in alloc; ", i{}", u.saturating_mul(step))?;
        text.extend_from_slice(name.as_str().as_bytes())?;
    }
    text.extend_from_slice(b"}\n%p = {\n}\n")?;
    Ok(text)
}

/// Whether a text of so many individuals, numbered in steps, is written again as it is, or refused as too
/// large.
fn is_limited(alloc: Global, size: u32, step: u32) -> Result<bool, Fail> {
    let vocab = vocabulary(alloc)?;
    let text = many(alloc, size, step)?;
    let got = outcome(alloc, &vocab, text.as_slice())?;
    if size > 256 {
        return Ok(got.as_slice() == b"TooManyIndividuals".as_slice());
    }
    Ok(got.as_slice() == text.as_slice())
}

#[test]
fn individuals_to_the_limit(rt: HostRuntime) -> Result<(), Fail> {
    for (size, step) in [(256, 1), (257, 1), (257, 0)] {
        assert!(rt;
            is_limited(rt.alloc(), size, step)?,
            "{size} in steps of {step}"
        );
    }
    Ok(())
}
