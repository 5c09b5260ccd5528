//! What small structures coerce to, worked out by hand or by a second program.
//!
//! A text has predicates and rules in its first line, and in each other line a structure and what it coerces
//! to: nothing where no stable structure lies below. Lines that begin with `//` are remarks.

use super::coerced::coerced;
use std::alloc::Global;
use std::process::Abort;
use std::test::Fail;
use tv_struct::Structure;
use tv_test_reader::{program, structure};

/// What holds of each cell holds of it and itself.
const OWN: &str = "%p q(v) %p p(v, w) %r q(v) ==> p(v, v)
%n = {u} %p = { q = {u} p = {u->u:1/2} sm = {u:1/2} }; %n = {u} %p = { q = {u} p = {u->u:1/2} sm = {u:1/2} }
%n = {u} %p = { q = {u} p = {u->u:1/2} }; %n = {u} %p = { q = {u} p = {u->u} }
%n = {u} %p = { q = {u} sm = {u:1/2} };";

const PAIRS: &str = "%p q(v) %p p(v, w) %r q(v) & q(w) ==> p(v, w)
%n = {u} %p = { q = {u} p = {u->u:1/2} sm = {u:1/2} }; %n = {u} %p = { q = {u} p = {u->u} sm = {u:1/2} }";

const UNIQUE: &str = "%p x(v) unique
%n = {u} %p = { x = {u} sm = {u:1/2} }; %n = {u} %p = { x = {u} }
%n = {u, w} %p = { x = {u, w:1/2} sm = {u:1/2, w:1/2} }; %n = {u, w} %p = { x = {u} sm = {w:1/2} }
%n = {u, w} %p = { x = {u, w} };";

const CONTRADICTION: &str = "%p a() %p b() %r a() ==> b() %r a() ==> !b()
%n = {} %p = { a = 1 b = 1/2 };
%n = {} %p = { a = 1/2 b = 1/2 }; %n = {} %p = { a = 1/2 b = 1/2 }
%n = {} %p = { a = 1/2 b = 1 }; %n = {} %p = { b = 1 }";

const DIFFERENT: &str = "%p q(v) %r q(v) & q(w) ==> v != w
%n = {u} %p = { q = {u} };
%n = {u} %p = { q = {u} sm = {u:1/2} };";

const DIFFERENT_FROM_ITSELF: &str = "%p q(v) %r q(v) ==> v != v
%n = {u} %p = { q = {u} };
%n = {u} %p = { q = {u} sm = {u:1/2} }; %n = {u} %p = { q = {u} sm = {u:1/2} }";

/// The exception of the first rule ends where the second makes a summary one cell.
const REOPENED: &str = "%p p(v, w) reflexive %p x(v) unique
%n = {u} %p = { x = {u} p = {u->u:1/2} sm = {u:1/2} }; %n = {u} %p = { x = {u} p = {u->u} }";

const CHAIN: &str = "%p a() %p b() %p c() %p d() %r c() ==> d() %r b() ==> c() %r a() ==> b()
%n = {} %p = { a = 1 b = 1/2 c = 1/2 d = 1/2 }; %n = {} %p = { a = 1 b = 1 c = 1 d = 1 }
%n = {} %p = { a = 1/2 b = 1/2 c = 1/2 }; %n = {} %p = {}";

const NOWHERE: &str = "%p x(v) %r E(v) x(v) ==> 0
%n = {u} %p = { x = {u:1/2} }; %n = {u} %p = {}
%n = {} %p = {}; %n = {} %p = {}";

const FUNCTION: &str = "%p n(v, w) function
%n = {a, b, c} %p = { n = {a->b, a->c:1/2, b->c:1/2} sm = {b:1/2, c:1/2} }; \
    %n = {a, b, c} %p = { n = {a->b, b->c:1/2} sm = {c:1/2} }";

const SYMMETRIC: &str = "%p n(v, w) symmetric
%n = {a, b} %p = { n = {a->b, b->a:1/2, a->a:1/2} }; %n = {a, b} %p = { n = {a->b, b->a, a->a:1/2} }";

const DEFINED: &str = "%p x(v) %p n(v, w) %i y(v) = E(w) n(w, v) & x(w)
%n = {a, b} %p = { x = {a} n = {a->b:1/2} y = {b} }; %n = {a, b} %p = { x = {a} n = {a->b:1/2} y = {b} }";

const LIST: &str =
    "%p x(v) unique %p y(v) unique %p n(v, w) function %i t[n](v, w) = n*(v, w) reflexive transitive \
    %i r[n,x](v) = E(w) x(w) & t[n](w, v) %i is[n](v) = E(a, b) n(a, v) & n(b, v) & a != b %i c[n](v) = n+(v, v)
// a head, and a summary for the rest: nothing is to be told
%n = {h, u} %p = { x = {h} n = {h->u:1/2, u->u:1/2} t[n] = {h->h, h->u, u->u:1/2} r[n,x] = {h, u} sm = {u:1/2} \
      }; \
    %n = {h, u} %p = { x = {h} n = {h->u:1/2, u->u:1/2} t[n] = {h->h, h->u, u->u:1/2} r[n,x] = {h, u} \
      sm = {u:1/2} }
// y is the next cell, one alone; nothing leads back to it
%n = {h, u, w} %p = { x = {h} y = {u} r[n,x] = {h, u, w} sm = {u:1/2, w:1/2} \
      n = {h->u, h->w:1/2, u->w:1/2, u->u:1/2, w->w:1/2, w->u:1/2} \
      t[n] = {h->h, h->u, h->w, u->w:1/2, w->u:1/2, u->u:1/2, w->w:1/2} }; \
    %n = {h, u, w} %p = { x = {h} y = {u} r[n,x] = {h, u, w} sm = {w:1/2} n = {h->u, u->w:1/2, w->w:1/2} \
      t[n] = {h->h, h->u, h->w, u->u, u->w:1/2, w->w:1/2} }
// y is one of two cells
%n = {h, u, w} %p = { x = {h} y = {u:1/2, w:1/2} r[n,x] = {h, u, w} sm = {w:1/2} \
      n = {h->u:1/2, h->w:1/2, u->w:1/2, u->u:1/2, w->w:1/2, w->u:1/2} \
      t[n] = {h->h, h->u, h->w, u->w:1/2, w->u:1/2, u->u:1/2, w->w:1/2} }; \
    %n = {h, u, w} %p = { x = {h} y = {u:1/2, w:1/2} r[n,x] = {h, u, w} sm = {w:1/2} \
      n = {h->u:1/2, h->w:1/2, u->u:1/2, u->w:1/2, w->u:1/2, w->w:1/2} \
      t[n] = {h->h, h->u, h->w, u->u, u->w:1/2, w->u:1/2, w->w:1/2} }
// y isn't reached from x
%n = {h, u} %p = { x = {h} y = {u} r[n,x] = {h} sm = {u:1/2} n = {h->u:1/2, h->h:1/2, u->h:1/2, u->u:1/2} \
      t[n] = {h->h:1/2, u->u:1/2} }; \
    %n = {h, u} %p = { x = {h} y = {u} r[n,x] = {h} n = {h->u:1/2, h->h:1/2, u->h:1/2, u->u:1/2} \
      t[n] = {h->h, u->u} }
// y is reached from x, and isn't
%n = {h, u} %p = { x = {h} y = {u} r[n,x] = {h} sm = {u:1/2} n = {h->u:1/2, u->u:1/2} t[n] = {h->h, h->u, u->u} \
      };";

const ROWS: [&str; 13] = [
    OWN,
    PAIRS,
    UNIQUE,
    CONTRADICTION,
    DIFFERENT,
    DIFFERENT_FROM_ITSELF,
    REOPENED,
    CHAIN,
    NOWHERE,
    FUNCTION,
    SYMMETRIC,
    DEFINED,
    LIST,
];

fn is_same(found: &Option<Structure>, wanted: &Structure) -> bool {
    match found {
        None => false,
        Some(s) => s == wanted,
    }
}

/// Whether the structure of a row coerces to what is wanted.
fn is_met(alloc: Global, declared: &str, row: &str) -> Result<bool, Fail> {
    let Some((text, wanted)) = row.split_once(';') else {
        return Ok(false);
    };
    let program = program(alloc, declared, "")?;
    let found = coerced(alloc, &program, &structure(alloc, &program, text)?)?;
    if wanted.is_empty() {
        return Ok(found.is_none());
    }
    Ok(is_same(&found, &structure(alloc, &program, wanted)?))
}

#[test]
fn small_structures_coerce(rt: HostRuntime) -> Result<(), Fail> {
    for text in ROWS {
        let (declared, rows) = text.split_once('\n').ok_or("no rows")?;
        for row in rows.lines() {
            assert!(rt;
                row.starts_with("//") || is_met(rt.alloc(), declared, row)?,
                "{row}"
            );
        }
    }
    Ok(())
}
