//! Structures in one line, by example.

use super::reader::program;
use std::alloc::Global;
use std::process::Abort;
use std::test::Fail;
use tv_show::append_line;
use tv_test_reader::structure;

/// A row has a structure and, behind a tab, its line.
static LINES: &str = "\
%n = {} %p = {}\t
%n = {} %p = { b = 1/2 }\t  b?
%n = {u} %p = { b = 1 }\t  (#0)  b
%n = {u} %p = { sm = {u:1/2} }\t  ((#0))
%n = {u, v} %p = { x = {v:1/2} }\t  (#0)  (#1&x?)
%n = {u, v} %p = { x = {u, v} n = {u->v} }\t  (#0&x)-n->(#1)  (#1&x)
%n = {u, v} %p = { x = {u, v:1/2} n = {u->u, v->u:1/2} }\t  (x)-n->(x)  (#1&x?)-n?->(x)
%n = {u, v} %p = { r[n,x] = {v, u} x = {v} m = {u->v} }\t  (#0&r[n,x])-m->(x)  (x&r[n,x])
%n = {u, v} %p = { n = {u->v, v->v} m = {u->u:1/2} t[n] = {u->v} }\t  \
    (#0)-n->(#1)&-m?->(#0)&-t[n]->(#1)  (#1)-n->(#1)
%n = {h, u} %p = { x = {h} n = {h->u:1/2, u->u:1/2} sm = {u:1/2} }\t  (x)-n?->((#1))  ((#1))-n?->((#1))";

/// Whether the structure of a row has the row's line.
fn is_met(alloc: Global, row: &str) -> Result<bool, Fail> {
    let Some((text, expected)) = row.split_once('\t') else {
        return Err(Fail::new("no tab"));
    };
    let program = program(alloc)?;
    let s = structure(alloc, &program, text)?;
    let mut line = Vec::new(alloc);
    append_line(alloc, &mut line, &program.vocab, &s)?;
    Ok(line.as_slice() == expected.as_bytes())
}

#[test]
fn lines_by_example(rt: HostRuntime) -> Result<(), Fail> {
    for row in LINES.lines() {
        assert!(rt; is_met(rt.alloc(), row)?, "{row}");
    }
    Ok(())
}
