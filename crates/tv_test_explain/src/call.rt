//! One call over files and sinks in memory, and how it ends.

use std::alloc::{AllocError, Global};
use tv_explain::explain;
use tv_outside::{MemFiles, MemSink};

/// A call: its words; the files that are held, of which one call gives seven bytes at most; the calls on
/// files and sinks that are to fail, counted from 1; the exit code; and what both sinks take, ten bytes at
/// once.
#[derive(Clone, Copy)]
pub struct Row<'w, 'f, 'o, 'e> {
    pub words: &'w [&'w str],
    pub files: &'w [(&'w str, &'w str)],
    pub files_fail: &'f [u64],
    pub out_fail: &'f [u64],
    pub err_fail: &'f [u64],
    pub code: u8,
    pub out: &'o str,
    pub err: &'e str,
}

/// A row of no words and no files, in which nothing fails.
pub const PLAIN: Row<'static, 'static, 'static, 'static> = Row {
    words: &[],
    files: &[],
    files_fail: &[],
    out_fail: &[],
    err_fail: &[],
    code: 0,
    out: "",
    err: "",
};

fn owned(alloc: Global, words: &[&str]) -> Result<Vec<String>, AllocError> {
    let mut all = Vec::new(alloc);
    for word in words {
        all.push(String::from_str(alloc, word)?)?;
    }
    Ok(all)
}

/// Files by name, each with its text.
fn files_of(alloc: Global, held: &[(&str, &str)], fail: &[u64]) -> Result<MemFiles, AllocError> {
    let mut names = Vec::new(alloc);
    let mut contents = Vec::new(alloc);
    for (name, content) in held {
        names.push(String::from_str(alloc, name)?)?;
        contents.push(Vec::from_slice(alloc, content.as_bytes())?)?;
    }
    Ok(MemFiles::new(names, contents, 7, Vec::from_slice(alloc, fail)?))
}

fn sink(alloc: Global, fail: &[u64]) -> Result<MemSink, AllocError> {
    MemSink::new(alloc, 10, Vec::from_slice(alloc, fail)?, 4096)
}

/// Which part of the call's ending isn't as the row has it: the exit code, what `out` took, or what `err`
/// took.
pub fn wrong_part(
    alloc: Global,
    row: &Row<'_, '_, '_, '_>,
) -> Result<Option<&'static str>, AllocError> {
    let words = owned(alloc, row.words)?;
    let mut files = files_of(alloc, row.files, row.files_fail)?;
    let mut out = sink(alloc, row.out_fail)?;
    let mut err = sink(alloc, row.err_fail)?;
    let code = explain(alloc, &words, &mut files, &mut out, &mut err).code();
    Ok(if code != row.code {
        Some("code")
    } else if out.taken() != row.out.as_bytes() {
        Some("out")
    } else if err.taken() != row.err.as_bytes() {
        Some("err")
    } else {
        None
    })
}

/// Which part of the call with these words, with a blank between them, isn't as the row has it.
pub fn wrong_part_of(
    alloc: Global,
    line: &str,
    row: &Row<'_, '_, '_, '_>,
) -> Result<Option<&'static str>, AllocError> {
    let mut words = Vec::new(alloc);
    for word in line.split(' ') {
        words.push(word)?;
    }
    let asked = Row {
        words: &words,
        ..*row
    };
    wrong_part(alloc, &asked)
}

/// The number of the first row that isn't as its call ends, and which part of it isn't.
pub fn first_wrong(
    alloc: Global,
    rows: &[Row<'_, '_, '_, '_>],
) -> Result<Option<(usize, &'static str)>, AllocError> {
    for (number, row) in rows.iter().enumerate() {
        if let Some(part) = wrong_part(alloc, row)? {
            return Ok(Some((number, part)));
        }
    }
    Ok(None)
}
