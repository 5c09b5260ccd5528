//! One call over files and sinks in memory, and how it ends.

ghost use Rattle.std.specs.Prelude.{◌≤◌};

use std::alloc::{AllocError, Global};
use tv_outside::{MemFiles, MemSink};
use tv_top::tvla;

/// How many bytes one call outside moves at most, and which calls are to fail, counted from 1.
#[derive(Clone, Copy)]
pub struct Outside<'a> {
    pub files_step: usize,
    pub files_fail: &'a [u64],
    pub sink_step: usize,
    pub out_fail: &'a [u64],
    pub err_fail: &'a [u64],
}

/// Files and sinks that move all at once and never fail.
pub const CALM: Outside<'static> = Outside {
    files_step: 67_108_864,
    files_fail: &[],
    sink_step: 67_108_864,
    out_fail: &[],
    err_fail: &[],
};

/// How a call is to end: its exit code, and what both sinks take.
#[derive(Clone, Copy)]
pub struct Ending<'o, 'e> {
    pub code: u8,
    pub out: &'o str,
    pub err: &'e str,
}

/// How a call ended.
#[derive(Drop)]
pub struct Found {
    pub code: u8,
    pub out: MemSink,
    pub err: MemSink,
}

impl Found {
    /// Which part of the ending isn't the wanted one: the exit code, what `out` took, or what `err` took.
    pub fn wrong_part(&self, wanted: &Ending<'_, '_>) -> Option<&'static str> {
        if self.code != wanted.code {
            Some("code")
        } else if self.out.taken() != wanted.out.as_bytes() {
            Some("out")
        } else if self.err.taken() != wanted.err.as_bytes() {
            Some("err")
        } else {
            None
        }
    }
}

fn owned(alloc: Global, words: &[&str]) -> Result<Vec<String>, AllocError> {
    let mut all = Vec::new(alloc);
    for word in words {
        all.push(String::from_str(alloc, word)?)?;
    }
    Ok(all)
}

/// Files by name, each with its text.
pub fn files_of(
    alloc: Global,
    held: &[(&str, &str)],
    outside: &Outside<'_>,
) -> Result<MemFiles, AllocError> {
    let mut names = Vec::new(alloc);
    let mut contents = Vec::new(alloc);
    for (name, content) in held {
        names.push(String::from_str(alloc, name)?)?;
        contents.push(Vec::from_slice(alloc, content.as_bytes())?)?;
    }
    let fail = Vec::from_slice(alloc, outside.files_fail)?;
    Ok(MemFiles::new(names, contents, outside.files_step.max(1), fail))
}

fn sink(alloc: Global, step: usize, fail: &[u64], room: usize) -> Result<MemSink, AllocError> {
    MemSink::new(alloc, step.max(1), Vec::from_slice(alloc, fail)?, room)
}

/// Calls, and gives how it ended.
pub fn called(
    alloc: Global,
    words: &[&str],
    files: MemFiles,
    outside: &Outside<'_>,
) -> Result<Found, AllocError> {
    let words = owned(alloc, words)?;
    let mut files = files;
    let mut out = sink(alloc, outside.sink_step, outside.out_fail, 16_777_216)?;
    let mut err = sink(alloc, outside.sink_step, outside.err_fail, 4096)?;
    let code = tvla(alloc, &words, &mut files, &mut out, &mut err).code();
    Ok(Found { code, out, err })
}
