//! Rows of calls.

use crate::call::{CALM, Ending, Outside, called, files_of};
use std::alloc::{AllocError, Global};

/// A call: its words, the files that are held, what happens outside, the exit code, and what both sinks take.
#[derive(Clone, Copy)]
pub struct Row {
    pub name: &'static str,
    pub words: &'static [&'static str],
    pub files: &'static [(&'static str, &'static str)],
    pub outside: Outside<'static>,
    pub code: u8,
    pub out: &'static str,
    pub err: &'static str,
}

/// A row of no words and no files, over files whose pieces have at most seven bytes.
pub const PLAIN: Row = Row {
    name: "",
    words: &[],
    files: &[],
    outside: Outside {
        files_step: 7,
        ..CALM
    },
    code: 0,
    out: "",
    err: "",
};

/// Which part of a call's ending isn't as the row has it.
pub fn wrong_part(alloc: Global, row: &Row) -> Result<Option<&'static str>, AllocError> {
    let files = files_of(alloc, row.files, &row.outside)?;
    let found = called(alloc, row.words, files, &row.outside)?;
    let wanted = Ending {
        code: row.code,
        out: row.out,
        err: row.err,
    };
    Ok(found.wrong_part(&wanted))
}
