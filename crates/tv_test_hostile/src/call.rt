//! One call over files and sinks in memory, and how it ends.

use std::alloc::{AllocError, Global};
use tv_test_call::{Ending, Found, Outside, called, files_of};

/// The words of a call; the texts of the files `p`, `i` and `r`; and further files, by name.
#[derive(Clone, Copy)]
pub struct Call<'w, 'p, 'i, 'r> {
    pub words: &'w [&'w str],
    pub program: &'p str,
    pub initial: &'i str,
    pub report: &'r str,
    pub more: &'static [(&'static str, &'static str)],
}

/// An analysis of two empty texts.
pub const ANALYZE: Call<'static, 'static, 'static, 'static> = Call {
    words: &["analyze", "p", "i"],
    program: "",
    initial: "",
    report: "",
    more: &[],
};

/// Calls, and gives how it ended.
pub fn ended(
    alloc: Global,
    call: &Call<'_, '_, '_, '_>,
    outside: &Outside<'_>,
) -> Result<Found, AllocError> {
    let mut held = Vec::new(alloc);
    held.push(("p", call.program))?;
    held.push(("i", call.initial))?;
    held.push(("r", call.report))?;
    for more in call.more {
        held.push(*more)?;
    }
    called(alloc, call.words, files_of(alloc, &held, outside)?, outside)
}

/// Which part of a call's ending isn't the wanted one.
pub fn wrong_part(
    alloc: Global,
    call: &Call<'_, '_, '_, '_>,
    outside: &Outside<'_>,
    wanted: &Ending<'_, '_>,
) -> Result<Option<&'static str>, AllocError> {
    Ok(ended(alloc, call, outside)?.wrong_part(wanted))
}
