//! Each call on files and on sinks fails once.

use crate::call::{PLAIN, Row, wrong_part};
use crate::texts::{PROGRAM, REPORT, SHOWN};
use std::alloc::{AllocError, Global};
use std::test::Fail;

const SHOW: Row<'static, 'static, 'static, 'static> = Row {
    words: &["show", "p", "r"],
    files: &[("p", PROGRAM), ("r", REPORT)],
    out: SHOWN,
    ..PLAIN
};

/// How many calls it takes at least to read the files, seven bytes at once.
fn calls_needed() -> u64 {
    PROGRAM.len().saturating_add(REPORT.len()) as u64 / 7
}

/// How many calls on files there are before none fails that is to fail. None where a call that meets a fault
/// doesn't end in a read fault, or the first that meets none doesn't end as it should.
fn faults_met(alloc: Global) -> Result<Option<u64>, AllocError> {
    for k in 1..1000 {
        let fail = [k];
        let calm = Row {
            files_fail: &fail,
            ..SHOW
        };
        if wrong_part(alloc, &calm)?.is_none() {
            return Ok(Some(k));
        }
        let faulty = Row {
            code: 5,
            out: "",
            err: "tvla-explain: read fault\n",
            ..calm
        };
        if wrong_part(alloc, &faulty)?.is_some() {
            return Ok(None);
        }
    }
    Ok(None)
}

#[test]
fn faults_of_files_are_told(rt: HostRuntime) -> Result<(), Fail> {
    let met = faults_met(rt.alloc())?;
    assert!(rt; met.map_or(false, |calls| calls > calls_needed()));
    Ok(())
}

/// The second call of `out` fails, which `err` is told; and so does that of `err`, which is given no more.
pub static WRITES: [Row<'static, 'static, 'static, 'static>; 3] = [
    Row {
        out_fail: &[2],
        code: 6,
        out: "node L0 st",
        err: "tvla-explain: write fault\n",
        ..SHOW
    },
    Row {
        out_fail: &[2],
        err_fail: &[2],
        code: 6,
        out: "node L0 st",
        err: "tvla-expla",
        ..SHOW
    },
    Row {
        err_fail: &[3],
        code: 6,
        err: "usage: tvla-explain ",
        ..PLAIN
    },
];
