//! Each call outside fails once, and the next try fails one call later, until none fails.

use crate::call::{ANALYZE, Call, ended, wrong_part};
use crate::list::{LIST_CALL, list_report};
use crate::writer::front;
use std::alloc::{AllocError, Global};
use std::test::Fail;
use tv_test_call::{CALM, Ending, FLIP, FLIP_INITIAL, FLIP_REPORT, Outside};

const ANALYZE_FLIP: Call<'static, 'static, 'static, 'static> = Call {
    program: FLIP,
    initial: FLIP_INITIAL,
    ..ANALYZE
};

const CHECK_FLIP: Call<'static, 'static, 'static, 'static> = Call {
    words: &["check", "p", "i", "r"],
    report: FLIP_REPORT,
    ..ANALYZE_FLIP
};

const READ_FAULT: Ending<'static, 'static> = Ending {
    code: 5,
    out: "",
    err: "tvla: read fault\n",
};

/// Files of which one call gives seven bytes at most, and this one fails.
fn failing_files(fail: &[u64]) -> Outside<'_> {
    Outside {
        files_step: 7,
        files_fail: fail,
        ..CALM
    }
}

/// How many calls of the files there are before none fails that is to fail. None where a call that meets a
/// fault doesn't end in a read fault, or the first that meets none doesn't end as it should.
fn faults_met(
    alloc: Global,
    call: &Call<'_, '_, '_, '_>,
    wanted: &Ending<'_, '_>,
) -> Result<Option<u64>, AllocError> {
    for k in 1..10_000 {
        let found = ended(alloc, call, &failing_files(&[k]))?;
        if found.wrong_part(wanted).is_none() {
            return Ok(Some(k));
        }
        if found.wrong_part(&READ_FAULT).is_some() {
            return Ok(None);
        }
    }
    Ok(None)
}

/// How many calls it takes at least to read the files of a call, seven bytes at once.
fn calls_needed(call: &Call<'_, '_, '_, '_>) -> u64 {
    let mut bytes = call.program.len().saturating_add(call.initial.len());
    for (_, content) in call.more {
        bytes = bytes.saturating_add(content.len());
    }
    bytes as u64 / 7
}

/// Whether each fault of the files is met and told, as long as there are bytes to read.
fn faults_are_told(
    alloc: Global,
    call: &Call<'_, '_, '_, '_>,
    wanted: &Ending<'_, '_>,
) -> Result<bool, AllocError> {
    let met = faults_met(alloc, call, wanted)?;
    Ok(met.map_or(false, |calls| calls > calls_needed(call)))
}

/// A list is analyzed.
fn list_faults_are_told(alloc: Global) -> Result<bool, AllocError> {
    let report = list_report(alloc)?;
    let wanted = Ending {
        code: 0,
        out: report.as_str(),
        err: "",
    };
    faults_are_told(alloc, &LIST_CALL, &wanted)
}

const ACCEPTED: Ending<'static, 'static> = Ending {
    code: 0,
    out: "accepted\n",
    err: "",
};

#[test]
fn faults_of_files_are_told(rt: HostRuntime) -> Result<(), Fail> {
    assert!(rt; list_faults_are_told(rt.alloc())?, "analyze");
    assert!(rt;
        faults_are_told(rt.alloc(), &CHECK_FLIP, &ACCEPTED)?,
        "check"
    );
    Ok(())
}

/// The ending where call k of `out`, which takes ten bytes at once, is to fail: eleven calls take the report.
fn wrong_delivery(alloc: Global, k: u64) -> Result<Option<&'static str>, AllocError> {
    let is_whole = k > 11;
    let taken = front(
        alloc,
        FLIP_REPORT,
        10 * k.saturating_sub(1).min(11) as usize,
    )?;
    let wanted = Ending {
        code: if is_whole { 0 } else { 6 },
        out: taken.as_str(),
        err: if is_whole { "" } else { "tvla: write fault\n" },
    };
    let outside = Outside {
        sink_step: 10,
        out_fail: &[k],
        ..CALM
    };
    wrong_part(alloc, &ANALYZE_FLIP, &outside, &wanted)
}

#[test]
fn faults_of_out_are_told(rt: HostRuntime) -> Result<(), Fail> {
    for k in 1..=12 {
        assert_eq!(rt; wrong_delivery(rt.alloc(), k)?, None, "{k}");
    }
    Ok(())
}

const NO_COMMAND: Call<'static, 'static, 'static, 'static> = Call {
    words: &["frob", "a", "b"],
    ..ANALYZE
};

/// After its failure `err` takes nothing more.
const HALF_TOLD: Ending<'static, 'static> = Ending {
    code: 6,
    out: "",
    err: "usage: tvl",
};

#[test]
fn faults_of_err_are_told(rt: HostRuntime) -> Result<(), Fail> {
    let outside = Outside {
        sink_step: 10,
        err_fail: &[2],
        ..CALM
    };
    assert_eq!(rt;
        wrong_part(rt.alloc(), &NO_COMMAND, &outside, &HALF_TOLD)?,
        None
    );
    Ok(())
}
