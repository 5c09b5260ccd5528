//! Rows of reading and writing over the versions in memory.
ghost use Rattle.std.specs.Prelude.{◌≤◌};

use std::alloc::{AllocError, Global};
use std::test::Fail;
use tv_outside::{MemFiles, MemSink, read_all, write_all, write_parts};

/// A file with nothing in it, and one with the five bytes `hello`.
fn sample(alloc: Global, step: usize, fail: &[u64]) -> Result<MemFiles, AllocError>
    requires { 1 ≤ step }
{
    let names = vec![in alloc;
        String::from_str(alloc, "empty")?,
        String::from_str(alloc, "greeting")?,
    ]?;
    let bytes = vec![in alloc; vec![in alloc]?, Vec::from_slice(alloc, b"hello")?]?;
    Ok(MemFiles::new(names, bytes, step, Vec::from_slice(alloc, fail)?))
}

fn number(word: Option<&str>) -> Option<usize> {
    word?.parse::<usize>().ok()
}

/// The call that is to fail, if it isn't 0.
fn failing(alloc: Global, call: usize) -> Result<Vec<u64>, AllocError> {
    let mut calls = Vec::new(alloc);
    if call > 0 {
        calls.push(call as u64)?;
    }
    Ok(calls)
}

/// A file; how many bytes a call gives at most, which call fails, and how many bytes may be read; and what is
/// read, behind `=`, or the refusal.
static READS: &str = "greeting 7 0 5 =hello
greeting 5 0 100 =hello
greeting 1 0 5 =hello
greeting 2 8 5 =hello
greeting 7 0 4 TooLong
greeting 1 0 4 TooLong
greeting 7 0 0 TooLong
empty 7 0 0 =
missing 7 0 5 Failed
greeting 7 1 5 Failed
greeting 2 3 5 Failed
greeting 2 5 5 Failed";

#[derive(Clone, Copy)]
struct Row<'a> {
    name: &'a str,
    step: usize,
    fail: usize,
    room: usize,
    wanted: &'a str,
}

fn row_of(line: &str) -> Option<Row<'_>> {
    let mut words = line.split_whitespace();
    Some(Row {
        name: words.next()?,
        step: number(words.next())?,
        fail: number(words.next())?,
        room: number(words.next())?,
        wanted: words.next()?,
    })
}

fn is_read(alloc: Global, line: &str) -> Result<bool, Fail> {
    let Some(row) = row_of(line) else {
        return Ok(false);
    };
    if row.step == 0 || row.room >= 1000 {
        return Ok(false);
    }
    let calls = failing(alloc, row.fail)?;
    let mut files = sample(alloc, row.step, calls.as_slice())?;
    match read_all(alloc, &mut files, row.name, row.room) {
        Ok(found) => match row.wanted.strip_prefix('=') {
            Some(wanted) => Ok(found.as_slice() == wanted.as_bytes()),
            None => Ok(false),
        },
        Err(error) => Ok(format!(in alloc; "{error:?}")?.as_str() == row.wanted),
    }
}

/// What is written; how many bytes a call takes at most, which call fails, and how many bytes the sink has
/// room for; and what it has taken, behind `=`, or behind `!` where the answer is a failure.
static WRITES: &str = "hello 7 0 5 =hello
hello 2 0 100 =hello
hello 2 4 5 =hello
hello 2 3 5 !hell
hello 2 1 5 !
hello 2 0 4 !hell
hello 2 0 3 !hel
hello 2 0 0 !";

fn is_written(alloc: Global, line: &str) -> Result<bool, Fail> {
    let Some(row) = row_of(line) else {
        return Ok(false);
    };
    if row.step == 0 {
        return Ok(false);
    }
    let mut sink = MemSink::new(alloc, row.step, failing(alloc, row.fail)?, row.room)?;
    let is_ok = write_all(&mut sink, row.name.as_bytes()).is_ok();
    match row.wanted.strip_prefix(if is_ok { '=' } else { '!' }) {
        Some(taken) => Ok(sink.taken() == taken.as_bytes()),
        None => Ok(false),
    }
}

fn parts_are_written(alloc: Global) -> Result<bool, Fail> {
    let mut sink = MemSink::new(alloc, 3, vec![in alloc]?, 9)?;
    let is_taken = write_parts(&mut sink, &[b"line", b"", b" 12"]).is_ok();
    let is_failed = write_parts(&mut sink, &[b"3\n", b"4"]).is_err();
    Ok(is_taken && is_failed && sink.taken() == b"line 123\n".as_slice())
}

#[test]
fn files_are_read_and_texts_written(rt: HostRuntime) -> Result<(), Fail> {
    for line in READS.lines() {
        assert!(rt; is_read(rt.alloc(), line)?, "{line}");
    }
    for line in WRITES.lines() {
        assert!(rt; is_written(rt.alloc(), line)?, "{line}");
    }
    assert!(rt; parts_are_written(rt.alloc())?);
    Ok(())
}
