//! Files and their gathered texts, by example.
use super::cells::cells;
use std::alloc::{AllocError, Global};
use std::test::Fail;
use tv_lex::{GatherError, Gathered, MAX_TEXT, gather};
use tv_outside::MemFiles;

/// A line has files, divided by `~`, each with its name in front of `=`, and behind `$` the text of the first
/// one, gathered, or the refusal. `;` stands for a line feed.
static FILES: &[u8] = b"a=$
a=x$x
a=x;$x;
a=;;x\r;$;;x\r;
a=#include \"b\";~b=x$x;
a=#include \"b\"~b=x$x;
a=#include \"b\"\r;~b=x;$x;;
a=#include \"b\"\r~b=x$x;
a=1; \t#\t include\t \"b\" \t\r;2;~b=x$1;x;2;
a=1 #include \"b\";~b=x$1 #include \"b\";
a=#include b;$!IncludeForm
a=#include \"b\" x;$!IncludeForm
a=#include \"\";$!IncludeForm
a=#include \"b;\";$!IncludeForm
a=#includ \"b\";$!IncludeForm
a=#includex \"b\";~b=y$!IncludeForm
a=# include\"b\";~b=y$y;
a=#$!IncludeForm
a=#include \"b\" \r ;$!IncludeForm
a=#include \"b\"\r\r;$!IncludeForm
a=#include \"b\" // c;$!IncludeForm
a=#include \"\xff\";$!IncludeForm
a=#include \"\xc3\xa9\";~\xc3\xa9=x$x;
a=/*;#include \"b\";*/;$/*;#include \"b\";*/;
a=/* x */ /*;#;*/ y;#include \"b\";~b=z$/* x */ /*;#;*/ y;z;
a=/*;*/ #include \"b\";$/*;*/ #include \"b\";
a=/* */;#include \"b\";~b=z$/* */;z;
a=\"/*\";#include \"b\";~b=z$\"/*\";z;
a=\"/*;#include \"b\";~b=z$\"/*;z;
a=// /*;#include \"b\";~b=z$// /*;z;
a=/*/;#;*/;$/*/;#;*/;
a=/* *;/ #;*/$/* *;/ #;*/
a=/* \"*/\";#include \"b\";~b=z$/* \"*/\";z;
a=/* x$!Unended
a=/* x *$!Unended
a=x /*/$!Unended
a=\"/*$\"/*
a=#include \"b\";#;~b=/*$!Unended
a=#;#include \"b\";~b=/*$!IncludeForm
a=#include \"b\";*/;~b=/*$!Unended
a=#include \"b\";#;$!Failed
a=#;#include \"b\";$!IncludeForm
a=#include \"a\";$!IncludeDepth
d/a=#include \"b\";#include \"../c\";~d/b=1~d/../c=2$1;2;
d/a=#include \"e/b\";~d/e/b=#include \"c\";~d/e/c=3$3;;
d/a=#include \"/b\";~/b=#include \"c\";~/c=4$4;;
d/a=#include \"b\";~b=5$!Failed
a=#include \"b\";#include \"b\";~b=x$x;x;
a=#include \"b\";~b=#include \"c\";#include \"c\";~c=x;$x;;x;;;";

/// Files that give seven bytes at a time, and the name of the first.
fn files_of(alloc: Global, text: &[u8], fail: Vec<u64>) -> Result<(MemFiles, String), Fail> {
    let mut names = Vec::new(alloc);
    let mut contents = Vec::new(alloc);
    for part in text.split(|b| *b == b'~') {
        let cut = part.iter().take_while(|b| **b != b'=').count();
        if cut >= part.len() {
            return Err("no name".into());
        }
        let name = String::from_utf8(part[..cut].to_vec(alloc)?)
            .ok()
            .ok_or("no text")?;
        names.push(name)?;
        contents.push(part[cut + 1..].to_vec(alloc)?)?;
    }
    if names.is_empty() || names.len() != contents.len() {
        return Err("no files".into());
    }
    let first = names[0].clone()?;
    Ok((MemFiles::new(names, contents, 7, fail), first))
}

fn shown(alloc: Global, answer: Result<Gathered, GatherError>) -> Result<Vec<u8>, AllocError> {
    let refusal: &[u8] = match answer {
        Ok(gathered) => return Ok(gathered.bytes),
        Err(GatherError::Failed) => b"!Failed",
        Err(GatherError::TooLong) => b"!TooLong",
        Err(GatherError::Unended) => b"!Unended",
        Err(GatherError::IncludeForm) => b"!IncludeForm",
        Err(GatherError::IncludeDepth) => b"!IncludeDepth",
        Err(GatherError::Memory) => b"!Memory",
    };
    Vec::from_slice(alloc, refusal)
}

/// Whether the files of a line have the text behind them.
fn is_met(alloc: Global, row: &[u8]) -> Result<bool, Fail> {
    let Some((text, wanted)) = cells(alloc, row)? else {
        return Ok(false);
    };
    let (mut files, name) = files_of(alloc, text.as_slice(), Vec::new(alloc))?;
    let found = shown(alloc, gather(alloc, &mut files, name.as_str()))?;
    Ok(found.as_slice() == wanted.as_slice())
}

#[test]
fn texts_by_example(rt: HostRuntime) -> Result<(), Fail> {
    for row in FILES.split(|byte| *byte == b'\n') {
        assert!(rt; is_met(rt.alloc(), row)?, "{row:?}");
    }
    Ok(())
}

/// Files `d0`, `d1` and so on, each of which includes the next this many times; the last holds `last`.
fn chain(alloc: Global, count: usize, times: usize, last: &[u8]) -> Result<MemFiles, Fail> {
    let mut names = Vec::new(alloc);
    let mut contents = Vec::new(alloc);
    for i in 0..count {
        names.push(format!(in alloc; "d{i}")?)?;
        let next = i.saturating_add(1);
        let line = format!(in alloc; "#include \"d{next}\"\n")?;
        let mut content = Vec::new(alloc);
        if next < count {
            for _ in 0..times {
                content.extend_from_slice(line.as_bytes())?;
            }
        } else {
            content.extend_from_slice(last)?;
        }
        contents.push(content)?;
    }
    if names.len() != contents.len() {
        return Err("no files".into());
    }
    Ok(MemFiles::new(names, contents, 4096, Vec::new(alloc)))
}

/// How many files there are, how often each includes the next, how long the last is, the refusal, and how
/// long the text is, or what is shown of the refusal.
const DEPTHS: [(usize, usize, usize, &str, usize); 5] = [
    (17, 1, 1, "", 17),
    (18, 1, 1, "!IncludeDepth", 13),
    (2, 1, MAX_TEXT / 2, "", MAX_TEXT / 2 + 1),
    (2, 2, MAX_TEXT / 2, "!TooLong", 8),
    (1, 1, MAX_TEXT + 1, "!TooLong", 8),
];

/// What comes of such files, the last of which holds blanks.
fn gathered(alloc: Global, count: usize, times: usize, size: usize) -> Result<Vec<u8>, Fail> {
    let last = vec![in alloc; b' '; size]?;
    let mut files = chain(alloc, count, times, last.as_slice())?;
    Ok(shown(alloc, gather(alloc, &mut files, "d0"))?)
}

fn is_gathered(
    alloc: Global,
    (count, times, size, refusal, len): (usize, usize, usize, &str, usize),
) -> Result<bool, Fail> {
    let found = gathered(alloc, count, times, size)?;
    let is_refusal = found.starts_with(b"!") != refusal.is_empty();
    Ok(is_refusal && found.starts_with(refusal.as_bytes()) && found.len() == len)
}

#[test]
fn depths_and_lengths_by_example(rt: HostRuntime) -> Result<(), Fail> {
    for row in DEPTHS {
        assert!(rt; is_gathered(rt.alloc(), row)?, "{row:?}");
    }
    Ok(())
}

/// Whether the call of that number is handed on where it fails: one begin and three pieces of `a`, one begin
/// and two pieces of `b`.
fn is_handed_on(alloc: Global, k: u64) -> Result<bool, Fail> {
    let fail = vec![in alloc; k]?;
    let (mut files, name) = files_of(alloc, b"a=#include \"b\"\n~b=x", fail)?;
    let found = shown(alloc, gather(alloc, &mut files, name.as_str()))?;
    let wanted: &[u8] = if k <= 7 { b"!Failed" } else { b"x\n" };
    Ok(found.as_slice() == wanted)
}

fn a_missing_file_fails(alloc: Global) -> Result<bool, Fail> {
    let (mut files, _) = files_of(alloc, b"a=x", Vec::new(alloc))?;
    let found = shown(alloc, gather(alloc, &mut files, "b"))?;
    Ok(found.as_slice() == b"!Failed".as_slice())
}

#[test]
fn each_failing_call_is_handed_on(rt: HostRuntime) -> Result<(), Fail> {
    for k in 1..12 {
        assert!(rt; is_handed_on(rt.alloc(), k)?, "at {k}");
    }
    assert!(rt; a_missing_file_fails(rt.alloc())?);
    Ok(())
}
