//! Deep and long source programs.

use crate::drawn::{answer, read};
use std::alloc::{AllocError, Global};
use std::test::Fail;
use tv_source_names::SourceReadError;

/// A text that stands this often.
fn repeated(alloc: Global, text: &str, count: u32) -> Result<String, AllocError> {
    let mut out = String::new(alloc);
    for _ in 0..count {
        out.push_str(text)?;
    }
    Ok(out)
}

/// What is read of a text of at most 4 MiB.
fn answer_of(alloc: Global, text: &str) -> Result<String, Fail> {
    let bytes = text.as_bytes();
    if bytes.len() > 4_194_304 {
        return Err(Fail::new("too long"));
    }
    answer(alloc, bytes)
}

/// Whether it is answered so to so many loops, each in the one before it.
fn nested(alloc: Global, loops: u32, wanted: &str) -> Result<bool, Fail> {
    let opening = repeated(alloc, "while(*){", loops)?;
    let closing = repeated(alloc, "}", loops)?;
    let text = format!(in alloc; "vars {{x}} fields {{n}} {opening}{closing} x = z")?;
    let found = answer_of(alloc, text.as_str())?;
    Ok(found.as_str() == wanted)
}

/// A front, what stands behind it so often, and what is answered. Where it is too deep, nothing else is
/// looked at.
static DEEP: [(&str, &str, u32, &str); 9] = [
    ("", "(", 200, "1:1"),
    ("", "(", 201, "TooDeep"),
    ("", "{", 201, "TooDeep"),
    ("", "({", 101, "TooDeep"),
    ("", "(} ", 300, "1:1"),
    (")})}", "(", 200, "1:1"),
    (")})}", "(", 201, "TooDeep"),
    ("", "[", 300, "1:1"),
    ("vars {sm, sm} fields {n} ", "{", 201, "TooDeep"),
];

fn agrees(alloc: Global, front: &str, text: &str, count: u32, wanted: &str) -> Result<bool, Fail> {
    let many = repeated(alloc, text, count)?;
    let all = format!(in alloc; "{front}{many}")?;
    let found = answer_of(alloc, all.as_str())?;
    Ok(found.as_str() == wanted)
}

/// The number of the first row that isn't answered as wanted.
fn first_wrong(alloc: Global) -> Result<Option<usize>, Fail> {
    for (i, (front, text, count, wanted)) in DEEP.iter().enumerate() {
        if !agrees(alloc, front, text, *count, wanted)? {
            return Ok(Some(i));
        }
    }
    Ok(None)
}

#[test]
fn depth_comes_first(rt: HostRuntime) -> Result<(), Fail> {
    assert!(rt; nested(rt.alloc(), 200, "NameUnknown")?);
    assert!(rt; nested(rt.alloc(), 201, "TooDeep")?);
    assert_eq!(rt; first_wrong(rt.alloc())?, None);
    Ok(())
}

/// How many statements are read where this stands so often.
fn count(alloc: Global, one: &str, count: u32) -> Result<usize, Fail> {
    let many = repeated(alloc, one, count)?;
    let text = format!(in alloc; "vars {{x, y}} fields {{n}} {many}")?;
    let bytes = text.as_bytes();
    if bytes.len() > 4_194_304 {
        return Err(Fail::new("too long"));
    }
    match read(alloc, bytes)? {
        Ok(source) => Ok(source.body.items.len()),
        Err(SourceReadError::Memory) => Err(Fail::new("no memory")),
        Err(_) => Err(Fail::new("refused")),
    }
}

/// Statements in a row are read in a loop, so calls nest no deeper where there are many of them.
#[test]
fn long_texts_are_read(rt: HostRuntime) -> Result<(), Fail> {
    assert_eq!(rt; count(rt.alloc(), "x=y ", 16_000)?, 16_000);
    Ok(())
}
