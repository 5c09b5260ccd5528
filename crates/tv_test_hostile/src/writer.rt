//! Long texts from short ones.

use std::alloc::{AllocError, Global};
use std::ops::Range;

/// A text that stands this often.
pub fn repeated(alloc: Global, text: &str, count: u32) -> Result<String, AllocError> {
    let mut out = String::new(alloc);
    for _ in 0..count {
        out.push_str(text)?;
    }
    Ok(out)
}

/// The first characters of a text.
pub fn front(alloc: Global, text: &str, count: usize) -> Result<String, AllocError> {
    let mut out = String::new(alloc);
    for c in text.chars().take(count) {
        out.push(c)?;
    }
    Ok(out)
}

/// These numbers in order, each between two texts.
pub fn numbered(
    alloc: Global,
    before: &str,
    numbers: Range<u32>,
    behind: &str,
) -> Result<String, AllocError> {
    let mut out = String::new(alloc);
    for n in numbers {
        out.push_str(format!(in alloc; "{before}{n}{behind}")?.as_str())?;
    }
    Ok(out)
}

/// The entries that a predicate holds for those of the individuals that have this bit in their numbers.
fn with_bit(alloc: Global, name: &str, count: u32, bit: u32) -> Result<String, AllocError> {
    let mut out = String::new(alloc);
    for n in 0..count {
        if n.checked_shr(bit).map_or(false, |shifted| shifted % 2 == 1) {
            out.push_str(format!(in alloc; "{name} = {{u{n}}} ")?.as_str())?;
        }
    }
    Ok(out)
}

/// The entries that make individuals differ: the first predicate holds for those with the lowest bit, and so
/// on.
fn values(alloc: Global, names: &[&str], count: u32) -> Result<String, AllocError> {
    let mut out = String::new(alloc);
    let mut bit: u32 = 0;
    for name in names {
        out.push_str(with_bit(alloc, name, count, bit)?.as_str())?;
        bit = bit.saturating_add(1);
    }
    Ok(out)
}

/// The entries that these predicates are unknown for each of the individuals.
fn halves(alloc: Global, names: &[&str], count: u32) -> Result<String, AllocError> {
    let mut out = String::new(alloc);
    for name in names {
        let entry = format!(in alloc; "{name} = {{u")?;
        out.push_str(numbered(alloc, entry.as_str(), 0..count, ":1/2} ")?.as_str())?;
    }
    Ok(out)
}

/// A structure of so many individuals, of which those predicates have definite values that make them differ,
/// and these are unknown.
pub fn crowd(
    alloc: Global,
    count: u32,
    definite: &[&str],
    unknown: &[&str],
) -> Result<String, AllocError> {
    let others = numbered(alloc, ", u", 1..count, "")?;
    let values = values(alloc, definite, count)?;
    let halves = halves(alloc, unknown, count)?;
    format!(in alloc; "%n = {{u0{others}}} %p = {{ {values}{halves}}}")
}
