//! Long lists in texts of structures, and texts in one line.

use std::alloc::{AllocError, Global};

/// A list of items in braces behind a name.
pub fn put_list(out: &mut String, name: &str, items: &[String]) -> Result<(), AllocError> {
    out.push_str(name)?;
    out.push_str(" = {")?;
    for (i, item) in items.iter().enumerate() {
        out.push_str(if i == 0 { "" } else { ", " })?;
        out.push_str(item.as_str())?;
    }
    out.push_str("} ")
}

/// So many individuals, `u0` and on, each with the value behind it.
pub fn individuals(alloc: Global, size: u32, value: &str) -> Result<Vec<String>, AllocError> {
    let mut items = Vec::new(alloc);
    for u in 0..size {
        items.push(format!(in alloc; "u{u}{value}")?)?;
    }
    Ok(items)
}

/// The text in which `;` stands for a line feed.
pub fn unfolded(alloc: Global, text: &str) -> Result<Vec<u8>, AllocError> {
    let mut out = Vec::new(alloc);
    for byte in text.as_bytes() {
        out.push(if *byte == b';' { b'\n' } else { *byte })?;
    }
    Ok(out)
}
