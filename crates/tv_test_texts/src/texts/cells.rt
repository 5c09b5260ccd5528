//! Lines of bytes in two cells.
use std::alloc::{AllocError, Global};

/// The bytes in which `;` stands for a line feed.
fn unfolded(alloc: Global, bytes: &[u8]) -> Result<Vec<u8>, AllocError> {
    let mut out = Vec::new(alloc);
    for byte in bytes {
        out.push(if *byte == b';' { b'\n' } else { *byte })?;
    }
    Ok(out)
}

/// What stands before and behind the `$` of a line, in which `;` stands for a line feed.
pub fn cells(alloc: Global, row: &[u8]) -> Result<Option<(Vec<u8>, Vec<u8>)>, AllocError> {
    let mut halves = row.split(|byte| *byte == b'$');
    let (Some(front), Some(behind)) = (halves.next(), halves.next()) else {
        return Ok(None);
    };
    Ok(Some((unfolded(alloc, front)?, unfolded(alloc, behind)?)))
}
