//! Words with numbers.

ghost use Rattle.std.specs.Prelude.{◌≡◌, ◌++◌, OnOk};
ghost use Rattle.tv_file_lines.specs.Numbered.{numbered};

use itoa::Buffer;
use std::alloc::AllocError;

/// Appends a word and a number.
///
/// # Errors
/// Lack of memory.
pub fn append_numbered(out: &mut Vec<u8>, word: &[u8], n: usize) -> Result<(), AllocError>
    ensures { OnOk result (out.new.items ≡ out.old.items ++ numbered word.now n) }
{
    let mut digits = Buffer::new();
    out.extend_from_slice(word)?;
    out.extend_from_slice(digits.format(n).as_bytes())
}
