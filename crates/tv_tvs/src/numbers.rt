//! Numbers to their decimal texts.

ghost use Rattle.std.specs.Prelude.{◌≡◌, ◌++◌, OnOk, map, codes, decimal};
ghost use Rattle.tv_tvs.specs.Canonical.{comma_text, more_texts};

use itoa::Buffer;
use std::alloc::AllocError;

/// Appends the decimal digits of a number.
pub fn write_number(out: &mut Vec<u8>, n: u64) -> Result<(), AllocError>
    ensures { OnOk result (out.new.items ≡ out.old.items ++ decimal n) }
{
    let mut digits = Buffer::new();
    out.extend_from_slice(digits.format(n).as_bytes())
}

fn write_next_number(out: &mut Vec<u8>, n: u32) -> Result<(), AllocError>
    ensures { OnOk result (out.new.items ≡ out.old.items ++ (codes ", " ++ decimal n)) }
{
    out.extend_from_slice(b", ")?;
    write_number(out, u64::from(n))
}

/// Appends further numbers, each behind a comma.
fn write_next_numbers(out: &mut Vec<u8>, numbers: &[u32]) -> Result<(), AllocError>
    ensures { OnOk result (out.new.items ≡ out.old.items ++ more_texts (map decimal numbers.now)) }
{
    for n in numbers {
        write_next_number(out, *n)?;
    }
    Ok(())
}

/// Appends numbers, with commas between them.
pub fn write_numbers(out: &mut Vec<u8>, numbers: &[u32]) -> Result<(), AllocError>
    ensures { OnOk result (out.new.items ≡ out.old.items ++ comma_text (map decimal numbers.now)) }
{
    match numbers.split_first() {
        None => Ok(()),
        Some((first, others)) => {
            write_number(out, u64::from(*first))?;
            write_next_numbers(out, others)
        }
    }
}
