//! Pieces of texts.

ghost use Rattle.std.specs.Prelude.{◌≡◌, ◌++◌, ◌≤◌, IfSome, length};

/// What stands behind this text, where it stands in front.
pub fn behind<'a>(bytes: &'a [u8], text: &[u8]) -> Option<&'a [u8]>
    ensures { IfSome result (λ rest. bytes.now ≡ text.now ++ rest.now) }
{
    if bytes.starts_with(text) {
        Some(&bytes[text.len()..])
    } else {
        None
    }
}

fn line_len(bytes: &[u8]) -> usize
    ensures { result ≤ length bytes.now }
{
    bytes.iter().take_while(|b| **b != b'\n').count()
}

/// The bytes from a place on.
pub(crate) fn behind_place(bytes: &[u8], at: usize) -> &[u8] {
    &bytes[at.min(bytes.len())..]
}

/// The first line without its end, and what stands behind it.
pub fn split_line(bytes: &[u8]) -> (&[u8], &[u8]) {
    let (line, rest) = bytes.split_at(line_len(bytes));
    (line, behind_place(rest, 1))
}

fn digits_len(bytes: &[u8]) -> usize
    ensures { result ≤ length bytes.now }
{
    bytes.iter().take_while(|b| b.is_ascii_digit()).count()
}

/// The number in front, and what stands behind it; a large one where it isn't a `u32`.
pub fn take_number(bytes: &[u8]) -> (u64, &[u8]) {
    let (digits, rest) = bytes.split_at(digits_len(bytes));
    let mut n: u64 = 0;
    for digit in digits {
        n = n
            .saturating_mul(10)
            .saturating_add(u64::from(digit.saturating_sub(b'0')));
    }
    (n, rest)
}
