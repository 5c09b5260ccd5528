//! Texts of at most eight bytes.

ghost use Rattle.std.specs.Prelude.{◌≡◌, ◌+◌, ◌<◌, ◌≤◌, length, codes};
ghost use Rattle.tv_tvs.specs.Rows.{IsPlaced};

use std::marker::Model;
use std::simd::Simd;

/// A text of at most eight bytes, held in eight, so that it is put down by one store. A contract sees the
/// text.
#[derive(Debug, Drop)]
pub(crate) struct ShortText {
    bytes: [u8; 8],
    size: usize,
}

impl Model for ShortText {
    ghost use Rattle.std.specs.Prelude.{ℕ, List, ◌≤◌, ◌≡◌, length, take};

    ghost Value = { List ℕ };

    ghost view = { λ t. take t.size t.bytes };

    ghost invariant = { λ t. (t.size ≤ 8) × (length t.bytes ≡ 8) };
}

impl ShortText {
    /// The text of these bytes.
    pub fn of(text: &[u8]) -> ShortText
        requires { length text.now ≤ 8 }
        ensures { result ≡ text.now }
    {
        let mut bytes = [0; 8];
        bytes[..text.len()].copy_from_slice(text);
        ShortText {
            bytes,
            size: text.len(),
        }
    }

    /// Puts the text into the room from `at` on, and gives the place behind it. The bytes behind it, up to
    /// eight from `at` on, change.
    #[inline(always)]
    pub fn place(&self, room: &mut [u8], at: usize) -> usize
        requires { at + 8 ≤ length room.old }
        ensures placed { IsPlaced room.old room.new at self.now result }
        ensures short { length self.now ≤ 8 }
    {
        Simd::<u8, 8>::from_array(self.bytes).copy_to_slice(&mut room[at..]);
        at + self.size
    }
}

/// What stands behind the name of an individual whose value is unknown.
#[inline(always)]
pub(crate) fn unknown() -> ShortText
    ensures { result ≡ codes ":1/2, " }
{
    ShortText {
        bytes: [b':', b'1', b'/', b'2', b',', b' ', 0, 0],
        size: 6,
    }
}
