//! The texts of rows of values.

ghost use Rattle.std.specs.Prelude.{◌≡◌, ◌+◌, ◌<◌, ◌≤◌, length, take};
ghost use Rattle.tv_row.specs.Bits.{is_certain};
ghost use Rattle.tv_tvs.specs.Rows.{word_text};

use crate::individuals::Individuals;
use crate::short::ShortText;
use tv_kleene::K3;
use tv_row::Word;

/// How much room the text of a word of values may take.
pub(crate) const ROOM: usize = 1536;

#[inline(always)]
fn is_yes(k: K3) -> bool
    ensures { result ≡ is_certain k }
{
    match k {
        K3::Yes => true,
        K3::No | K3::Half => false,
    }
}

/// Puts down those of 64 individuals from `first` on whose values aren't `No`, each behind the prefix, with
/// the value. Gives how many bytes that are.
pub(crate) fn place_word(
    room: &mut [u8],
    names: &Individuals,
    prefix: &ShortText,
    first: u32,
    values: Word,
) -> usize
    requires room { 1536 ≤ length room.old }
    requires individuals { first + 64 ≤ 256 }
    ensures text { take result room.new ≡ word_text prefix.now first values }
    ensures within { result ≤ 1536 }
    ensures fits { result ≤ length room.new }
    ensures length { length room.new ≡ length room.old }
{
    let mut end = 0;
    let mut from = 0;
    while let Some(i) = values.first_possible(from) {
        let known = is_yes(values.get(i));
        let last = prefix.place(room, end);
        end = names.place_last(room, last, first + i, known);
        from = i + 1;
    }
    end
}
