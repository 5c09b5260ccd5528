//! Rows without a certain value, in half the room.

ghost use Rattle.std.specs.Prelude.{◌≡◌, ◌≢◌, ◌<◌, ◌+◌, All, length, map, slice_index_or};
ghost use Rattle.std.specs.List.{range_with_len};
ghost use Rattle.std.specs.Cmp.Lexicographic.{slice_cmp};
ghost use Rattle.tv_row.specs.Bits.{value_cmp};
ghost use Rattle.tv_kleene.specs.declared.K3.TheVariants.{No, Yes};

use crate::row::Row;
use crate::word::Word;
use std::cmp::Ordering;
use std::marker::Model;

/// Up to 256 values none of which is `Yes`, seen by contracts as their list: one bit a value.
#[derive(Debug, Drop)]
pub struct HalfRow {
    bits: [u64; 4],
    size: u32,
}

impl Model for HalfRow {
    ghost use Rattle.std.specs.Prelude.{List, map};
    ghost use Rattle.tv_kleene.specs.declared.K3.{K3};
    ghost use Rattle.tv_row.specs.Places.{row_of};
    ghost use Rattle.tv_row.specs.RowForm.{HoldsRow, half_word};

    ghost Value = { List K3 };

    ghost view = { λ h. row_of (map half_word h.bits) h.size 0 };

    ghost invariant = { λ h. HoldsRow (map half_word h.bits) h.size };
}

impl HalfRow {
    /// The values of a row none of which is `Yes`.
    pub fn of(row: &Row) -> HalfRow
        requires { All (λ k. k ≢ Yes) row.now }
        ensures { result ≡ row.now }
    {
        HalfRow {
            bits: [
                row.whole_word(0).possible_bits(),
                row.whole_word(1).possible_bits(),
                row.whole_word(2).possible_bits(),
                row.whole_word(3).possible_bits(),
            ],
            size: row.size(),
        }
    }

    /// A copy: a row of the values that this one has.
    pub fn copied(&self) -> HalfRow
        ensures { result ≡ self.now }
    {
        HalfRow {
            bits: self.bits,
            size: self.size,
        }
    }

    /// The row of these values.
    #[inline(always)]
    pub fn as_row(&self) -> Row
        ensures { result ≡ self.now }
    {
        let words = [
            Word::half(self.bits[0]),
            Word::half(self.bits[1]),
            Word::half(self.bits[2]),
            Word::half(self.bits[3]),
        ];
        Row::held(words, self.size)
    }

    /// The row's values, and one more behind them that is `No`.
    pub fn extended(&self) -> HalfRow
        requires { length self.now < 256 }
        ensures { result ≡ map (λ origin. slice_index_or self.now origin No)
            (range_with_len 0 (length self.now + 1)) }
    {
        HalfRow {
            bits: self.bits,
            size: self.size + 1,
        }
    }

    /// Compares the values, place by place, with No < Half.
    #[inline(always)]
    pub fn compare(&self, other: &HalfRow) -> Ordering
        requires { length self.now ≡ length other.now }
        ensures { result ≡ slice_cmp value_cmp self.now other.now }
    {
        if self.size <= 64 {
            return Word::half(self.bits[0]).compare(Word::half(other.bits[0]));
        }
        self.as_row().compare(&other.as_row())
    }
}
