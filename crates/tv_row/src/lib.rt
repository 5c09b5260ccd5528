//! Truth values side by side, kept as two bits a value: whether it isn't `No`, and whether it is `Yes`.
//!
//! A [`Word`] has 64 values, a [`Row`] up to 256 by value, and [`PackedWords`] are a list of words, which
//! hold the rows of a table, short ones side by side. Contracts see lists of values, and those of packed
//! words which values share a word; none sees bits.
#![tactic(auto)]

mod bits;
mod drawing;
mod flags;
mod half;
mod mixed;
mod packed;
mod row;
mod slices;
mod word;

pub use drawing::Drawing;
pub use flags::Flags;
pub use half::HalfRow;
pub use mixed::mix;
pub use packed::PackedWords;
pub use row::Row;
pub use word::Word;
