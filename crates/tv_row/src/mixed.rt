//! Numbers that equal values share, by mixing their words.

ghost use Rattle.std.specs.Prelude.{◌≡◌, fold};
ghost use Rattle.tv_row.specs.Mixed.{folded, mixed, word_mixed};

use crate::word::Word;

/// The product, its high half laid over its low one, which alone has no trace of high bits in its low ones.
fn fold_product(n: u64, factor: u64) -> u64
    ensures { result ≡ folded n factor }
{
    let product = u128::from(n) * u128::from(factor);
    (product >> 64) as u64 ^ (product % (1 << 64)) as u64
}

/// The number with one more mixed in.
pub fn mix(hash: u64, n: u64) -> u64
    ensures { result ≡ mixed hash n }
{
    fold_product(hash.wrapping_add(n), 11_400_714_819_323_198_485)
}

/// The number with both planes of a word mixed in, as one number.
fn mix_word(hash: u64, word: Word) -> u64
    ensures { result ≡ word_mixed hash word }
{
    let certain = fold_product(word.certain_bits(), 14_181_476_777_654_086_739);
    mix(hash, word.possible_bits().wrapping_add(certain))
}

/// The number with words mixed in, one after the other.
pub fn mix_words(hash: u64, words: &[Word]) -> u64
    ensures { result ≡ fold word_mixed hash words.now }
{
    words.iter().fold(hash, |h, word| mix_word(h, *word))
}
