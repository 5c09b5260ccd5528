//! What the options and operands of a line are worth: numbers, modes, how many there are.

ghost use Rattle.std.specs.Prelude.{◌≡◌, ◌≤◌, ◌↔◌, ℕ, Bool, List, [], ◌∷◌, IfSome, IfNone, IsFalse};
ghost use Rattle.tv_model.specs.declared.program.Mode.{Mode};
ghost use Rattle.tv_words.specs.Setup.{told_texts};
ghost use Rattle.tv_words.specs.Words.{IsNumberUpTo, IsMax, recomputes, once, AreUses};

use itoa::Buffer;
use tv_model::Mode;

/// How many structures may be listed where the words don't say.
const DEFAULT_MAX: u64 = 5_000;

/// The greatest number of structures that the words may allow.
const GREATEST_MAX: u64 = 100_000;

/// The greatest number of a made-up program.
pub const GREATEST_DEMO: u64 = 16;

/// The number from 1 to `most` that the word is, without sign or leading zero.
pub fn number_up_to(word: &str, most: u64) -> Option<u64>
    ensures some { IfSome result (IsNumberUpTo most word.now) }
    ensures none { IfNone result ((n : ℕ) → ¬ IsNumberUpTo most word.now n) }
{
    let Ok(number) = word.parse::<u64>() else {
        return None;
    };
    let mut digits = Buffer::new();
    if digits.format(number) == word && 1 <= number && number <= most {
        Some(number)
    } else {
        None
    }
}

/// How many structures may be listed, by the values of `--max-structures`.
pub fn max_of(values: Option<&[&str]>) -> Option<u64>
    ensures some { IfSome result (IsMax (told_texts values.entry)) }
    ensures none { IfNone result ((n : ℕ) → ¬ IsMax (told_texts values.entry) n) }
{
    match values {
        None | Some([]) => Some(DEFAULT_MAX),
        Some([value]) => number_up_to(value, GREATEST_MAX),
        Some(_) => None,
    }
}

/// Whether `--max-structures` has a value.
pub fn has_values(values: Option<&[&str]>) -> bool
    ensures { IsFalse result ↔ (told_texts values.entry ≡ []) }
{
    match values {
        None | Some([]) => false,
        Some(_) => true,
    }
}

/// The mode, by how often `--recompute` stands.
pub fn mode_of(uses: u8) -> Option<Mode>
    ensures some { IfSome result (λ mode. uses ≡ recomputes mode) }
    ensures none { IfNone result (2 ≤ uses) }
{
    match uses {
        0 => Some(Mode::Given),
        1 => Some(Mode::Recompute),
        _ => None,
    }
}

/// Whether an option stands, by how often it does.
pub fn stands(uses: u8) -> Option<bool>
    ensures some { IfSome result (λ it. uses ≡ once it) }
    ensures none { IfNone result (2 ≤ uses) }
{
    match uses {
        0 => Some(false),
        1 => Some(true),
        _ => None,
    }
}

/// The mode, and whether updates are differenced, by how often `--recompute` and `--delta` stand: each once
/// at most, and not together.
pub fn updating(recompute: u8, delta: u8) -> Option<(Mode, bool)>
    ensures some { IfSome result (λ found. AreUses recompute delta found.0 found.1) }
    ensures none { IfNone result ((mode : Mode) (differenced : Bool) → ¬ AreUses recompute delta mode
        differenced) }
{
    match (recompute, delta) {
        (0, 0) => Some((Mode::Given, false)),
        (1, 0) => Some((Mode::Recompute, false)),
        (0, 1) => Some((Mode::Given, true)),
        _ => None,
    }
}

/// The operand, where there is exactly one.
pub fn one<'a>(operands: Option<&[&'a str]>) -> Option<&'a str>
    ensures some { IfSome result (λ word. told_texts operands.entry ≡ word.now ∷ []) }
    ensures none { IfNone result ((a : List ℕ) → ¬ (told_texts operands.entry ≡ a ∷ [])) }
{
    match operands {
        Some([word]) => Some(word),
        _ => None,
    }
}

/// The operands, where there are exactly two.
pub fn two<'a>(operands: Option<&[&'a str]>) -> Option<(&'a str, &'a str)>
    ensures some { IfSome result (λ words. told_texts operands.entry ≡ words.0.now ∷ words.1.now ∷ []) }
    ensures none { IfNone result ((a b : List ℕ) → ¬ (told_texts operands.entry ≡ a ∷ b ∷ [])) }
{
    match operands {
        Some([first, second]) => Some((first, second)),
        _ => None,
    }
}

/// The operands, where there are exactly three.
pub fn three<'a>(operands: Option<&[&'a str]>) -> Option<(&'a str, &'a str, &'a str)>
    ensures some { IfSome result (λ w. told_texts operands.entry ≡ w.0.now ∷ w.1.now ∷ w.2.now ∷ []) }
    ensures none { IfNone result ((a b c : List ℕ) → ¬ (told_texts operands.entry ≡ a ∷ b ∷ c ∷ [])) }
{
    match operands {
        Some([first, second, third]) => Some((first, second, third)),
        _ => None,
    }
}

/// The operands, where there are exactly four.
pub fn four<'a>(operands: Option<&[&'a str]>) -> Option<(&'a str, &'a str, &'a str, &'a str)>
    ensures some { IfSome result (λ w. told_texts operands.entry
        ≡ w.0.now ∷ w.1.now ∷ w.2.now ∷ w.3.now ∷ []) }
    ensures none { IfNone result ((a b c d : List ℕ)
        → ¬ (told_texts operands.entry ≡ a ∷ b ∷ c ∷ d ∷ [])) }
{
    match operands {
        Some([first, second, third, fourth]) => Some((first, second, third, fourth)),
        _ => None,
    }
}

/// The operands, where there are exactly five.
pub fn five<'a>(
    operands: Option<&[&'a str]>,
) -> Option<(&'a str, &'a str, &'a str, &'a str, &'a str)>
    ensures some { IfSome result (λ w. told_texts operands.entry
        ≡ w.0.now ∷ w.1.now ∷ w.2.now ∷ w.3.now ∷ w.4.now ∷ []) }
    ensures none { IfNone result ((a b c d e : List ℕ)
        → ¬ (told_texts operands.entry ≡ a ∷ b ∷ c ∷ d ∷ e ∷ [])) }
{
    match operands {
        Some([first, second, third, fourth, fifth]) => Some((first, second, third, fourth, fifth)),
        _ => None,
    }
}
