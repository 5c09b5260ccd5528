//! Laws about phrases. Each function does nothing: its clause is what it shows.

ghost use Rattle.std.specs.Prelude.{◌≡◌, ◌↔◌, ◌<◌, ◌^◌, ℕ, List, true, Some, decimal};
ghost use Rattle.tv_lex.specs.Bytes.{is_word_byte};
ghost use Rattle.tv_lex.specs.Pieces.{IsRunOf};
ghost use Rattle.tv_model.specs.Spelling.{IsIdentifier};
ghost use Rattle.tv_phrases.specs.Tokens.{is_identifier, number_in};

/// The words that the test takes for identifiers are exactly the identifiers.
#[tactic(auto, using(crate::proofs::WordTests::identifiers_pass))]
pub fn identifiers()
    ensures { (w : List ℕ) → (IsRunOf is_word_byte w × (is_identifier w ≡ true)) ↔ IsIdentifier w }
{}

/// A word is read as a number exactly where it is the decimal text of one below 2 ^ 32.
#[tactic(auto, using(crate::proofs::Numerals::numbers_are_decimal))]
pub fn decimal_numbers()
    ensures { (w : List ℕ) (n : ℕ) → (number_in w ≡ Some n) ↔ ((w ≡ decimal n) × (n < 2 ^ 32)) }
{}
