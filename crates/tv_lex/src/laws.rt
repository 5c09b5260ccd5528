//! Laws about texts and their tokens. Each function does nothing: its clause is what it shows.
ghost use Rattle.std.specs.Prelude.{◌≡◌, ◌↔◌, ℕ, List, Result, length, Ok, All};
ghost use Rattle.tv_lex.specs.Bytes.{longest_text};
ghost use Rattle.tv_lex.specs.Gather.{longest_gathered, deepest_include};
ghost use Rattle.tv_lex.specs.Include.{include_name, IsIncludeLine};
ghost use Rattle.tv_lex.specs.Comments.{CommentsAgree};
ghost use Rattle.tv_lex.specs.Token.{spec_tokens};
ghost use Rattle.tv_lex.specs.Spaced.{IsToken, Spaced, spaced_text, spaced_tokens};
ghost use Rattle.tv_lex.specs.Pieces.{Reads, AreInOrder};
ghost use Rattle.tv_lex.specs.declared.token.Token.{Token};
ghost use Rattle.tv_lex.specs.declared.token.LexError.{LexError};

/// A text has at most one list of tokens, and none where it is refused, which it is for one reason.
#[tactic(auto, using(crate::proofs::OneReading::one_reading))]
pub fn one_reading()
    ensures { (text : List ℕ) (a b : Result (List Token) LexError) → Reads text a → Reads text b → a ≡ b }
{}

/// The tokens of a text stand in it in order, and none is empty.
#[tactic(auto, using(crate::proofs::PlaceLemmas::reads_order))]
pub fn tokens_in_order()
    ensures { (text : List ℕ) (tokens : List Token) → Reads text (Ok tokens)
        → AreInOrder 0 tokens (length text) }
{}

/// The tokens of a text are tokens of their kinds.
#[tactic(auto, using(crate::proofs::PieceTokens::lexed_tokens))]
pub fn tokens_of_their_kinds()
    ensures { (text : List ℕ) (tokens : List Token) → Reads text (Ok tokens)
        → All IsToken (spec_tokens text tokens) }
{}

/// A text of tokens with a blank behind each is read as these tokens.
pub fn spaced_texts()
    ensures { (parts : List Spaced) → (tokens : List Token)
        × Reads (spaced_text parts) (Ok tokens)
        × (spec_tokens (spaced_text parts) tokens ≡ spaced_tokens parts) }
{}

/// The name that a line includes is read exactly from lines of the form of an include line.
pub fn include_lines()
    ensures { (line name : List ℕ) → (include_name line ≡ Some name) ↔ IsIncludeLine line name }
{}

/// Where a line of a file begins inside a block comment, as includes are looked for, is told by the pieces of
/// its text, on texts that have tokens.
pub fn comments_over_lines()
    ensures { CommentsAgree }
{}

/// The limits on texts, in numbers: a file is at most 16 includes deep, a file and a gathered text have at
/// most 4,194,304 bytes, and a text that is cut into tokens has at most 67,108,864.
pub fn limits_are_told()
    ensures depth { deepest_include ≡ 16 }
    ensures gathered { longest_gathered ≡ 4194304 }
    ensures text { longest_text ≡ 67108864 }
{}
