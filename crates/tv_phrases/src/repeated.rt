//! Parts that stand one after the other.

ghost use Rattle.std.specs.Prelude.{◌≡◌, ℕ, List, Bool, map};
ghost use Rattle.tv_lex.specs.Token.{SpecToken, spec_tokens};
ghost use Rattle.tv_phrases.specs.Reading.{Reading, GivesReading};
ghost use Rattle.tv_phrases.specs.Repeated.{all_of};

use crate::error::{PhraseError, Read};
use std::alloc::Global;
use tv_lex::Token;

/// A part of which any number may stand in a row: a further one is taken exactly where one begins.
pub trait Part<'a>: Sized + Drop {
    /// What a part is a tree of.
    ghost Tree: { Type 0 };

    /// Whether one begins there.
    ghost starts: { List SpecToken → Bool };

    /// The part that stands there, if one does.
    ghost part_at: { List SpecToken → Reading Tree };

    /// The tree of a part that was read from these bytes.
    ghost tree: { List ℕ → Self → Tree };

    /// Whether the first token can begin a part.
    fn begins(bytes: &[u8], tokens: &[Token]) -> bool
        ensures { result ≡ starts (spec_tokens bytes.now tokens.now) };

    /// The part that the tokens begin with, and the tokens behind it.
    fn read(alloc: Global, bytes: &[u8], tokens: &'a [Token]) -> Read<'a, Self>
        ensures { GivesReading (λ x. (tree bytes.now x.0, spec_tokens bytes.now x.1.now)) result
            (part_at (spec_tokens bytes.now tokens.now)) };
}

/// Parts, for as long as one begins, and the tokens behind them.
pub fn all_parts<'a, P: Part<'a>>(
    alloc: Global,
    bytes: &[u8],
    tokens: &'a [Token],
) -> Read<'a, Vec<P>>
    ensures { GivesReading (λ x. (map (P.tree bytes.now) x.0.items, spec_tokens bytes.now x.1.now)) result
        (all_of P.starts P.part_at (spec_tokens bytes.now tokens.now)) }
{
    let mut list = Vec::new(alloc);
    let mut rest = tokens;
    for _ in 0..tokens.len() + 1 {
        if !P::begins(bytes, rest) {
            return Ok((list, rest));
        }
        let (part, behind) = P::read(alloc, bytes, rest)?;
        list.push(part)?;
        rest = behind;
    }
    Err(PhraseError::Unexpected(rest))
}
