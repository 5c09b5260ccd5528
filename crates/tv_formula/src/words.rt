//! Spellings of tokens.

ghost use Rattle.std.specs.Prelude.{◌≡◌, map, IfOk};
ghost use Rattle.std.specs.Option.{option_map};
ghost use Rattle.tv_lex.specs.Token.{text_of, spec_tokens};
ghost use Rattle.tv_tree.specs.Copies.{name_of};
ghost use Rattle.tv_formula.specs.Grammar.{name_form, arrow};

use std::alloc::{AllocError, Global};
use tv_lex::{Token, text};
use tv_phrases::{NamePhrase, after, begins_string};
use tv_tree::trees::{Name, Spelling, Spellings};

/// The bytes of a token.
pub fn spelling(alloc: Global, bytes: &[u8], token: &Token) -> Result<Spelling, AllocError>
    ensures { IfOk result (λ s. s ≡ text_of bytes.now token.now) }
{
    Ok(Spelling(text(bytes, token).to_vec(alloc)?))
}

/// The bytes of each token.
#[tactic(auto, using(crate::proofs::WordLists::spelling_step, crate::proofs::WordLists::spellings_done))]
pub fn spellings(alloc: Global, bytes: &[u8], tokens: &[Token]) -> Result<Spellings, AllocError>
    ensures { IfOk result (λ s. s ≡ map (text_of bytes.now) tokens.now) }
{
    let mut list = Vec::new(alloc);
    for token in tokens {
        list.push(spelling(alloc, bytes, token)?)?;
    }
    Ok(Spellings::from_vec(list))
}

/// The name whose tokens these are.
pub fn name_of_phrase(alloc: Global, bytes: &[u8], phrase: &NamePhrase) -> Result<Name, AllocError>
    ensures { IfOk result (λ n. name_of n
        ≡ name_form (text_of bytes.now phrase.now.first, map (text_of bytes.now) phrase.now.brackets.items)) }
{
    Ok(Name {
        first: spelling(alloc, bytes, &phrase.first)?,
        brackets: spellings(alloc, bytes, &phrase.brackets)?,
    })
}

/// The tokens behind an arrow, where an implication takes it: one that no string stands behind.
#[tactic(auto, unfolding(crate::specs::Grammar::arrow))]
pub(crate) fn arrow<'a>(bytes: &[u8], tokens: &'a [Token]) -> Option<&'a [Token]>
    ensures { option_map (λ rest. spec_tokens bytes.now rest.now) result
        ≡ arrow (spec_tokens bytes.now tokens.now) }
{
    let rest = after(bytes, tokens, b"->")?;
    if begins_string(bytes, rest) {
        None
    } else {
        Some(rest)
    }
}

/// Behind a formula that no continuation follows: the tokens from the first one on that can't stand there.
/// That is the string behind an arrow, since the arrow alone could go on.
pub fn behind_arrow<'a>(bytes: &[u8], tokens: &'a [Token]) -> &'a [Token] {
    match after(bytes, tokens, b"->") {
        Some(rest) if begins_string(bytes, rest) => rest,
        _ => tokens,
    }
}
