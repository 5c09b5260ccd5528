//! Whole source programs.

ghost use Rattle.std.specs.Prelude.{◌≤◌, length, map, Ok, IfOk, IfErr};
ghost use Rattle.tv_lex.specs.Places.{StopsAtToken};
ghost use Rattle.tv_lex.specs.Bytes.{longest_text};
ghost use Rattle.tv_lex.specs.Token.{spec_tokens};
ghost use Rattle.tv_lex.specs.Pieces.{Reads};
ghost use Rattle.tv_phrases.specs.Refused.{HaveNoTree, syntax_place};
ghost use Rattle.tv_phrases.specs.Reading.{GivesReading};
ghost use Rattle.tv_source_syntax.specs.Copies.{source_of, statement_of};
ghost use Rattle.tv_source_syntax.specs.Depth.{IsTooDeep};
ghost use Rattle.tv_source_syntax.specs.Grammar.{IsSource};
ghost use Rattle.tv_source_syntax.specs.Reading.{source_at, body_at};

use crate::depth::is_too_deep;
use crate::statements::statements;
use crate::tree::{BlockTree, SourceTree};
use crate::words::names_in;
use std::alloc::Global;
use tv_lex::{Token, Tokens, stop_place};
use tv_phrases::{PhraseError, SyntaxError};

// One statement or more, up to the end.
#[tactic(auto, unfolding(crate::specs::Reading::body_at))]
fn body<'a>(alloc: Global, bytes: &[u8], tokens: &'a [Token]) -> Result<BlockTree, PhraseError<'a>>
    ensures { GivesReading (λ x. map (statement_of bytes.now) x.items.items) result
        (body_at (spec_tokens bytes.now tokens.now)) }
{
    let (body, rest) = statements(alloc, bytes, tokens.len() + 1, tokens)?;
    if body.items.is_empty() || !rest.is_empty() {
        return Err(PhraseError::Unexpected(rest));
    }
    Ok(body)
}

#[tactic(auto, using(crate::proofs::Unfolds::block_of_items), unfolding(crate::specs::Reading::source_at))]
fn source<'a>(
    alloc: Global,
    bytes: &[u8],
    tokens: &'a [Token],
) -> Result<SourceTree, PhraseError<'a>>
    ensures { GivesReading (source_of bytes.now) result (source_at (spec_tokens bytes.now tokens.now)) }
{
    let (variables, next) = names_in(alloc, bytes, tokens, b"vars")?;
    let (fields, behind) = names_in(alloc, bytes, next, b"fields")?;
    let body = body(alloc, bytes, behind)?;
    Ok(SourceTree {
        variables,
        fields,
        body,
    })
}

/// The tree of a source program's tokens, which are those of `bytes`. Over 200 parentheses and braces that
/// are open at one place are refused first. The place of a refusal is that of the first token that no
/// continuation of the grammar allows, or of the end of the text. Calls nest as deep as braces are open.
///
/// # Errors
/// `TooDeep`; `Syntax` where the tokens aren't of the grammar; `Memory` where there was none for the tree.
#[tactic(auto, using(tv_lex::proofs::PlaceLemmas::reads_order, crate::proofs::Sources::read_is_source, crate::proofs::Sources::unread_is_none))]
pub fn parse_source(alloc: Global, bytes: &[u8], tokens: &Tokens) -> Result<SourceTree, SyntaxError>
    requires size { length bytes.now ≤ longest_text }
    requires read { Reads bytes.now (Ok tokens.now.list.items) }
    ensures tree { IfOk result
        (λ t. IsSource (spec_tokens bytes.now tokens.now.list.items) (source_of bytes.now t)) }
    ensures low { IfOk result (λ t. ¬ IsTooDeep (spec_tokens bytes.now tokens.now.list.items)) }
    ensures fault { IfErr result
        (HaveNoTree IsTooDeep IsSource (spec_tokens bytes.now tokens.now.list.items)) }
    ensures place { IfErr result (StopsAtToken syntax_place bytes.now tokens.now.list.items) }
{
    if is_too_deep(bytes, &tokens.list) {
        return Err(SyntaxError::TooDeep);
    }
    match source(alloc, bytes, &tokens.list) {
        Ok(tree) => Ok(tree),
        Err(PhraseError::Unexpected(at)) => {
            Err(SyntaxError::Syntax(stop_place(bytes, &tokens.list, at)))
        }
        Err(PhraseError::Memory) => Err(SyntaxError::Memory),
    }
}
