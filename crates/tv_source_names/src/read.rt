//! Texts to source programs.

ghost use Rattle.std.specs.Prelude.{◌≡◌, ◌≤◌, ◌<◌, ◌^◌, length, map, Ok, IfOk, IfErr};
ghost use Rattle.tv_lex.specs.Places.{StopsAtToken};
ghost use Rattle.tv_lex.specs.Bytes.{longest_text};
ghost use Rattle.tv_lex.specs.Pieces.{Reads};
ghost use Rattle.tv_lex.specs.Token.{text_of, spec_tokens};
ghost use Rattle.tv_source.specs.Copies.{source_of};
ghost use Rattle.tv_source.specs.Valid.{IsSource};
ghost use Rattle.tv_source_syntax.specs.Copies.{source_of as source_text};
ghost use Rattle.tv_source_syntax.specs.Depth.{IsTooDeep};
ghost use Rattle.tv_source_syntax.specs.Grammar.{IsSource as IsSourceText};
ghost use Rattle.tv_source_names.specs.Answers.{Answers};
ghost use Rattle.tv_source_names.specs.Meaning.{source_meant};
ghost use Rattle.tv_source_names.specs.Outcome.{MeansSource, IsReadCause, reading_place};

use crate::declare::declared;
use crate::error::SourceReadError;
use crate::number::{Scope, block};
use indexmap::IndexSet;
use std::alloc::{AllocError, Global};
use tv_lex::{Token, Tokens, text};
use tv_model::{Bytes, Items, Names};
use tv_phrases::SyntaxError;
use tv_source::Source;
use tv_source_syntax::{SourceTree, parse_source};

fn name(alloc: Global, bytes: &[u8], token: &Token) -> Result<Bytes, AllocError>
    ensures { IfOk result (λ name. name ≡ text_of bytes.now token.now) }
{
    let found = Vec::from_slice(alloc, text(bytes, token))?;
    Ok(Items::from_vec(found))
}

fn names(alloc: Global, bytes: &[u8], tokens: &[Token]) -> Result<Names, AllocError>
    ensures { IfOk result (λ names. names ≡ map (text_of bytes.now) tokens.now) }
{
    let mut list = Vec::new(alloc);
    for token in tokens {
        let found = name(alloc, bytes, token)?;
        list.push(found)?;
    }
    Ok(Items::from_vec(list))
}

/// The program of a tree, whose names are spelled in these bytes.
#[tactic(auto, unfolding(crate::specs::Meaning::source_meant))]
fn program(alloc: Global, bytes: &[u8], tree: &SourceTree) -> Result<Source, SourceReadError>
    requires variables { length tree.now.variables < 2 ^ 32 }
    requires fields { length tree.now.fields < 2 ^ 32 }
    ensures { Answers source_of result (source_meant (source_text bytes.now tree.now)) }
{
    let variable_tokens = tree.variables.as_slice();
    let field_tokens = tree.fields.as_slice();
    let none = IndexSet::new(alloc);
    let variables = declared(alloc, bytes, &none, variable_tokens)?;
    let fields = declared(alloc, bytes, &variables, field_tokens)?;
    let scope = Scope {
        bytes,
        variables: &variables,
        fields: &fields,
    };
    let body = block(alloc, &scope, &tree.body)?;
    Ok(Source {
        variables: names(alloc, bytes, variable_tokens)?,
        fields: names(alloc, bytes, field_tokens)?,
        body,
    })
}

fn tree_of(alloc: Global, bytes: &[u8], tokens: &Tokens) -> Result<SourceTree, SourceReadError>
    requires size { length bytes.now ≤ longest_text }
    requires read { Reads bytes.now (Ok tokens.now.list.items) }
    ensures tree { IfOk result
        (λ t. IsSourceText (spec_tokens bytes.now tokens.now.list.items) (source_text bytes.now t)) }
    ensures low { IfOk result (λ t. ¬ IsTooDeep (spec_tokens bytes.now tokens.now.list.items)) }
    ensures fault { IfErr result (IsReadCause (spec_tokens bytes.now tokens.now.list.items)) }
    ensures place { IfErr result (StopsAtToken reading_place bytes.now tokens.now.list.items) }
{
    match parse_source(alloc, bytes, tokens) {
        Ok(tree) => Ok(tree),
        Err(SyntaxError::TooDeep) => Err(SourceReadError::TooDeep),
        Err(SyntaxError::Syntax(place)) => Err(SourceReadError::Syntax(place)),
        Err(SyntaxError::Memory) => Err(SourceReadError::Memory),
    }
}

/// The source program that a text means. `tokens` are those of `bytes`. Variables and fields are numbered
/// from 0, each in the order of their declarations.
///
/// # Errors
/// `TooDeep` where over 200 parentheses and braces are open at one place. Else `Syntax` where the tokens
/// aren't of the grammar, with the place of the start of a token or of the end of the text. Else, at the
/// first name in the order of the text that may not stand there, `Reserved`, `NameTwice` or `NameUnknown`.
/// `Memory` where there was none for the program.
pub fn read_source(alloc: Global, bytes: &[u8], tokens: &Tokens) -> Result<Source, SourceReadError>
    requires size { length bytes.now ≤ longest_text }
    requires read { Reads bytes.now (Ok tokens.now.list.items) }
    ensures meant { IfOk result
        (λ s. MeansSource (spec_tokens bytes.now tokens.now.list.items) (source_of s)) }
    ensures kept { IfOk result (λ s. IsSource (source_of s)) }
    ensures fault { IfErr result (IsReadCause (spec_tokens bytes.now tokens.now.list.items)) }
    ensures place { IfErr result (StopsAtToken reading_place bytes.now tokens.now.list.items) }
{
    let tree = tree_of(alloc, bytes, tokens)?;
    program(alloc, bytes, &tree)
}
