//! Programs: declarations, actions, edges and the words behind them.

ghost use Rattle.std.specs.Prelude.{◌≤◌, length, map, Ok, IfOk, IfErr};
ghost use Rattle.tv_lex.specs.Places.{StopsAtToken};
ghost use Rattle.tv_lex.specs.Bytes.{longest_text};
ghost use Rattle.tv_lex.specs.Token.{spec_tokens};
ghost use Rattle.tv_lex.specs.Pieces.{Reads};
ghost use Rattle.tv_phrases.specs.Refused.{HaveNoTree, syntax_place};
ghost use Rattle.tv_phrases.specs.Reading.{GivesReading};
ghost use Rattle.tv_tree.specs.Copies.{action_of, edge_of, program_of};
ghost use Rattle.tv_tree.specs.Spelled.{IsSpelled};
ghost use Rattle.tv_parse.specs.Reading.{edge_reading, actions_reading, edges_reading, tail_reading};
ghost use Rattle.tv_parse.specs.Reading.{program_reading};
ghost use Rattle.tv_parse.specs.Height.{IsTooDeep};
ghost use Rattle.tv_parse.specs.Grammar.{IsProgram};

use crate::actions::action;
use crate::decls::{decls, end_in_formula};
use crate::height::is_too_deep;
use crate::kinds::expect_behind;
use std::alloc::Global;
use tv_formula::spellings;
use tv_lex::{Token, Tokens, stop_place, text};
use tv_phrases::{
    Item, PhraseError, Read, SyntaxError, after, begins_item, begins_with, below, expect,
    identifier, optional_list, params, word,
};
use tv_tree::trees::{ActionTrees, EdgeTree, EdgeTrees, Spellings, Tree};

#[tactic(auto, unfolding(crate::specs::Reading::edge_reading))]
fn edge<'a, 't>(alloc: Global, bytes: &'t [u8], tokens: &'a [Token]) -> Read<'a, EdgeTree<'t>>
    ensures { GivesReading (λ x. (edge_of x.0, spec_tokens bytes.now x.1.now)) result
        (edge_reading (spec_tokens bytes.now tokens.now)) }
{
    let (source, next) = word(bytes, tokens)?;
    let (name, behind) = identifier(bytes, next)?;
    let (words, end) = params(alloc, bytes, behind)?;
    let (target, rest) = word(bytes, end)?;
    let edge = EdgeTree {
        from: text(bytes, &source),
        action: text(bytes, &name),
        arguments: spellings(alloc, bytes, &words)?,
        to: text(bytes, &target),
    };
    Ok((edge, rest))
}

#[tactic(auto, using(tv_phrases::proofs::Repeats::many_end, tv_phrases::proofs::Repeats::many_break, tv_phrases::proofs::Repeats::many_out))]
fn actions<'a>(alloc: Global, bytes: &[u8], tokens: &'a [Token]) -> Read<'a, ActionTrees>
    ensures { GivesReading (λ x. (map action_of x.0, spec_tokens bytes.now x.1.now)) result
        (actions_reading (spec_tokens bytes.now tokens.now)) }
{
    let mut list = Vec::new(alloc);
    let mut left = tokens.len() + 1;
    let mut rest = tokens;
    'actions: loop {
        left = below(left, rest)?;
        if !begins_with(bytes, rest, b"%action") {
            return Ok((ActionTrees::from_vec(list), rest));
        }
        let (one, behind) = action(alloc, bytes, rest)?;
        list.push(one)?;
        rest = behind;
    }
}

#[tactic(auto, using(tv_phrases::proofs::Repeats::many_end, tv_phrases::proofs::Repeats::many_break, tv_phrases::proofs::Repeats::many_out))]
fn edges<'a, 't>(alloc: Global, bytes: &'t [u8], tokens: &'a [Token]) -> Read<'a, EdgeTrees<'t>>
    ensures { GivesReading (λ x. (map edge_of x.0, spec_tokens bytes.now x.1.now)) result
        (edges_reading (spec_tokens bytes.now tokens.now)) }
{
    let mut list = Vec::new(alloc);
    let mut left = tokens.len() + 1;
    let mut rest = tokens;
    'edges: loop {
        left = below(left, rest)?;
        if !begins_item(bytes, rest, Item::Word) {
            return Ok((EdgeTrees::from_vec(list), rest));
        }
        let (one, behind) = edge(alloc, bytes, rest)?;
        list.push(one)?;
        rest = behind;
    }
}

// A third `%%` and the words behind it, up to the end.
#[tactic(auto, unfolding(crate::specs::Reading::tail_reading))]
fn tail<'a>(
    alloc: Global,
    bytes: &[u8],
    tokens: &'a [Token],
) -> Result<Option<Spellings>, PhraseError<'a>>
    ensures { GivesReading (λ x. x) result (tail_reading (spec_tokens bytes.now tokens.now)) }
{
    let Some(behind) = after(bytes, tokens, b"%%") else {
        return if tokens.is_empty() {
            Ok(None)
        } else {
            Err(PhraseError::Unexpected(tokens))
        };
    };
    let (words, rest) = optional_list(alloc, bytes, behind, Item::Word)?;
    if rest.is_empty() {
        Ok(Some(spellings(alloc, bytes, &words)?))
    } else {
        Err(PhraseError::Unexpected(rest))
    }
}

#[tactic(auto, using(tv_tree::proofs::Unfolds::decls_of_items), unfolding(crate::specs::Reading::program_reading))]
fn program<'a, 't>(
    alloc: Global,
    bytes: &'t [u8],
    tokens: &'a [Token],
) -> Result<Tree<'t>, PhraseError<'a>>
    ensures { GivesReading program_of result (program_reading (spec_tokens bytes.now tokens.now)) }
{
    let (list, end) = decls(alloc, bytes, tokens)?;
    let behind = expect_behind(bytes, end, b"%%", end_in_formula(&list))?;
    let (actions, last) = actions(alloc, bytes, behind)?;
    let next = expect(bytes, last, b"%%")?;
    let (edges, rest) = edges(alloc, bytes, next)?;
    let tail = tail(alloc, bytes, rest)?;
    Ok(Tree {
        decls: list,
        actions,
        edges,
        tail,
    })
}

/// The tree of a program's tokens, which are those of `bytes`. Over 200 constructs that are open at one place
/// are refused first. The place of a refusal is that of the first token that no continuation of the grammar
/// allows, or of the end of the text. Calls nest as deep as constructs are open.
#[tactic(auto, using(tv_lex::proofs::PlaceLemmas::reads_order, crate::proofs::ProgramLaws::read_is_program, crate::proofs::ProgramLaws::unread_is_none))]
pub fn parse_program<'t>(
    alloc: Global,
    bytes: &'t [u8],
    tokens: &Tokens,
) -> Result<Tree<'t>, SyntaxError>
    requires size { length bytes.now ≤ longest_text }
    requires read { Reads bytes.now (Ok tokens.now.list.items) }
    ensures tree { IfOk result (λ t. IsProgram (spec_tokens bytes.now tokens.now.list.items) (program_of t)) }
    ensures spelled { IfOk result (λ t. IsSpelled (program_of t)) }
    ensures low { IfOk result (λ t. ¬ IsTooDeep (spec_tokens bytes.now tokens.now.list.items)) }
    ensures fault { IfErr result
        (HaveNoTree IsTooDeep IsProgram (spec_tokens bytes.now tokens.now.list.items)) }
    ensures place { IfErr result (StopsAtToken syntax_place bytes.now tokens.now.list.items) }
{
    if is_too_deep(alloc, bytes, &tokens.list)? {
        return Err(SyntaxError::TooDeep);
    }
    match program(alloc, bytes, &tokens.list) {
        Ok(tree) => Ok(tree),
        Err(PhraseError::Unexpected(at)) => {
            Err(SyntaxError::Syntax(stop_place(bytes, &tokens.list, at)))
        }
        Err(PhraseError::Memory) => Err(SyntaxError::Memory),
    }
}
