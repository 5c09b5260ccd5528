//! Statements, read off the front of tokens. Blocks are gone down into, and statements in a row are a loop.
//! So calls nest as deep as braces are open.

ghost use Rattle.std.specs.Prelude.{◌≡◌, map};
ghost use Rattle.tv_lex.specs.Token.{spec_tokens};
ghost use Rattle.tv_phrases.specs.Reading.{GivesReading};
ghost use Rattle.tv_source_syntax.specs.Copies.{statement_of};
ghost use Rattle.tv_source_syntax.specs.Reading.{begins_statement, lone_at, block_at, else_at, if_at};
ghost use Rattle.tv_source_syntax.specs.Reading.{while_at, closed_at, statement_at, statements};

use crate::assign::assign;
use crate::test::test_in;
use crate::tree::{BlockTree, StatementTree};
use crate::words::begins_name;
use std::alloc::Global;
use tv_lex::Token;
use tv_phrases::{Read, after, begins_with, below, expect};

/// Whether a statement can begin here.
fn begins_statement(bytes: &[u8], tokens: &[Token]) -> bool
    ensures { result ≡ begins_statement (spec_tokens bytes.now tokens.now) }
{
    begins_name(bytes, tokens)
        || begins_with(bytes, tokens, b"if")
        || begins_with(bytes, tokens, b"while")
}

// An assignment by itself.
#[tactic(auto, using(crate::proofs::Unfolds::statement_of_assign), unfolding(crate::specs::Reading::lone_at))]
fn lone<'a>(bytes: &[u8], tokens: &'a [Token]) -> Read<'a, StatementTree>
    ensures { GivesReading (λ x. (statement_of bytes.now x.0, spec_tokens bytes.now x.1.now)) result
        (lone_at (spec_tokens bytes.now tokens.now)) }
{
    let (assign, rest) = assign(bytes, tokens)?;
    Ok((StatementTree::Assign(assign), rest))
}

// Statements in braces.
#[cycle(statements)]
#[tactic(auto, unfolding(crate::specs::Reading::block_at))]
fn block<'a>(alloc: Global, bytes: &[u8], depth: usize, tokens: &'a [Token]) -> Read<'a, BlockTree>
    ensures { GivesReading
        (λ x. (map (statement_of bytes.now) x.0.items.items, spec_tokens bytes.now x.1.now)) result
        (block_at (statements depth) (spec_tokens bytes.now tokens.now)) }
{
    let inside = expect(bytes, tokens, b"{")?;
    let (body, end) = statements(alloc, bytes, depth, inside)?;
    let rest = expect(bytes, end, b"}")?;
    Ok((body, rest))
}

// `else` and a block, or nothing.
#[cycle(statements)]
#[tactic(auto, unfolding(crate::specs::Reading::else_at))]
fn otherwise<'a>(
    alloc: Global,
    bytes: &[u8],
    depth: usize,
    tokens: &'a [Token],
) -> Read<'a, BlockTree>
    ensures { GivesReading
        (λ x. (map (statement_of bytes.now) x.0.items.items, spec_tokens bytes.now x.1.now)) result
        (else_at (statements depth) (spec_tokens bytes.now tokens.now)) }
{
    match after(bytes, tokens, b"else") {
        Some(behind) => block(alloc, bytes, depth, behind),
        None => Ok((
            BlockTree {
                items: Vec::new(alloc),
            },
            tokens,
        )),
    }
}

// Behind `if`.
#[cycle(statements)]
#[tactic(auto, using(crate::proofs::Unfolds::statement_of_if, crate::proofs::Unfolds::block_of_items), unfolding(crate::specs::Reading::if_at))]
fn branch<'a>(
    alloc: Global,
    bytes: &[u8],
    depth: usize,
    tokens: &'a [Token],
) -> Read<'a, StatementTree>
    ensures { GivesReading (λ x. (statement_of bytes.now x.0, spec_tokens bytes.now x.1.now)) result
        (if_at (statements depth) (spec_tokens bytes.now tokens.now)) }
{
    let (test, behind) = test_in(bytes, tokens)?;
    let (body, next) = block(alloc, bytes, depth, behind)?;
    let (other, rest) = otherwise(alloc, bytes, depth, next)?;
    Ok((StatementTree::If(test, body, other), rest))
}

// Behind `while`.
#[cycle(statements)]
#[tactic(auto, using(crate::proofs::Unfolds::statement_of_while, crate::proofs::Unfolds::block_of_items), unfolding(crate::specs::Reading::while_at))]
fn repeat<'a>(
    alloc: Global,
    bytes: &[u8],
    depth: usize,
    tokens: &'a [Token],
) -> Read<'a, StatementTree>
    ensures { GivesReading (λ x. (statement_of bytes.now x.0, spec_tokens bytes.now x.1.now)) result
        (while_at (statements depth) (spec_tokens bytes.now tokens.now)) }
{
    let (test, behind) = test_in(bytes, tokens)?;
    let (body, rest) = block(alloc, bytes, depth, behind)?;
    Ok((StatementTree::While(test, body), rest))
}

// A statement other than an `if`.
#[cycle(statements)]
#[tactic(auto, unfolding(crate::specs::Reading::closed_at))]
fn closed<'a>(
    alloc: Global,
    bytes: &[u8],
    depth: usize,
    tokens: &'a [Token],
) -> Read<'a, StatementTree>
    ensures { GivesReading (λ x. (statement_of bytes.now x.0, spec_tokens bytes.now x.1.now)) result
        (closed_at (statements depth) (spec_tokens bytes.now tokens.now)) }
{
    match after(bytes, tokens, b"while") {
        Some(behind) => repeat(alloc, bytes, depth, behind),
        None => lone(bytes, tokens),
    }
}

#[cycle(statements)]
#[tactic(auto, unfolding(crate::specs::Reading::statement_at))]
fn statement<'a>(
    alloc: Global,
    bytes: &[u8],
    depth: usize,
    tokens: &'a [Token],
) -> Read<'a, StatementTree>
    ensures { GivesReading (λ x. (statement_of bytes.now x.0, spec_tokens bytes.now x.1.now)) result
        (statement_at (statements depth) (spec_tokens bytes.now tokens.now)) }
{
    match after(bytes, tokens, b"if") {
        Some(behind) => branch(alloc, bytes, depth, behind),
        None => closed(alloc, bytes, depth, tokens),
    }
}

/// As many statements as stand here, and the tokens behind them. `depth` is more than the number of tokens.
#[cycle(statements)]
#[tactic(auto, using(crate::proofs::Rows::rows_end, crate::proofs::Rows::rows_break, crate::proofs::Rows::rows_out))]
pub fn statements<'a>(
    alloc: Global,
    bytes: &[u8],
    depth: usize,
    tokens: &'a [Token],
) -> Read<'a, BlockTree>
    ensures { GivesReading
        (λ x. (map (statement_of bytes.now) x.0.items.items, spec_tokens bytes.now x.1.now)) result
        (statements depth (spec_tokens bytes.now tokens.now)) }
{
    let mut items = Vec::new(alloc);
    let mut left = depth;
    let mut rest = tokens;
    'statements: loop {
        left = below(left, rest)?;
        if !begins_statement(bytes, rest) {
            return Ok((BlockTree { items }, rest));
        }
        let (one, behind) = statement(alloc, bytes, left, rest)?;
        items.push(one)?;
        rest = behind;
    }
}
