//! Edges between positions: each statement has one, and each test two.

ghost use Rattle.std.specs.Prelude.{◌≡◌, ◌≤◌, ◌+◌, [], ◌∷◌, ◌++◌, map, true, false, OnOk, IfOk};
ghost use Rattle.tv_model.specs.Program.{action_of};
ghost use Rattle.tv_source.specs.Copies.{block_of, source_of, stmt_of, stmts, test_of};
ghost use Rattle.tv_source.specs.Valid.{AreStmtsOf, IsSource, IsStmtOf};
ghost use Rattle.tv_plang_laws.specs.Compiled.{arcs, block_arcs, entry, program_arcs, test_action};
ghost use Rattle.tv_plang_laws.specs.Positions.{count, count_all};
ghost use Rattle.tv_plang_laws.specs.Positions.{last as meaning_last};
ghost use Rattle.tv_plang.specs.Arcs.{arcs_of};
ghost use Rattle.tv_plang.specs.Limits.{HasFewNames};

use crate::actions::{action_of_assign, action_of_test};
use crate::statements::{size, size_of_block};
use std::alloc::{AllocError, Global};
use tv_model::Action;
use tv_source::{Block, Source, Statement, Test};

/// An edge from one position to another.
#[derive(Drop)]
pub struct Arc {
    pub from: u32,
    pub action: Action,
    pub to: u32,
}

/// Where control enters statements of which the first has this number.
#[tactic(auto, using(crate::proofs::ArcSteps::entered))]
fn entrance(first: u32, statements: &[Statement], behind: u32) -> u32
    ensures { result ≡ entry first (stmts (map stmt_of statements.now)) behind }
{
    if statements.len() == 0 { behind } else { first }
}

fn put_arc(out: &mut Vec<Arc>, from: u32, action: Action, to: u32) -> Result<(), AllocError>
    ensures { OnOk result (arcs_of out.new.items
        ≡ arcs_of out.old.items ++ record { from = from; action = action_of action; to = to } ∷ []) }
{
    out.push(Arc { from, action, to })?;
    Ok(())
}

/// Both edges of a test, the true one first.
fn put_test(
    alloc: Global,
    from: u32,
    test: Test,
    yes: u32,
    otherwise: u32,
    out: &mut Vec<Arc>,
) -> Result<(), AllocError>
    ensures { OnOk result (arcs_of out.new.items
        ≡ arcs_of out.old.items ++ record { from = from; action = test_action true (test_of test); to = yes }
        ∷ record { from = from; action = test_action false (test_of test); to = otherwise } ∷ []) }
{
    put_arc(out, from, action_of_test(alloc, true, test)?, yes)?;
    put_arc(out, from, action_of_test(alloc, false, test)?, otherwise)
}

#[cycle(arcs)]
#[tactic(auto, using(tv_source::proofs::Unfolds::stmt_of_assign, tv_source::proofs::Unfolds::stmt_of_if, tv_source::proofs::Unfolds::stmt_of_while, tv_source::proofs::Unfolds::block_of_items))]
fn put_statement(
    alloc: Global,
    source: &Source,
    number: u32,
    statement: &Statement,
    behind: u32,
    out: &mut Vec<Arc>,
) -> Result<(), AllocError>
    requires few { HasFewNames (source_of source.now) }
    requires declared { IsStmtOf (source_of source.now) (stmt_of statement.now) }
    requires fits { number + count (stmt_of statement.now) ≤ 16384 }
    ensures { OnOk result (arcs_of out.new.items
        ≡ arcs_of out.old.items ++ arcs (source_of source.now) number (stmt_of statement.now) behind) }
{
    match statement {
        Statement::Assign(assign) => {
            let action = action_of_assign(alloc, source, *assign)?;
            put_arc(out, number, action, behind)
        }
        Statement::If(test, then, otherwise) => {
            let first = number + 1;
            let second = first + size_of_block(then) as u32;
            let yes = entrance(first, &then.items, behind);
            let else_entry = entrance(second, &otherwise.items, behind);
            put_test(alloc, number, *test, yes, else_entry, out)?;
            put_block(alloc, source, first, then, behind, out)?;
            put_block(alloc, source, second, otherwise, behind, out)
        }
        Statement::While(test, body) => {
            let first = number + 1;
            let yes = entrance(first, &body.items, number);
            put_test(alloc, number, *test, yes, behind, out)?;
            put_block(alloc, source, first, body, number, out)
        }
    }
}

#[cycle(arcs)]
#[tactic(auto, using(tv_source::proofs::Unfolds::block_of_items))]
fn put_block(
    alloc: Global,
    source: &Source,
    first: u32,
    block: &Block,
    behind: u32,
    out: &mut Vec<Arc>,
) -> Result<(), AllocError>
    requires few { HasFewNames (source_of source.now) }
    requires declared { AreStmtsOf (source_of source.now) (block_of block.now) }
    requires fits { first + count_all (block_of block.now) ≤ 16384 }
    ensures { OnOk result (arcs_of out.new.items
        ≡ arcs_of out.old.items ++ block_arcs (source_of source.now) first (block_of block.now) behind) }
{
    let mut number = first;
    for (place, statement) in block.items.iter().enumerate() {
        let next = number + size(statement) as u32;
        let after = entrance(next, &block.items[place + 1..], behind);
        put_statement(alloc, source, number, statement, after, out)?;
        number = next;
    }
    Ok(())
}

/// The edges of the program, in order.
pub fn arcs_between(alloc: Global, source: &Source, last: u32) -> Result<Vec<Arc>, AllocError>
    requires source { IsSource (source_of source.now) }
    requires few { HasFewNames (source_of source.now) }
    requires last { last ≡ meaning_last (source_of source.now) }
    requires small { last ≤ 16384 }
    ensures { IfOk result (λ all. arcs_of all.items ≡ program_arcs (source_of source.now)) }
{
    let mut out = Vec::new(alloc);
    put_block(alloc, source, 0, &source.body, last, &mut out)?;
    Ok(out)
}
