//! How many statements there are.

ghost use Rattle.std.specs.Prelude.{◌≡◌, min};
ghost use Rattle.tv_source.specs.Copies.{block_of, stmt_of};
ghost use Rattle.tv_plang_laws.specs.Positions.{count, count_all};

use tv_source::{Block, Statement};

/// How many statements stand there, those in blocks included; a number past `usize::MAX` counts as that.
#[cycle(size)]
#[tactic(auto, using(tv_source::proofs::Unfolds::stmt_of_assign, tv_source::proofs::Unfolds::stmt_of_if, tv_source::proofs::Unfolds::stmt_of_while))]
pub fn size(statement: &Statement) -> usize
    ensures { result ≡ min (count (stmt_of statement.now)) usize.MAX }
{
    match statement {
        Statement::Assign(_) => 1,
        Statement::If(_, then, otherwise) => {
            size_of_block(then)
                .saturating_add(size_of_block(otherwise))
                .saturating_add(1)
        }
        Statement::While(_, body) => size_of_block(body).saturating_add(1),
    }
}

/// How many statements the block has, as `size`.
#[cycle(size)]
#[tactic(auto, using(tv_source::proofs::Unfolds::block_of_items))]
pub fn size_of_block(block: &Block) -> usize
    ensures { result ≡ min (count_all (block_of block.now)) usize.MAX }
{
    let mut total: usize = 0;
    for statement in &block.items {
        total = total.saturating_add(size(statement));
    }
    total
}
