//! Names to numbers.

ghost use Rattle.std.specs.Prelude.{◌≡◌, ◌<◌, ◌^◌, length};
ghost use Rattle.tv_lex.specs.Token.{text_of};
ghost use Rattle.tv_source.specs.Copies.{assign_of, test_of, stmt_of, block_of};
ghost use Rattle.tv_source_syntax.specs.Copies.{assign_of as assign_text, test_of as test_text};
ghost use Rattle.tv_source_syntax.specs.Copies.{statement_of as statement_text, block_of as block_text};
ghost use Rattle.tv_source_names.specs.Meaning.{numbered, assign_meant, test_meant, statement_meant};
ghost use Rattle.tv_source_names.specs.Meaning.{block_meant};
ghost use Rattle.tv_tree.specs.Names.{names_of};
ghost use Rattle.tv_source_names.specs.Answers.{Answers};
ghost use Rattle.tv_source_names.specs.Scopes.{variables_of, fields_of, HasFew};

use crate::declare::{Declared, number_of};
use crate::error::SourceReadError;
use std::alloc::Global;
use tv_lex::{Token, text};
use tv_source::{Assign, Block, FieldId, Statement, Test, VarId};
use tv_source_syntax::{AssignTree, BlockTree, StatementTree, TestTree};

/// A text, and the names that are declared in it.
#[derive(Debug, Drop)]
pub(crate) struct Scope<'s, 'a> {
    pub bytes: &'a [u8],
    pub variables: &'s Declared<'a>,
    pub fields: &'s Declared<'a>,
}

fn number(names: &Declared<'_>, bytes: &[u8], token: &Token) -> Result<u32, SourceReadError>
    requires { length names.now.keys < 2 ^ 32 }
    ensures { Answers (λ n. n) result (numbered (names_of names.now.keys) (text_of bytes.now token.now)) }
{
    match number_of(names, text(bytes, token)) {
        Some(n) => Ok(n as u32),
        None => Err(SourceReadError::NameUnknown),
    }
}

fn variable(scope: &Scope<'_, '_>, token: &Token) -> Result<VarId, SourceReadError>
    requires { HasFew scope.now }
    ensures { Answers (λ x. x.0) result
        (numbered (variables_of scope.now) (text_of scope.now.bytes.now token.now)) }
{
    let found = number(scope.variables, scope.bytes, token)?;
    Ok(VarId(found))
}

fn field(scope: &Scope<'_, '_>, token: &Token) -> Result<FieldId, SourceReadError>
    requires { HasFew scope.now }
    ensures { Answers (λ x. x.0) result
        (numbered (fields_of scope.now) (text_of scope.now.bytes.now token.now)) }
{
    let found = number(scope.fields, scope.bytes, token)?;
    Ok(FieldId(found))
}

#[tactic(auto, unfolding(crate::specs::Meaning::assign_meant))]
fn assign(scope: &Scope<'_, '_>, tree: &AssignTree) -> Result<Assign, SourceReadError>
    requires { HasFew scope.now }
    ensures { Answers assign_of result (assign_meant (variables_of scope.now) (fields_of scope.now)
        (assign_text scope.now.bytes.now tree.now)) }
{
    match tree {
        AssignTree::Null(x) => Ok(Assign::Null(variable(scope, x)?)),
        AssignTree::New(x) => Ok(Assign::New(variable(scope, x)?)),
        AssignTree::Copy(x, y) => Ok(Assign::Copy(variable(scope, x)?, variable(scope, y)?)),
        AssignTree::Load(x, y, f) => Ok(Assign::Load(
            variable(scope, x)?,
            variable(scope, y)?,
            field(scope, f)?,
        )),
        AssignTree::Store(x, f, y) => Ok(Assign::Store(
            variable(scope, x)?,
            field(scope, f)?,
            variable(scope, y)?,
        )),
        AssignTree::Clear(x, f) => Ok(Assign::Clear(variable(scope, x)?, field(scope, f)?)),
    }
}

#[tactic(auto, unfolding(crate::specs::Meaning::test_meant))]
fn test(scope: &Scope<'_, '_>, tree: &TestTree) -> Result<Test, SourceReadError>
    requires { HasFew scope.now }
    ensures { Answers test_of result
        (test_meant (variables_of scope.now) (fields_of scope.now) (test_text scope.now.bytes.now tree.now)) }
{
    match tree {
        TestTree::Any => Ok(Test::Any),
        TestTree::Null(equal, x) => Ok(Test::Null(*equal, variable(scope, x)?)),
        TestTree::Same(equal, x, y) => {
            Ok(Test::Same(*equal, variable(scope, x)?, variable(scope, y)?))
        }
    }
}

// Calls nest as deep as the tree does.
#[cycle(blocks)]
#[tactic(auto, using(tv_source::proofs::Unfolds::stmt_of_assign, tv_source::proofs::Unfolds::stmt_of_if, tv_source::proofs::Unfolds::stmt_of_while, tv_source_syntax::proofs::Unfolds::statement_of_assign, tv_source_syntax::proofs::Unfolds::statement_of_if, tv_source_syntax::proofs::Unfolds::statement_of_while), unfolding(crate::specs::Meaning::statement_meant))]
fn statement(
    alloc: Global,
    scope: &Scope<'_, '_>,
    tree: &StatementTree,
) -> Result<Statement, SourceReadError>
    requires { HasFew scope.now }
    ensures { Answers stmt_of result (statement_meant (variables_of scope.now) (fields_of scope.now)
        (statement_text scope.now.bytes.now tree.now)) }
{
    match tree {
        StatementTree::Assign(a) => Ok(Statement::Assign(assign(scope, a)?)),
        StatementTree::If(t, body, other) => {
            let test = test(scope, t)?;
            let first = block(alloc, scope, body)?;
            let second = block(alloc, scope, other)?;
            Ok(Statement::If(test, first, second))
        }
        StatementTree::While(t, body) => {
            let test = test(scope, t)?;
            let inner = block(alloc, scope, body)?;
            Ok(Statement::While(test, inner))
        }
    }
}

/// The statements of a block, with numbers for names.
#[cycle(blocks)]
#[tactic(auto, using(tv_source::proofs::Unfolds::block_of_items, tv_source_syntax::proofs::Unfolds::block_of_items, crate::proofs::Blocks::block_fails))]
pub(crate) fn block(
    alloc: Global,
    scope: &Scope<'_, '_>,
    tree: &BlockTree,
) -> Result<Block, SourceReadError>
    requires { HasFew scope.now }
    ensures { Answers block_of result (block_meant (variables_of scope.now) (fields_of scope.now)
        (block_text scope.now.bytes.now tree.now)) }
{
    let mut items = Vec::new(alloc);
    for one in &tree.items {
        let made = statement(alloc, scope, one)?;
        items.push(made)?;
    }
    Ok(Block { items })
}
