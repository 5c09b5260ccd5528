//! The tree of a source program as it is written. A name is the token that spells it.

use tv_lex::Token;
use tv_model::Items;

/// Names, in the order of the text.
pub type NameTokens = Items<Token>;

/// An assignment. The names stand in the order of the text.
#[derive(Clone, Copy, Debug, PartialEq, Eq)]
pub enum AssignTree {
    /// `x = null`
    Null(Token),
    /// `x = new`
    New(Token),
    /// `x = y`
    Copy(Token, Token),
    /// `x = y->f`
    Load(Token, Token, Token),
    /// `x->f = y`
    Store(Token, Token, Token),
    /// `x->f = null`
    Clear(Token, Token),
}

/// A test. The flag is true for `==`, false for `!=`.
#[derive(Clone, Copy, Debug, PartialEq, Eq)]
pub enum TestTree {
    /// `*`, which may go either way.
    Any,
    /// A variable and `null`.
    Null(bool, Token),
    /// Two variables.
    Same(bool, Token, Token),
}

/// A statement. An `if` without `else` has an empty block there.
#[cycle(statement)]
#[derive(Debug, Drop)]
pub enum StatementTree {
    Assign(AssignTree),
    If(TestTree, BlockTree, BlockTree),
    While(TestTree, BlockTree),
}

/// Statements, in the order of the text.
#[cycle(statement)]
#[derive(Debug, Drop)]
pub struct BlockTree {
    pub items: Vec<StatementTree>,
}

/// A source program: the declared names, and its statements.
#[derive(Debug, Drop)]
pub struct SourceTree {
    pub variables: NameTokens,
    pub fields: NameTokens,
    pub body: BlockTree,
}
