//! A program of the pointer language: variables that point to cells, and cells whose fields point to cells.

use tv_model::Names;

/// A variable, by its place among those declared.
#[derive(Clone, Copy, Debug, PartialEq, Eq)]
pub struct VarId(pub u32);

/// A field, by its place among those declared.
#[derive(Clone, Copy, Debug, PartialEq, Eq)]
pub struct FieldId(pub u32);

/// A statement that changes a variable or a field; its names stand in the order of the text.
#[derive(Clone, Copy, Debug, PartialEq, Eq)]
pub enum Assign {
    /// `x = null`
    Null(VarId),
    /// `x = new`: a further cell, of which each field is null.
    New(VarId),
    /// `x = y`
    Copy(VarId, VarId),
    /// `x = y->f`
    Load(VarId, VarId, FieldId),
    /// `x->f = y`
    Store(VarId, FieldId, VarId),
    /// `x->f = null`
    Clear(VarId, FieldId),
}

/// What a loop or a choice asks; the flag is true for `==` and false for `!=`.
#[derive(Clone, Copy, Debug, PartialEq, Eq)]
pub enum Test {
    /// `*`: it may go either way.
    Any,
    /// `x == null` or `x != null`
    Null(bool, VarId),
    /// `x == y` or `x != y`
    Same(bool, VarId, VarId),
}

/// A statement.
#[cycle(statement)]
#[derive(Debug, Drop)]
pub enum Statement {
    Assign(Assign),
    /// The first block where the test is true, else the second, which is empty where no `else` stands.
    If(Test, Block, Block),
    /// The block, and again, as long as the test is true.
    While(Test, Block),
}

/// Statements, in the order of the text.
#[cycle(statement)]
#[derive(Debug, Drop)]
pub struct Block {
    pub items: Vec<Statement>,
}

/// A program: the names of its variables and of its fields in the order of their declarations, and its
/// statements.
#[derive(Debug, Drop)]
pub struct Source {
    pub variables: Names,
    pub fields: Names,
    pub body: Block,
}
