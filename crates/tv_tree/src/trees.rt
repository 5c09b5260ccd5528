//! The tree of a program: its terminals are dropped, and its parentheses are kept.

use std::marker::Model;
use tv_model::Items;

/// The bytes of an identifier or a word, or those of a text without its quotes.
#[derive(Drop, Debug)]
pub struct Spelling(pub Vec<u8>);

impl Model for Spelling {
    ghost use Rattle.std.specs.Prelude.{List, ℕ};

    ghost Value = { List ℕ };

    ghost view = { λ s. s.0.items };
}

/// A list of spellings, in the order of the text.
pub type Spellings = Items<Spelling>;

/// The name of a predicate: an identifier, and those in brackets behind it, if there are any.
#[derive(Drop, Debug)]
pub struct Name {
    pub first: Spelling,
    pub brackets: Spellings,
}

/// What is done with a further set of an expression.
#[derive(Clone, Copy, Debug, PartialEq, Eq)]
pub enum SetSign {
    /// Its members are put in.
    Plus,
    /// Its members are taken out.
    Minus,
}

/// A set by itself.
#[cycle(set)]
#[derive(Drop, Debug)]
pub enum SetTerm {
    Named(Spelling),
    Members(Spellings),
    Paren(Box<SetTree>),
}

/// A further set of an expression, and its sign.
#[cycle(set)]
#[derive(Drop, Debug)]
pub struct SetStep {
    pub sign: SetSign,
    pub term: SetTerm,
}

/// An expression for a set of identifiers: its first set, and the others from left to right. These are a
/// list, since a text may have millions of them, and each walk along them is a loop.
#[cycle(set)]
#[derive(Drop, Debug)]
pub struct SetTree {
    pub first: SetTerm,
    pub more: Vec<SetStep>,
}

/// A formula as it is written.
#[derive(Drop, Debug)]
pub enum FormulaTree {
    Zero,
    One,
    Half,
    Same(Spelling, Spelling),
    Differ(Spelling, Spelling),
    Atom(Name, Spellings),
    Star(Name, Spelling, Spelling),
    Plus(Name, Spelling, Spelling),
    Paren(Box<FormulaTree>),
    Not(Box<FormulaTree>),
    And(Box<FormulaTree>, Box<FormulaTree>),
    Or(Box<FormulaTree>, Box<FormulaTree>),
    Imp(Box<FormulaTree>, Box<FormulaTree>),
    Iff(Box<FormulaTree>, Box<FormulaTree>),
    Cond(Box<FormulaTree>, Box<FormulaTree>, Box<FormulaTree>),
    Exists(Spellings, Box<FormulaTree>),
    Forall(Spellings, Box<FormulaTree>),
    Tc {
        from: Spelling,
        to: Spelling,
        left: Spelling,
        right: Spelling,
        body: Box<FormulaTree>,
    },
}

/// A list of formulas, in the order of the text.
pub type FormulaTrees = Items<FormulaTree>;

/// A property word of a predicate's declaration. `Boxed` is spelled `box`, the others as here.
#[derive(Clone, Copy, Debug, PartialEq, Eq)]
pub enum PropWord {
    Unique,
    Function,
    Invfunction,
    Abs,
    Nonabs,
    Transitive,
    Reflexive,
    Symmetric,
    Boxed,
    Pointer,
}

/// A list of property words, in the order of the text.
pub type PropWords = Items<PropWord>;

/// A predicate's declaration: a core predicate where `body` is None, else a defined one.
#[derive(Drop, Debug)]
pub struct PredDecl {
    pub name: Name,
    pub params: Spellings,
    pub body: Option<FormulaTree>,
    pub props: PropWords,
}

/// A rule that each heap meets.
#[derive(Drop, Debug)]
pub struct RuleDecl {
    pub body: FormulaTree,
    pub head: FormulaTree,
}

/// A declaration.
#[cycle(decl)]
#[derive(Drop, Debug)]
pub enum Decl {
    SetDecl {
        name: Spelling,
        members: SetTree,
    },
    Pred(PredDecl),
    Rule(RuleDecl),
    Foreach {
        var: Spelling,
        members: SetTree,
        body: Decls,
    },
}

/// A list of declarations, in the order of the text.
#[cycle(decl)]
#[derive(Drop, Debug)]
pub struct Decls {
    pub items: Vec<Decl>,
}

/// A piece of a caption or a message.
#[derive(Drop, Debug)]
pub enum Piece {
    Text(Spelling),
    Named(Spelling),
}

/// A list of pieces, in the order of the text.
pub type Pieces = Items<Piece>;

/// An update of a predicate, or one for each member of a set.
#[cycle(update)]
#[derive(Drop, Debug)]
pub enum UpdateTree {
    Single {
        name: Name,
        params: Spellings,
        body: FormulaTree,
    },
    Foreach {
        var: Spelling,
        members: SetTree,
        body: UpdateTrees,
    },
}

/// A list of updates, in the order of the text.
#[cycle(update)]
#[derive(Drop, Debug)]
pub struct UpdateTrees {
    pub items: Vec<UpdateTree>,
}

/// A part of an action.
#[derive(Drop, Debug)]
pub enum Part {
    Caption(Pieces),
    Focus(FormulaTrees),
    Pre(FormulaTree),
    Message { cond: FormulaTree, text: Pieces },
    New,
    Retain(FormulaTree),
    Block(UpdateTrees),
}

/// A list of parts, in the order of the text.
pub type Parts = Items<Part>;

/// An action with its parameters.
#[derive(Drop, Debug)]
pub struct ActionTree {
    pub name: Spelling,
    pub params: Spellings,
    pub parts: Parts,
}

/// A list of actions, in the order of the text.
pub type ActionTrees = Items<ActionTree>;

/// An edge of the control graph between two node words. A program may have many, so the words of nodes and
/// actions stay in the text.
#[derive(Drop, Debug)]
pub struct EdgeTree<'a> {
    pub from: &'a [u8],
    pub action: &'a [u8],
    pub arguments: Spellings,
    pub to: &'a [u8],
}

/// A list of edges, in the order of the text.
pub type EdgeTrees<'a> = Items<EdgeTree<'a>>;

/// A program. `tail` has the words behind a third `%%`, and is None where there is none.
#[derive(Drop, Debug)]
pub struct Tree<'a> {
    pub decls: Decls,
    pub actions: ActionTrees,
    pub edges: EdgeTrees<'a>,
    pub tail: Option<Spellings>,
}
