//! Programs: a vocabulary, rules that every heap of a run meets, and a graph of actions.

use crate::{Bytes, Formula, Formulas, Items, Names, PredId, Terms, Var, Vars};

/// Whether a predicate is free or has a definition.
#[derive(Debug, Drop)]
pub enum Kind {
    /// A core predicate: steps change it by updates alone.
    Core,
    /// An instrumentation predicate: it holds of `vars` exactly where `body` does.
    Defined { vars: Terms, body: Formula },
}

/// Properties that are declared of a predicate; each stands for a rule.
#[derive(Clone, Copy, Debug, PartialEq, Eq)]
pub struct Props {
    pub unique: bool,
    pub function: bool,
    pub invfunction: bool,
    pub transitive: bool,
    pub reflexive: bool,
    pub symmetric: bool,
}

/// No property is declared.
pub const NO_PROPS: Props = Props {
    unique: false,
    function: false,
    invfunction: false,
    transitive: false,
    reflexive: false,
    symmetric: false,
};

/// A predicate of the vocabulary.
#[derive(Debug, Drop)]
pub struct Pred {
    pub name: Bytes,
    /// The number of arguments: 0, 1 or 2.
    pub arity: u8,
    pub kind: Kind,
    /// Whether the abstraction tells individuals apart by this predicate; without effect unless unary.
    pub abs: bool,
    pub props: Props,
}

/// A list of predicates.
pub type Preds = Items<Pred>;

/// The predicates of a program, numbered by their places.
#[derive(Debug, Drop)]
pub struct Vocab {
    pub preds: Preds,
}

/// What a rule demands where its body is true.
#[derive(Clone, Copy, Debug, PartialEq, Eq)]
pub enum Head {
    /// The body is never true.
    Never,
    /// The atom is true; where the flag is false, its negation is.
    Atom(bool, PredId, Terms),
    /// The two variables stand for one individual; where the flag is false, they don't.
    Same(bool, Var, Var),
}

/// An integrity rule: wherever the body is true, so is the head.
#[derive(Debug, Drop)]
pub struct Rule {
    pub body: Formula,
    pub head: Head,
}

/// A list of rules.
pub type Rules = Items<Rule>;

/// What an update does to its predicate.
#[derive(Debug, Drop)]
pub enum Change {
    /// The predicate may hold of any tuples.
    Free,
    /// The predicate holds of the tuples of which the formula was true before.
    To(Formula),
}

/// An update of one predicate; `vars` are the update's own variables.
#[derive(Debug, Drop)]
pub struct Update {
    pub pred: PredId,
    pub vars: Terms,
    pub change: Change,
}

/// A list of updates.
pub type Updates = Items<Update>;

/// Which individuals a step keeps: those of which `keep` is true, put for `var`.
#[derive(Debug, Drop)]
pub struct Retain {
    pub var: Var,
    pub keep: Formula,
}

/// A text that is reported where its condition may be true.
#[derive(Debug, Drop)]
pub struct Message {
    pub cond: Formula,
    pub text: Bytes,
}

/// A list of messages.
pub type Messages = Items<Message>;

/// What an edge of a program does to a heap.
#[derive(Debug, Drop)]
pub struct Action {
    /// The precondition; none is always true.
    pub pre: Option<Formula>,
    /// The free variables of the precondition, in order of first occurrence. A step picks
    /// individuals for them, and the retain formula and the updates may use these.
    pub picks: Vars,
    /// Formulas by which the abstraction splits; without effect on heaps.
    pub focus: Formulas,
    pub messages: Messages,
    /// Whether the step adds one individual.
    pub fresh: bool,
    /// Which individuals the step keeps; none keeps all.
    pub retain: Option<Retain>,
    pub updates: Updates,
}

/// A list of actions.
pub type Actions = Items<Action>;

/// An edge of the program graph: nodes and action by their places.
#[derive(Clone, Copy, Debug, PartialEq, Eq)]
pub struct Edge {
    pub from: u32,
    pub action: u32,
    pub to: u32,
}

/// A list of edges.
pub type Edges = Items<Edge>;

/// A program. Node 0 is the start node.
#[derive(Debug, Drop)]
pub struct Program {
    pub vocab: Vocab,
    pub rules: Rules,
    pub actions: Actions,
    pub edges: Edges,
    /// The names of the nodes, by number.
    pub nodes: Names,
}

/// What is done with an update that is given for a defined predicate.
#[derive(Clone, Copy, Debug, PartialEq, Eq)]
pub enum Mode {
    /// It is taken for the definition's value after the step.
    Given,
    /// It is passed over, and the definition is evaluated anew.
    Recompute,
}
