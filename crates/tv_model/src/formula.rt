//! First-order formulas with equality and transitive closure, over unary, binary and nullary predicates.

use crate::Items;

/// A predicate of the vocabulary, by its place in declaration order.
#[derive(Clone, Copy, Debug, PartialEq, Eq)]
pub struct PredId(pub u32);

/// A variable of a formula, by number.
#[derive(Clone, Copy, Debug, PartialEq, Eq)]
pub struct Var(pub u8);

/// The arguments of a predicate, in order.
#[derive(Clone, Copy, Debug, PartialEq, Eq)]
pub enum Terms {
    /// None, for a nullary predicate.
    Zero,
    /// One, for a unary predicate.
    One(Var),
    /// Two, for a binary predicate.
    Two(Var, Var),
}

/// A formula of first-order logic with transitive closure.
#[derive(Debug, Drop)]
pub enum Formula {
    /// False.
    Zero,
    /// True.
    One,
    /// The predicate holds of the tuple that the terms stand for.
    Atom(PredId, Terms),
    /// The variable stands for the individual that a step has just added.
    IsNew(Var),
    /// Both variables stand for one individual.
    Same(Var, Var),
    /// Negation.
    Not(Box<Formula>),
    /// Conjunction.
    And(Box<Formula>, Box<Formula>),
    /// Disjunction.
    Or(Box<Formula>, Box<Formula>),
    /// Equivalence.
    Iff(Box<Formula>, Box<Formula>),
    /// The second where the first is true, else the third.
    Cond(Box<Formula>, Box<Formula>, Box<Formula>),
    /// Some individual, put for the variable, makes the body true.
    Exists(Var, Box<Formula>),
    /// Every individual, put for the variable, makes the body true.
    Forall(Var, Box<Formula>),
    /// The transitive closure of `body`, read as a relation from `left` to `right`, relates `from` to
    /// `to`. `left` and `right` are bound in `body` alone.
    Closure {
        from: Var,
        to: Var,
        left: Var,
        right: Var,
        body: Box<Formula>,
    },
}

/// A list of formulas.
pub type Formulas = Items<Formula>;

/// A list of variables.
pub type Vars = Items<Var>;
