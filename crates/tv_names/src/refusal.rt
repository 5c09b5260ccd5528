//! Why a program is refused.

ghost use Rattle.std.specs.Prelude.{◌≡◌};
ghost use Rattle.tv_names.specs.declared.refusal.ResolveError.TheVariants.{Memory};

use std::alloc::{AllocError, AllocFailed};
use thiserror::Error;

/// Why a flat program has no meaning. The first cause in the order of resolution counts.
#[derive(Clone, Copy, Debug, PartialEq, Eq, Error)]
pub enum ResolveError {
    /// A name that no predicate has, or `isNew` where it isn't allowed.
    #[error("a name that no predicate has")]
    NameUnknown,
    /// A predicate that is declared twice, or one variable twice where variables have to differ.
    #[error("a predicate that is declared twice, or a variable that stands twice")]
    NameTwice,
    /// Another number of arguments or variables than the predicate's, or a property at a wrong arity.
    #[error("another number of variables than the predicate has, or a property at a wrong arity")]
    ArityWrong,
    /// A predicate of more than two variables.
    #[error("a predicate of more than two variables")]
    ArityTooLarge,
    /// `sm`, or `isNew` as the name of a predicate that is declared or updated.
    #[error("a name that is reserved")]
    Reserved,
    /// A variable that is neither bound nor allowed to be free.
    #[error("a variable that is neither bound nor allowed to be free")]
    VariableUnbound,
    /// More than 32 variables in one item.
    #[error("over 32 variables in one item")]
    TooManyVariables,
    /// A second update of one predicate in an action.
    #[error("a second update of one predicate in an action")]
    UpdateTwice,
    /// A definition that rests on itself.
    #[error("a definition that rests on itself")]
    DefinitionCycle,
    /// The head of a rule is none of `0`, an atom, an equality, or the negation of one of the two.
    #[error("the head of a rule is no literal")]
    HeadForm,
    /// `1/2` in a formula.
    #[error("1/2 in a formula")]
    HalfLiteral,
    /// More than 512 predicates, 4,096 nodes or 16,384 edges.
    #[error("over 512 predicates, 4,096 nodes or 16,384 edges")]
    TooMany,
    /// A program without an edge.
    #[error("a program without an edge")]
    NoEdge,
    /// No memory was left.
    #[error("not enough memory")]
    Memory,
}

impl From<AllocError> for ResolveError {
    ghost from_gives = { λ _ e. e ≡ Memory };

    fn from(_e: AllocError) -> ResolveError {
        ResolveError::Memory
    }
}

impl<T: Drop> From<AllocFailed<T>> for ResolveError {
    ghost from_gives = { λ _ e. e ≡ Memory };

    fn from(_e: AllocFailed<T>) -> ResolveError {
        ResolveError::Memory
    }
}
