//! The states of a replay, and why there are none.

ghost use Rattle.std.specs.Prelude.{◌≡◌};
ghost use Rattle.tv_replay_laws.specs.declared.state.ReplayError.TheVariants.{Memory};

use std::alloc::{AllocError, AllocFailed};
use thiserror::Error;
use tv_model::{Items, PredId};
use tv_struct::{Numbers, Structure};

/// A structure of a list, by its place, and the least map by which a heap embeds in it.
#[derive(Debug, Drop)]
pub struct ListedCover {
    pub structure: u32,
    pub map: Numbers,
}

/// A state of a run: the node that is reached, the heap there, and what is judged of it.
#[derive(Debug, Drop)]
pub struct State {
    pub node: u32,
    /// The heap, as a structure of the values `No` and `Yes` without summaries.
    pub heap: Structure,
    /// In the first state the first defined predicate that isn't as its definition says; in a later one the
    /// first defined predicate with a given update that isn't so at this step.
    pub broken: Option<PredId>,
    /// The number of the first rule that the heap doesn't meet. Rules are numbered from 0: those of the
    /// properties by predicate, then the declared ones.
    pub rule: Option<u32>,
    /// In the first state the first initial structure in which the heap embeds; none in later ones.
    pub initial: Option<ListedCover>,
    /// The first structure listed at the node in which the heap embeds.
    pub listed: Option<ListedCover>,
}

/// A list of states.
pub type StateList = Items<State>;

/// The states of a run, from the start on.
#[derive(Debug, Drop)]
pub struct States {
    pub list: StateList,
}

/// Why a step can't be made: the first of these that holds.
#[derive(Clone, Copy, Debug, PartialEq, Eq)]
pub enum Why {
    /// The edge doesn't leave the node.
    Edge,
    /// The picks aren't one individual of the heap for each picked variable.
    Picks,
    /// The precondition is false.
    Precondition,
    /// The action adds an individual, and the heap has 256.
    Individuals,
    /// A predicate is freely updated, and there is no structure, or one of another size than the new heap,
    /// or one with an unknown value there.
    Values,
}

/// Why there are no states.
#[derive(Clone, Copy, Debug, PartialEq, Eq, Error)]
pub enum ReplayError {
    /// The step of this number, counted from 1, can't be made.
    #[error("stuck at step {step}")]
    Stuck { step: u32, why: Why },
    /// There was no memory for the states.
    #[error("no memory")]
    Memory,
}

impl From<AllocError> for ReplayError {
    ghost from_gives = { λ _ e. e ≡ Memory };

    fn from(_failed: AllocError) -> ReplayError {
        ReplayError::Memory
    }
}

impl<T: Drop> From<AllocFailed<T>> for ReplayError {
    ghost from_gives = { λ _ e. e ≡ Memory };

    fn from(_failed: AllocFailed<T>) -> ReplayError {
        ReplayError::Memory
    }
}
