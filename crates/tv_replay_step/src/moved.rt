//! Where a step leads, and why it leads nowhere.

ghost use Rattle.std.specs.Prelude.{◌≡◌};
ghost use Rattle.tv_replay_step.specs.declared.moved.Halt.TheVariants.{Memory};

use std::alloc::AllocError;
use tv_model::PredId;
use tv_replay_laws::Why;
use tv_struct::Structure;

/// Where a step leads: a node, and the heap there.
#[derive(Debug, Drop)]
pub struct Moved {
    pub node: u32,
    /// The heap, as a structure of the values `No` and `Yes` without summaries.
    pub heap: Structure,
    /// The first defined predicate with a given update that isn't so at this step.
    pub broken: Option<PredId>,
}

/// Why a step leads nowhere.
#[derive(Clone, Copy, Debug, PartialEq, Eq)]
pub enum Halt {
    /// It can't be made, for this reason.
    Stuck(Why),
    /// There was no memory for the heap.
    Memory,
}

impl From<AllocError> for Halt {
    ghost from_gives = { λ _ e. e ≡ Memory };

    fn from(_failed: AllocError) -> Halt {
        Halt::Memory
    }
}
