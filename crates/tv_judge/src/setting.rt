//! What the tests of a report go by, and why they stop.

ghost use Rattle.std.specs.Prelude.{◌≡◌};
ghost use Rattle.tv_struct.specs.declared.analysis.StageError.TheVariants.{Memory};
ghost use Rattle.tv_judge.specs.declared.setting.Stop.TheVariants.{Stage};

use crate::index::{LinesByItem, PlacesBySignature, Said};
use std::alloc::{AllocError, AllocFailed, Global};
use tv_cover::Targets;
use tv_listing::{Analysis, Rejection};
use tv_model::{Mode, Program};
use tv_struct::{StageError, Structures};

/// A report on a program with initial structures, whether the lines of its items are asked for, the report's
/// lines, where its structures are listed, and the structures of each node.
#[derive(Clone, Copy)]
pub struct Setting<'a, 'b> {
    pub alloc: Global,
    pub program: &'a Program,
    pub mode: Mode,
    pub initial: &'a Structures,
    pub analysis: &'a Analysis,
    pub asked: bool,
    pub lines: &'b LinesByItem<'a>,
    pub said: &'b Said,
    pub places: &'b PlacesBySignature,
    pub targets: &'b [Targets<'a>],
}

/// Why the tests stop: a demand isn't met, or a step has no answer.
#[derive(Debug, Drop)]
pub enum Stop {
    Rejected(Rejection),
    Stage(StageError),
}

impl From<StageError> for Stop {
    ghost from_gives = { λ fault e. e ≡ Stage fault };

    fn from(fault: StageError) -> Stop {
        Stop::Stage(fault)
    }
}

impl From<AllocError> for Stop {
    ghost from_gives = { λ _ e. e ≡ Stage Memory };

    fn from(_error: AllocError) -> Stop {
        Stop::Stage(StageError::Memory)
    }
}

impl<T: Drop> From<AllocFailed<T>> for Stop {
    ghost from_gives = { λ _ e. e ≡ Stage Memory };

    fn from(_error: AllocFailed<T>) -> Stop {
        Stop::Stage(StageError::Memory)
    }
}
