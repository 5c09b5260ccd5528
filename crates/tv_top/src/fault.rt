//! What the work of a call gives, or why it gives nothing.

ghost use Rattle.std.specs.Prelude.{◌≡◌};
ghost use Rattle.tv_top.specs.Delivery.{status_of};
ghost use Rattle.tv_top.specs.Faults.{fault_of_work, fault_of_stage, fault_of_text};
ghost use Rattle.tv_top.specs.declared.fault.Fault.TheVariants.{Memory};

use std::alloc::AllocError;
use tv_listing::Rejection;
use tv_replay_laws::Why;
use tv_status::{FileKind, Role, Status};
use tv_struct::StageError;
use tv_texts::TextFault;
use tv_work::WorkError;

/// What the work gives: the text for the standard output.
#[derive(Debug, Drop)]
pub enum Answer {
    /// The job was done.
    Done(Vec<u8>),
    /// The report was rejected.
    Rejected(Rejection, Vec<u8>),
    /// The replay can't make this step.
    Stuck(u32, Why, Vec<u8>),
}

/// Why the work gave no text.
#[derive(Clone, Copy, Debug, PartialEq, Eq)]
pub enum Fault {
    /// The words spell no command.
    Usage,
    /// A file means nothing.
    FileFault(Role, FileKind),
    /// There are more than so many structures.
    Structures(u64),
    /// A step splits a structure too often.
    TooManySplits,
    /// A step makes a structure of too many individuals.
    TooManyIndividuals,
    /// A file could not be read.
    ReadFault,
    /// Memory ran out.
    Memory,
}

impl From<Fault> for Status {
    ghost from_gives = { λ fault status. status ≡ status_of fault };

    fn from(fault: Fault) -> Status {
        match fault {
            Fault::Usage => Status::Usage,
            Fault::FileFault(role, kind) => Status::FileFault(role, kind),
            Fault::Structures(max) => Status::Structures(max),
            Fault::TooManySplits => Status::TooManySplits,
            Fault::TooManyIndividuals => Status::TooManyIndividuals,
            Fault::ReadFault => Status::ReadFault,
            Fault::Memory => Status::Memory,
        }
    }
}

impl From<AllocError> for Fault {
    ghost from_gives = { λ _ fault. fault ≡ Memory };

    fn from(_error: AllocError) -> Fault {
        Fault::Memory
    }
}

/// The fault of an analysis, joined or not, that may list so many structures.
pub fn fault_of_work(error: WorkError, max: u64) -> Fault
    ensures { result ≡ fault_of_work max error }
{
    match error {
        WorkError::Structures => Fault::Structures(max),
        WorkError::Splits => Fault::TooManySplits,
        WorkError::Individuals => Fault::TooManyIndividuals,
        WorkError::Memory => Fault::Memory,
    }
}

impl From<StageError> for Fault {
    ghost from_gives = { λ error fault. fault ≡ fault_of_stage error };

    fn from(error: StageError) -> Fault {
        match error {
            StageError::Splits => Fault::TooManySplits,
            StageError::Individuals => Fault::TooManyIndividuals,
            StageError::Memory => Fault::Memory,
        }
    }
}

impl From<TextFault> for Fault {
    ghost from_gives = { λ error fault. fault ≡ fault_of_text error };

    fn from(error: TextFault) -> Fault {
        match error {
            TextFault::Refused(role, kind) => Fault::FileFault(role, kind),
            TextFault::NotRead => Fault::ReadFault,
            TextFault::Memory => Fault::Memory,
        }
    }
}
