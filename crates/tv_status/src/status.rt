//! How a call ends.

ghost use Rattle.std.specs.Prelude.{◌≡◌};
ghost use Rattle.tv_status.specs.Status.{code_of};

use tv_front::ProgramFault;
use tv_lex::{GatherError, LexError, Place};
use tv_listing::Rejection;
use tv_plang::SourceError;
use tv_replay_laws::Why;
use tv_tvs::TvsError;

/// Which of the files of a command.
#[derive(Clone, Copy, Debug, PartialEq, Eq)]
pub enum Role {
    /// The program that is analyzed.
    Program,
    /// The structures that it begins with.
    Initial,
    /// The report that is checked.
    Report,
    /// The heap that a replay begins with.
    Start,
    /// The edges that a replay goes along.
    Trace,
    /// The program of the pointer language that is compiled and analyzed.
    Source,
}

/// What is wrong with a file. Lack of memory and a failed read are no faults of a file: where a reader's
/// own type has a variant for them, the statuses `Memory` and `ReadFault` stand for it.
#[derive(Clone, Copy, Debug, PartialEq, Eq)]
pub enum FileKind {
    /// It has more bytes than are read.
    TooLong,
    /// Its includes can't be put in.
    Gathering(GatherError),
    /// Its bytes make no tokens.
    Lexing(LexError),
    /// It means no program.
    Program(ProgramFault),
    /// It means no structures.
    Structures(TvsError),
    /// It is no report on the program. The place is that of the first token that can't stand there, or of
    /// the part in which the first other condition of a report is broken.
    ReportForm(Place),
    /// It means structures, but not exactly one, or one with a value 1/2 or a summary.
    NotHeap,
    /// It is no trace on the program. The place is that of a token, or of the end of the text.
    TraceForm(Place),
    /// It means no program of the pointer language, or one too large.
    Source(SourceError),
}

/// The program that tells how its call ended.
#[derive(Clone, Copy, Debug, PartialEq, Eq)]
pub enum Teller {
    /// `tvla`.
    Analyzer,
    /// `tvla-explain`.
    Explainer,
}

/// How a call of the whole program ends.
#[derive(Clone, Copy, Debug, PartialEq, Eq)]
pub enum Status {
    /// The job was done, and its text was taken.
    Done,
    /// The report is rejected, and the text that says why was taken.
    Rejected(Rejection),
    /// The replay can't make a step, counted from 1, and the text that says why was taken.
    Stuck { step: u32, why: Why },
    /// The words spell no command.
    Usage,
    /// A file means nothing.
    FileFault(Role, FileKind),
    /// More than so many structures are reached.
    Structures(u64),
    /// A stage of a step has more choices than are followed.
    TooManySplits,
    /// A step makes a structure of too many individuals.
    TooManyIndividuals,
    /// A file could not be read.
    ReadFault,
    /// A text could not be written.
    WriteFault,
    /// Memory ran out.
    Memory,
}

impl Status {
    /// The exit code of the process: 0 for a job that is done, 1 for a rejected report and for a replay that
    /// is stuck, 2 for words that spell no command, 3 for a faulty file, 4 for a budget that is passed, 5 and
    /// 6 for faults of reading and of writing, 7 for lack of memory.
    pub fn code(&self) -> u8
        ensures { result ≡ code_of self.now }
    {
        match self {
            Status::Done => 0,
            Status::Rejected(_) | Status::Stuck { .. } => 1,
            Status::Usage => 2,
            Status::FileFault(_, _) => 3,
            Status::Structures(_) | Status::TooManySplits | Status::TooManyIndividuals => 4,
            Status::ReadFault => 5,
            Status::WriteFault => 6,
            Status::Memory => 7,
        }
    }
}
