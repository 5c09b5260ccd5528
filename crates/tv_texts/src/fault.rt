//! Why a text or a file means nothing.

ghost use Rattle.std.specs.Prelude.{◌≡◌};
ghost use Rattle.tv_front.specs.Meaning.{is_memory};
ghost use Rattle.tv_texts.specs.Faults.{fault_of_gathering, fault_of_program, fault_of_reading};
ghost use Rattle.tv_texts.specs.Faults.{fault_of_lexing, fault_of_structures, fault_of_report};
ghost use Rattle.tv_texts.specs.Faults.{fault_of_trace, fault_of_source};

use thiserror::Error;
use tv_expand::ExpandError;
use tv_front::ProgramFault;
use tv_lex::{GatherError, LexError};
use tv_names::ResolveError;
use tv_outside::ReadError;
use tv_phrases::{FormError, SyntaxError};
use tv_plang::SourceError;
use tv_status::{FileKind, Role};
use tv_tvs::TvsError;

/// Why a text or a file gave nothing.
#[derive(Clone, Copy, Debug, PartialEq, Eq, Error)]
pub enum TextFault {
    /// The file of this role means nothing.
    #[error("the file of a role means nothing: {1:?}")]
    Refused(Role, FileKind),
    /// A call of the files failed.
    #[error("a call of the files failed")]
    NotRead,
    /// Memory ran out.
    #[error("out of memory")]
    Memory,
}

impl From<GatherError> for TextFault {
    ghost from_gives = { λ error fault. fault ≡ fault_of_gathering error };

    fn from(error: GatherError) -> TextFault {
        match error {
            GatherError::Failed => TextFault::NotRead,
            GatherError::Memory => TextFault::Memory,
            _ => TextFault::Refused(Role::Program, FileKind::Gathering(error)),
        }
    }
}

/// Whether memory ran out where a program was read.
fn is_want_of_memory(fault: ProgramFault) -> bool
    ensures { result ≡ is_memory fault }
{
    match fault {
        ProgramFault::Lexing(LexError::Memory) => true,
        ProgramFault::Parsing(SyntaxError::Memory) => true,
        ProgramFault::Expansion(ExpandError::Memory) => true,
        ProgramFault::Resolution(ResolveError::Memory) => true,
        _ => false,
    }
}

impl From<ProgramFault> for TextFault {
    ghost from_gives = { λ error fault. fault ≡ fault_of_program error };

    fn from(error: ProgramFault) -> TextFault {
        if is_want_of_memory(error) {
            TextFault::Memory
        } else {
            TextFault::Refused(Role::Program, FileKind::Program(error))
        }
    }
}

/// The fault of a file of this role whose tokens mean no structures.
pub(crate) fn fault_of_structures(error: TvsError, role: Role) -> TextFault
    ensures { result ≡ fault_of_structures role error }
{
    match error {
        TvsError::Memory => TextFault::Memory,
        _ => TextFault::Refused(role, FileKind::Structures(error)),
    }
}

impl From<SourceError> for TextFault {
    ghost from_gives = { λ error fault. fault ≡ fault_of_source error };

    fn from(error: SourceError) -> TextFault {
        match error {
            SourceError::Memory => TextFault::Memory,
            _ => TextFault::Refused(Role::Source, FileKind::Source(error)),
        }
    }
}

/// The fault of a file whose tokens are no report.
pub(crate) fn fault_of_report(error: FormError) -> TextFault
    ensures { result ≡ fault_of_report error }
{
    match error {
        FormError::Form(place) => TextFault::Refused(Role::Report, FileKind::ReportForm(place)),
        FormError::Memory => TextFault::Memory,
    }
}

/// The fault of a file whose tokens are no trace.
pub(crate) fn fault_of_trace(error: FormError) -> TextFault
    ensures { result ≡ fault_of_trace error }
{
    match error {
        FormError::Form(place) => TextFault::Refused(Role::Trace, FileKind::TraceForm(place)),
        FormError::Memory => TextFault::Memory,
    }
}

/// The fault of a file of this role that wasn't read.
pub(crate) fn fault_of_reading(error: ReadError, role: Role) -> TextFault
    ensures { result ≡ fault_of_reading role error }
{
    match error {
        ReadError::Failed => TextFault::NotRead,
        ReadError::TooLong => TextFault::Refused(role, FileKind::TooLong),
        ReadError::Memory => TextFault::Memory,
    }
}

/// The fault of a file of this role whose bytes make no tokens.
pub(crate) fn fault_of_lexing(error: LexError, role: Role) -> TextFault
    ensures { result ≡ fault_of_lexing role error }
{
    match error {
        LexError::Memory => TextFault::Memory,
        _ => TextFault::Refused(role, FileKind::Lexing(error)),
    }
}
