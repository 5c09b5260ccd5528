//! The words for roles and kinds of faults in error texts, and the places that faults carry.

ghost use Rattle.std.specs.Prelude.{◌≡◌};
ghost use Rattle.tv_status.specs.Status.{role_name, gathering_name, lexing_name, parsing_name};
ghost use Rattle.tv_status.specs.Status.{expanding_name, resolving_name, program_name, structures_name};
ghost use Rattle.tv_status.specs.Status.{hint_of, kind_name, source_name, place_of, teller_name};

use crate::status::{FileKind, Role, Teller};
use tv_expand::ExpandError;
use tv_front::ProgramFault;
use tv_lex::{GatherError, LexError, Place};
use tv_names::ResolveError;
use tv_phrases::SyntaxError;
use tv_plang::SourceError;
use tv_tvs::TvsError;

fn gathering_name(error: GatherError) -> &'static [u8]
    ensures { result.now ≡ gathering_name error }
{
    match error {
        GatherError::Failed => b"Failed",
        GatherError::TooLong => b"TooLong",
        GatherError::Unended => b"Unended",
        GatherError::IncludeForm => b"IncludeForm",
        GatherError::IncludeDepth => b"IncludeDepth",
        GatherError::Memory => b"Memory",
    }
}

fn lexing_name(error: LexError) -> &'static [u8]
    ensures { result.now ≡ lexing_name error }
{
    match error {
        LexError::BadByte => b"BadByte",
        LexError::Unended => b"Unended",
        LexError::Memory => b"Memory",
    }
}

fn parsing_name(error: SyntaxError) -> &'static [u8]
    ensures { result.now ≡ parsing_name error }
{
    match error {
        SyntaxError::Syntax(_) => b"Syntax",
        SyntaxError::TooDeep => b"TooDeep",
        SyntaxError::Memory => b"Memory",
    }
}

fn expanding_name(error: ExpandError) -> &'static [u8]
    ensures { result.now ≡ expanding_name error }
{
    match error {
        ExpandError::NameUnknown => b"NameUnknown",
        ExpandError::NameTwice => b"NameTwice",
        ExpandError::ArgumentCount => b"ArgumentCount",
        ExpandError::TooManyItems => b"TooManyItems",
        ExpandError::Memory => b"Memory",
    }
}

fn resolving_name(error: ResolveError) -> &'static [u8]
    ensures { result.now ≡ resolving_name error }
{
    match error {
        ResolveError::NameUnknown => b"NameUnknown",
        ResolveError::NameTwice => b"NameTwice",
        ResolveError::ArityWrong => b"ArityWrong",
        ResolveError::ArityTooLarge => b"ArityTooLarge",
        ResolveError::Reserved => b"Reserved",
        ResolveError::VariableUnbound => b"VariableUnbound",
        ResolveError::TooManyVariables => b"TooManyVariables",
        ResolveError::UpdateTwice => b"UpdateTwice",
        ResolveError::DefinitionCycle => b"DefinitionCycle",
        ResolveError::HeadForm => b"HeadForm",
        ResolveError::HalfLiteral => b"HalfLiteral",
        ResolveError::TooMany => b"TooMany",
        ResolveError::NoEdge => b"NoEdge",
        ResolveError::Memory => b"Memory",
    }
}

fn program_name(fault: ProgramFault) -> &'static [u8]
    ensures { result.now ≡ program_name fault }
{
    match fault {
        ProgramFault::Lexing(error) => lexing_name(error),
        ProgramFault::Parsing(error) => parsing_name(error),
        ProgramFault::Expansion(error) => expanding_name(error),
        ProgramFault::Resolution(error) => resolving_name(error),
    }
}

fn structures_name(error: TvsError) -> &'static [u8]
    ensures { result.now ≡ structures_name error }
{
    match error {
        TvsError::Syntax(_) => b"Syntax",
        TvsError::IndividualUnknown => b"IndividualUnknown",
        TvsError::IndividualTwice => b"IndividualTwice",
        TvsError::NameUnknown => b"NameUnknown",
        TvsError::ArityWrong => b"ArityWrong",
        TvsError::BadSm => b"BadSm",
        TvsError::TooManyIndividuals => b"TooManyIndividuals",
        TvsError::Memory => b"Memory",
    }
}

fn source_name(error: SourceError) -> &'static [u8]
    ensures { result.now ≡ source_name error }
{
    match error {
        SourceError::TooDeep => b"TooDeep",
        SourceError::Syntax(_) => b"Syntax",
        SourceError::Reserved => b"Reserved",
        SourceError::NameTwice => b"NameTwice",
        SourceError::NameUnknown => b"NameUnknown",
        SourceError::TooMany => b"TooMany",
        SourceError::Memory => b"Memory",
    }
}

impl Teller {
    /// The name of the program.
    pub(crate) fn name(self) -> &'static [u8]
        ensures { result.now ≡ teller_name self }
    {
        match self {
            Teller::Analyzer => b"tvla",
            Teller::Explainer => b"tvla-explain",
        }
    }

    /// What it says behind the fault of a file.
    pub(crate) fn hint(self) -> &'static [u8]
        ensures { result.now ≡ hint_of self }
    {
        match self {
            Teller::Analyzer => b"",
            Teller::Explainer => b" (./tvla-lint with the same words tells where)",
        }
    }
}

impl Role {
    /// The word for it in an error text.
    pub(crate) fn name(self) -> &'static [u8]
        ensures { result.now ≡ role_name self }
    {
        match self {
            Role::Program => b"program",
            Role::Initial => b"initial",
            Role::Report => b"report",
            Role::Start => b"start",
            Role::Trace => b"trace",
            Role::Source => b"source",
        }
    }
}

impl FileKind {
    /// The word for it in an error text.
    pub(crate) fn name(self) -> &'static [u8]
        ensures { result.now ≡ kind_name self }
    {
        match self {
            FileKind::TooLong => b"TooLong",
            FileKind::Gathering(error) => gathering_name(error),
            FileKind::Lexing(error) => lexing_name(error),
            FileKind::Program(fault) => program_name(fault),
            FileKind::Structures(error) => structures_name(error),
            FileKind::ReportForm(_) => b"ReportForm",
            FileKind::NotHeap => b"NotHeap",
            FileKind::TraceForm(_) => b"TraceForm",
            FileKind::Source(error) => source_name(error),
        }
    }

    /// The place in the file that it carries.
    pub(crate) fn place(self) -> Option<Place>
        ensures { result ≡ place_of self }
    {
        match self {
            FileKind::Program(ProgramFault::Parsing(SyntaxError::Syntax(place)))
            | FileKind::Structures(TvsError::Syntax(place))
            | FileKind::ReportForm(place)
            | FileKind::Source(SourceError::Syntax(place))
            | FileKind::TraceForm(place) => Some(place),
            _ => None,
        }
    }
}
