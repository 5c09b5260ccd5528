//! How calls end: exit codes and texts, by example.

use std::alloc::{AllocError, Global};
use std::test::Fail;
use tv_expand::ExpandError;
use tv_front::ProgramFault;
use tv_lex::{GatherError, LexError, Place};
use tv_listing::Rejection;
use tv_names::ResolveError;
use tv_outside::MemSink;
use tv_phrases::SyntaxError;
use tv_plang::SourceError;
use tv_replay_laws::Why;
use tv_status::{FileKind, Role, Status, write_status};
use tv_tvs::TvsError;

const USAGE: &str =
    "usage: tvla analyze PROGRAM INITIAL [--max-structures N] [--recompute | --delta]
       tvla check PROGRAM INITIAL REPORT [--recompute | --delta] [--maps]
       tvla demo NUMBER
       tvla replay PROGRAM INITIAL START TRACE REPORT
       tvla source SOURCE INITIAL [--max-structures N]
       tvla join PROGRAM INITIAL [--max-structures N] [--recompute]
";

/// Faults of files and their texts.
const FAULTS: [(Role, FileKind, &str); 19] = [
    (
        Role::Program,
        FileKind::Program(ProgramFault::Parsing(SyntaxError::Syntax(Place { line: 1, column: 1 }))),
        "tvla: program: Syntax at 1:1\n",
    ),
    (
        Role::Report,
        FileKind::ReportForm(Place { line: 3, column: 6 }),
        "tvla: report: ReportForm at 3:6\n",
    ),
    (
        Role::Initial,
        FileKind::Structures(TvsError::Syntax(Place {
            line: 4_294_967_295,
            column: 10,
        })),
        "tvla: initial: Syntax at 4294967295:10\n",
    ),
    (
        Role::Program,
        FileKind::Program(ProgramFault::Resolution(ResolveError::DefinitionCycle)),
        "tvla: program: DefinitionCycle\n",
    ),
    (
        Role::Program,
        FileKind::Program(ProgramFault::Resolution(ResolveError::ArityWrong)),
        "tvla: program: ArityWrong\n",
    ),
    (
        Role::Program,
        FileKind::Program(ProgramFault::Expansion(ExpandError::ArgumentCount)),
        "tvla: program: ArgumentCount\n",
    ),
    (
        Role::Program,
        FileKind::Program(ProgramFault::Parsing(SyntaxError::TooDeep)),
        "tvla: program: TooDeep\n",
    ),
    (
        Role::Program,
        FileKind::Program(ProgramFault::Lexing(LexError::Unended)),
        "tvla: program: Unended\n",
    ),
    (
        Role::Program,
        FileKind::Gathering(GatherError::IncludeForm),
        "tvla: program: IncludeForm\n",
    ),
    (
        Role::Program,
        FileKind::Gathering(GatherError::TooLong),
        "tvla: program: TooLong\n",
    ),
    (
        Role::Initial,
        FileKind::Structures(TvsError::BadSm),
        "tvla: initial: BadSm\n",
    ),
    (
        Role::Initial,
        FileKind::Structures(TvsError::TooManyIndividuals),
        "tvla: initial: TooManyIndividuals\n",
    ),
    (
        Role::Report,
        FileKind::Lexing(LexError::BadByte),
        "tvla: report: BadByte\n",
    ),
    (Role::Report, FileKind::TooLong, "tvla: report: TooLong\n"),
    (Role::Start, FileKind::NotHeap, "tvla: start: NotHeap\n"),
    (
        Role::Trace,
        FileKind::TraceForm(Place {
            line: 12,
            column: 7,
        }),
        "tvla: trace: TraceForm at 12:7\n",
    ),
    (
        Role::Source,
        FileKind::Source(SourceError::Syntax(Place { line: 2, column: 7 })),
        "tvla: source: Syntax at 2:7\n",
    ),
    (
        Role::Source,
        FileKind::Source(SourceError::TooMany),
        "tvla: source: TooMany\n",
    ),
    (
        Role::Source,
        FileKind::Source(SourceError::NameUnknown),
        "tvla: source: NameUnknown\n",
    ),
];

/// The other statuses, their codes and their texts.
const OTHERS: [(Status, u8, &str); 13] = [
    (Status::Done, 0, ""),
    (Status::Rejected(Rejection::Initial(0)), 1, ""),
    (
        Status::Rejected(Rejection::Result {
            edge: 0,
            structure: 0,
            result: 0,
        }),
        1,
        "",
    ),
    (
        Status::Rejected(Rejection::Message { edge: 2, number: 0 }),
        1,
        "",
    ),
    (
        Status::Stuck {
            step: 2,
            why: Why::Edge,
        },
        1,
        "",
    ),
    (Status::Usage, 2, USAGE),
    (Status::Structures(1), 4, "tvla: more than 1 structures\n"),
    (
        Status::Structures(5_000),
        4,
        "tvla: more than 5000 structures\n",
    ),
    (Status::TooManySplits, 4, "tvla: too many splits\n"),
    (
        Status::TooManyIndividuals,
        4,
        "tvla: too many individuals\n",
    ),
    (Status::ReadFault, 5, "tvla: read fault\n"),
    (Status::WriteFault, 6, "tvla: write fault\n"),
    (Status::Memory, 7, "tvla: out of memory\n"),
];

/// Whether the sink takes this text at the status, seven bytes at a time.
fn tells(alloc: Global, status: Status, text: &str) -> Result<bool, AllocError> {
    let mut sink = MemSink::new(alloc, 7, Vec::new(alloc), 4096)?;
    let written = write_status(&mut sink, status);
    Ok(written.is_ok() && sink.taken() == text.as_bytes())
}

#[test]
fn endings_by_example(rt: HostRuntime) -> Result<(), Fail> {
    for (status, code, text) in OTHERS.iter() {
        assert_eq!(rt; status.code(), *code, "at {text}");
        assert!(rt; tells(rt.alloc(), *status, text)?, "at {text}");
    }
    for (role, kind, text) in FAULTS.iter() {
        let status = Status::FileFault(*role, *kind);
        assert_eq!(rt; status.code(), 3, "at {text}");
        assert!(rt; tells(rt.alloc(), status, text)?, "at {text}");
    }
    Ok(())
}

#[test]
fn failing_sinks_take_a_front(rt: HostRuntime) -> Result<(), Fail> {
    let fail = vec![in rt.alloc(); 2]?;
    let mut sink = MemSink::new(rt.alloc(), 10, fail, 4096)?;
    let written = write_status(&mut sink, Status::Usage);
    assert!(rt; written.is_err(), "the second call fails");
    assert_eq!(rt; sink.taken(), b"usage: tvl".as_slice());
    Ok(())
}
