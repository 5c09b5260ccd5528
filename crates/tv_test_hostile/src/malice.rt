//! Texts that are cut off, too deep, too long or faulty in some other way.

use crate::call::{ANALYZE, Call, wrong_part};
use crate::writer::{front, numbered, repeated};
use std::alloc::{AllocError, Global};
use std::test::Fail;
use tv_test_call::{CALM, Ending, FLIP_INITIAL, FLIP_REPORT};

const FLIP: &str = "%p b() %% %action Flip() { { b() = !b() } } %% L0 Flip() L1";

/// PROGRAM, and the kind of its fault.
static PROGRAMS: [(&str, &str); 26] = [
    // itself, again and again
    ("#include \"p\"\n", "IncludeDepth"),
    ("#include preds.tvp", "IncludeForm"),
    ("\0", "BadByte"),
    ("/*", "Unended"),
    ("%p b() // \"\n %% \"", "Unended"),
    ("%p x(v)", "Syntax at 1:8"),
    ("%p sm(v) %% %%", "Reserved"),
    ("%p b() %p b() %% %%", "NameTwice"),
    ("%p b(v, w, u) %% %%", "ArityTooLarge"),
    ("%p n(v, v) %% %%", "NameTwice"),
    ("%p b() unique %% %%", "ArityWrong"),
    ("%i b() = x(v) %% %%", "NameUnknown"),
    ("%p x(v) %i b() = x(v) %% %%", "VariableUnbound"),
    ("%p x(v) %i b() = E(v) x(v, v) %% %%", "ArityWrong"),
    ("%i p() = q() %i q() = p() %% %%", "DefinitionCycle"),
    ("%p b() %r 1 ==> b() & b() %% %%", "HeadForm"),
    ("%p b() %r 1/2 ==> b() %% %%", "HalfLiteral"),
    ("%s S {a} %s S {b} %% %%", "NameTwice"),
    ("foreach (z in S) { } %% %%", "NameUnknown"),
    (
        "%p b() %% %action Act() { { b() = 1 b() = 0 } } %% L Act() L",
        "UpdateTwice",
    ),
    (
        "%p b() %% %action Act() { { b() = (1/2) } } %% L Act() L",
        "HalfLiteral",
    ),
    (
        "%p x(v) %% %action Act() { { x(v) = isNew(v) } } %% L Act() L",
        "NameUnknown",
    ),
    ("%% %action Act(z) { } %% L Act() L", "ArgumentCount"),
    // the edge of the first row, with an argument
    (
        "%p b() %% %action Flip() { { b() = !b() } } %% L0 Flip(x) L1",
        "ArgumentCount",
    ),
    ("%% %% L Act() L", "NameUnknown"),
    ("%p b() %% %action Act() { } %%", "NoEdge"),
];

/// The ending where PROGRAM or INITIAL has this kind of fault.
fn wrong_fault(
    alloc: Global,
    role: &str,
    program: &str,
    initial: &str,
    kind: &str,
) -> Result<Option<&'static str>, AllocError> {
    let err = format!(in alloc; "tvla: {role}: {kind}\n")?;
    let call = Call {
        program,
        initial,
        ..ANALYZE
    };
    let wanted = Ending {
        code: 3,
        out: "",
        err: err.as_str(),
    };
    wrong_part(alloc, &call, &CALM, &wanted)
}

#[test]
fn faults_of_programs_are_told(rt: HostRuntime) -> Result<(), Fail> {
    for (program, kind) in PROGRAMS.iter() {
        let wrong = wrong_fault(rt.alloc(), "program", program, FLIP_INITIAL, kind)?;
        assert_eq!(rt; wrong, None, "{program}");
    }
    Ok(())
}

/// INITIAL over one unary predicate, and the kind of its fault.
static INITIALS: [(&str, &str); 8] = [
    ("%n = {u, u} %p = {}", "IndividualTwice"),
    ("%n = {u} %p = { x = {w} }", "IndividualUnknown"),
    ("%n = {u} %p = { y = {u} }", "NameUnknown"),
    ("%n = {u} %p = { x = 1 }", "ArityWrong"),
    ("%n = {u} %p = { sm = {u} }", "BadSm"),
    ("%n = {u} %p = { x = {u->u} }", "ArityWrong"),
    ("%n = {u %p = {}", "Syntax at 1:9"),
    ("%n = {u} #", "BadByte"),
];

#[test]
fn faults_of_structures_are_told(rt: HostRuntime) -> Result<(), Fail> {
    let program = "%p x(v) %% %action Skip() { } %% L Skip() L";
    for (initial, kind) in INITIALS.iter() {
        let wrong = wrong_fault(rt.alloc(), "initial", program, initial, kind)?;
        assert_eq!(rt; wrong, None, "{initial}");
    }
    Ok(())
}

/// The ending of the flip with this precondition: its report, or this kind of fault.
fn wrong_precondition(
    alloc: Global,
    precondition: &str,
    kind: Option<&str>,
) -> Result<Option<&'static str>, AllocError> {
    let program = format!(in alloc;
        "%p b() %% %action Flip() {{ %p {precondition} {{ b() = !b() }} }} %% L0 Flip() L1"
    )?;
    if let Some(kind) = kind {
        return wrong_fault(alloc, "program", program.as_str(), FLIP_INITIAL, kind);
    }
    let call = Call {
        program: program.as_str(),
        initial: FLIP_INITIAL,
        ..ANALYZE
    };
    let wanted = Ending {
        code: 0,
        out: FLIP_REPORT,
        err: "",
    };
    wrong_part(alloc, &call, &CALM, &wanted)
}

/// A precondition in so many pairs of parentheses.
fn wrong_depth(
    alloc: Global,
    pairs: u32,
    kind: Option<&str>,
) -> Result<Option<&'static str>, AllocError> {
    let open = repeated(alloc, "(", pairs)?;
    let close = repeated(alloc, ")", pairs)?;
    let text = format!(in alloc; "{open}1{close}")?;
    wrong_precondition(alloc, text.as_str(), kind)
}

/// A precondition that quantifies so many variables, over no individual.
fn wrong_variables(
    alloc: Global,
    count: u32,
    kind: Option<&str>,
) -> Result<Option<&'static str>, AllocError> {
    let others = numbered(alloc, ", v", 1..count, "")?;
    let text = format!(in alloc; "A(v0{others}) 0")?;
    wrong_precondition(alloc, text.as_str(), kind)
}

/// Parentheses that are never closed.
fn wrong_opening(alloc: Global) -> Result<Option<&'static str>, AllocError> {
    let text = repeated(alloc, "(", 201)?;
    wrong_fault(alloc, "program", text.as_str(), FLIP_INITIAL, "TooDeep")
}

#[test]
fn depth_and_variables_are_limited(rt: HostRuntime) -> Result<(), Fail> {
    assert_eq!(rt; wrong_depth(rt.alloc(), 199, None)?, None);
    assert_eq!(rt; wrong_depth(rt.alloc(), 200, Some("TooDeep"))?, None);
    assert_eq!(rt; wrong_opening(rt.alloc())?, None);
    assert_eq!(rt; wrong_variables(rt.alloc(), 32, None)?, None);
    assert_eq!(rt;
        wrong_variables(rt.alloc(), 33, Some("TooManyVariables"))?,
        None
    );
    Ok(())
}

/// Each file but the last includes the next twice, so the last one, of 64 blanks, is included 2 to the power
/// of 16 times.
static DOUBLED: [(&str, &str); 17] = [
    ("d0", "#include \"d1\"\n#include \"d1\"\n"),
    ("d1", "#include \"d2\"\n#include \"d2\"\n"),
    ("d2", "#include \"d3\"\n#include \"d3\"\n"),
    ("d3", "#include \"d4\"\n#include \"d4\"\n"),
    ("d4", "#include \"d5\"\n#include \"d5\"\n"),
    ("d5", "#include \"d6\"\n#include \"d6\"\n"),
    ("d6", "#include \"d7\"\n#include \"d7\"\n"),
    ("d7", "#include \"d8\"\n#include \"d8\"\n"),
    ("d8", "#include \"d9\"\n#include \"d9\"\n"),
    ("d9", "#include \"d10\"\n#include \"d10\"\n"),
    ("d10", "#include \"d11\"\n#include \"d11\"\n"),
    ("d11", "#include \"d12\"\n#include \"d12\"\n"),
    ("d12", "#include \"d13\"\n#include \"d13\"\n"),
    ("d13", "#include \"d14\"\n#include \"d14\"\n"),
    ("d14", "#include \"d15\"\n#include \"d15\"\n"),
    ("d15", "#include \"d16\"\n#include \"d16\"\n"),
    (
        "d16",
        "                                                                ",
    ),
];

#[test]
fn gathered_texts_are_limited(rt: HostRuntime) -> Result<(), Fail> {
    let call = Call {
        words: &["analyze", "d0", "i"],
        more: &DOUBLED,
        ..ANALYZE
    };
    let wanted = Ending {
        code: 3,
        out: "",
        err: "tvla: program: TooLong\n",
    };
    assert_eq!(rt; wrong_part(rt.alloc(), &call, &CALM, &wanted)?, None);
    Ok(())
}

const OLD_REPORT: &str = "tvla report 1
node L0 structures 1
%n = {}
%p = {
  b = 1
}
node L1 structures 1
%n = {}
%p = {
}
end
";

/// Where the fault stands in the first 0, 1, .. 100 bytes of the report: the first token that nothing can go
/// on from, or the end. A mark that is cut off is a bad byte.
const PLACES: &str = "1:1 1:1 1:1 1:1 1:5 1:6 1:6 1:6 1:6 1:6 1:6 1:12 1:13 1:14
2:1 2:1 2:1 2:1 2:5 2:6 2:7 2:8 2:9 2:9 2:9 2:9 2:9 2:9 2:9 2:9 2:9 2:9 2:19 2:20 2:21
3:1 BadByte 3:3 3:4 3:5 3:6 3:7 3:8 4:1 BadByte 4:3 4:4 4:5 4:6 4:7
5:1 5:2 5:3 5:4 5:5 5:6 5:7 5:8 6:1 6:2
7:1 7:1 7:1 7:1 7:5 7:6 7:7 7:8 7:9 7:9 7:9 7:9 7:9 7:9 7:9 7:9 7:9 7:9 7:19 7:20 7:21
8:1 BadByte 8:3 8:4 8:5 8:6 8:7 8:8 9:1 BadByte 9:3 9:4 9:5 9:6 9:7 10:1 10:2
11:1 11:1 11:1";

/// The ending of a check of this report on the flip.
fn wrong_check(
    alloc: Global,
    report: &str,
    wanted: &Ending<'_, '_>,
) -> Result<Option<&'static str>, AllocError> {
    let call = Call {
        words: &["check", "p", "i", "r"],
        program: FLIP,
        initial: FLIP_INITIAL,
        report,
        ..ANALYZE
    };
    wrong_part(alloc, &call, &CALM, wanted)
}

/// The ending of a check of a report that has its fault there, or a bad byte.
fn wrong_report(
    alloc: Global,
    report: &str,
    place: &str,
) -> Result<Option<&'static str>, AllocError> {
    let kind = if place == "BadByte" {
        ""
    } else {
        "ReportForm at "
    };
    let err = format!(in alloc; "tvla: report: {kind}{place}\n")?;
    let wanted = Ending {
        code: 3,
        out: "",
        err: err.as_str(),
    };
    wrong_check(alloc, report, &wanted)
}

/// The first front of the report, by its number of bytes, whose check doesn't end as it should, and how many
/// there are.
fn wrong_front(alloc: Global) -> Result<(usize, Option<usize>), AllocError> {
    let mut count = 0;
    for (k, place) in PLACES.split_whitespace().enumerate() {
        let report = front(alloc, OLD_REPORT, k)?;
        if wrong_report(alloc, report.as_str(), place)?.is_some() {
            return Ok((count, Some(k)));
        }
        count = usize::saturating_add(count, 1);
    }
    Ok((count, None))
}

/// All of the report but its last line feed.
fn wrong_whole(alloc: Global) -> Result<Option<&'static str>, AllocError> {
    let report = front(alloc, OLD_REPORT, 101)?;
    let wanted = Ending {
        code: 0,
        out: "accepted\n",
        err: "",
    };
    wrong_check(alloc, report.as_str(), &wanted)
}

#[test]
fn reports_are_cut_off(rt: HostRuntime) -> Result<(), Fail> {
    assert_eq!(rt; wrong_front(rt.alloc())?, (101, None));
    assert_eq!(rt; wrong_whole(rt.alloc())?, None);
    let many = "tvla report 1 node L0 structures 4294967295 end";
    assert_eq!(rt; wrong_report(rt.alloc(), many, "1:45")?, None);
    Ok(())
}
