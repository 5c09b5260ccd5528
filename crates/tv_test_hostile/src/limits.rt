//! Limits of structures and steps: within, and one past.

use crate::call::{ANALYZE, Call, ended, wrong_part};
use crate::writer::{crowd, numbered};
use std::alloc::{AllocError, Global};
use std::test::Fail;
use tv_test_call::{CALM, Ending};

/// A crowd of individuals as the one initial structure, and how the analysis ends: with so many structures at
/// the two nodes together, or with a text to `err`.
struct Row {
    words: &'static [&'static str],
    program: &'static str,
    count: u32,
    definite: &'static [&'static str],
    unknown: &'static [&'static str],
    code: u8,
    structures: usize,
    err: &'static str,
}

const FOCUS: &str =
    "%p a(v) %p b(v) %p c(v) %p x(v) %% %action Look() { %f { x(v) } } %% L0 Look() L1";

const RETAIN: &str = "%p a(v) %p b(v) %p c(v) %p d(v) %p x(v)
%% %action Keep() { %retain x(v) } %% L0 Keep() L1";

const NEW: &str = "%p a(v) %p b(v) %p c(v) %p d(v) %p e(v) %p f(v) %p g(v) %p h(v)
%% %action New() { %new } %% L0 New() L1";

/// An analysis without individuals.
const PLAIN: Row = Row {
    words: &["analyze", "p", "i"],
    program: "",
    count: 0,
    definite: &[],
    unknown: &[],
    code: 0,
    structures: 0,
    err: "",
};

const FOCUSED: Row = Row {
    program: FOCUS,
    count: 7,
    definite: &["a", "b", "c"],
    unknown: &["x", "sm"],
    ..PLAIN
};

const KEPT: Row = Row {
    program: RETAIN,
    definite: &["a", "b", "c", "d"],
    unknown: &["x"],
    ..PLAIN
};

const ADDED: Row = Row {
    program: NEW,
    definite: &["a", "b", "c", "d", "e", "f", "g", "h"],
    ..PLAIN
};

const HELD: Row = Row {
    program: "%p x(v) %% %action All() { %p A(v) x(v) } %% L0 All() L1",
    ..PLAIN
};

/// Three choices for each of seven summaries; two for each of twelve or thirteen individuals; a new
/// individual beside 255 or 256, also in joined analyses; a text of 256 or 257 individuals.
static ROWS: [Row; 9] = [
    Row {
        structures: 2188,
        ..FOCUSED
    },
    Row {
        words: &["analyze", "p", "i", "--max-structures", "2187"],
        code: 4,
        err: "tvla: more than 2187 structures\n",
        ..FOCUSED
    },
    Row {
        count: 12,
        structures: 4097,
        ..KEPT
    },
    Row {
        count: 13,
        code: 4,
        err: "tvla: too many splits\n",
        ..KEPT
    },
    Row {
        count: 255,
        structures: 2,
        ..ADDED
    },
    Row {
        count: 256,
        code: 4,
        err: "tvla: too many individuals\n",
        ..ADDED
    },
    Row {
        words: &["join", "p", "i"],
        count: 256,
        code: 4,
        err: "tvla: too many individuals\n",
        ..ADDED
    },
    Row {
        count: 256,
        structures: 1,
        ..HELD
    },
    Row {
        count: 257,
        code: 3,
        err: "tvla: initial: TooManyIndividuals\n",
        ..HELD
    },
];

/// How many structures a report lists: the text of each has two marks.
fn structures_in(report: &[u8]) -> usize {
    report.iter().filter(|byte| **byte == b'%').count() / 2
}

/// Which part of the ending isn't the row's. A report isn't compared byte by byte: its structures are
/// counted.
fn wrong_limit(alloc: Global, row: &Row) -> Result<Option<&'static str>, AllocError> {
    let initial = crowd(alloc, row.count, row.definite, row.unknown)?;
    let call = Call {
        words: row.words,
        program: row.program,
        initial: initial.as_str(),
        ..ANALYZE
    };
    let found = ended(alloc, &call, &CALM)?;
    Ok(if found.code != row.code {
        Some("code")
    } else if structures_in(found.out.taken()) != row.structures {
        Some("out")
    } else if found.err.taken() != row.err.as_bytes() {
        Some("err")
    } else {
        None
    })
}

#[test]
fn limits_of_steps_are_kept(rt: HostRuntime) -> Result<(), Fail> {
    for row in ROWS.iter() {
        let wrong = wrong_limit(rt.alloc(), row)?;
        assert_eq!(rt; wrong, None, "{} of {}", row.count, row.program);
    }
    Ok(())
}

/// A report that lists eight summaries, with 3 to the power of 8 choices, and its judgement where so many of
/// them are the initial structure, if any.
fn wrong_judgement(
    alloc: Global,
    initial: &str,
    wanted: &Ending<'_, '_>,
) -> Result<Option<&'static str>, AllocError> {
    let eight = crowd(alloc, 8, &["a", "b", "c"], &["x", "sm"])?;
    let report = format!(in alloc; "tvla report 1 node L0 structures 1 {eight} end")?;
    let call = Call {
        words: &["check", "p", "i", "r"],
        program: FOCUS,
        initial,
        report: report.as_str(),
        ..ANALYZE
    };
    wrong_part(alloc, &call, &CALM, wanted)
}

/// The step of the listed structure meets the budget of choices.
fn wrong_step(alloc: Global) -> Result<Option<&'static str>, AllocError> {
    let wanted = Ending {
        code: 4,
        out: "",
        err: "tvla: too many splits\n",
    };
    wrong_judgement(alloc, "", &wanted)
}

/// No map of seven individuals is onto eight, which comes before the step.
fn wrong_opening(alloc: Global) -> Result<Option<&'static str>, AllocError> {
    let wanted = Ending {
        code: 1,
        out: "rejected: initial 0\n",
        err: "",
    };
    let seven = crowd(alloc, 7, &["a", "b", "c"], &["x", "sm"])?;
    wrong_judgement(alloc, seven.as_str(), &wanted)
}

#[test]
fn budgets_end_checks(rt: HostRuntime) -> Result<(), Fail> {
    assert_eq!(rt; wrong_step(rt.alloc())?, None);
    assert_eq!(rt; wrong_opening(rt.alloc())?, None);
    Ok(())
}

/// The ending of the analysis of a program from no structure.
fn wrong_program(
    alloc: Global,
    program: &str,
    wanted: &Ending<'_, '_>,
) -> Result<Option<&'static str>, AllocError> {
    let call = Call { program, ..ANALYZE };
    wrong_part(alloc, &call, &CALM, wanted)
}

const EMPTY: Ending<'static, 'static> = Ending {
    code: 0,
    out: "tvla report 2\nnode L structures 0\nend\n",
    err: "",
};

/// One rule in three loops over so many names.
fn wrong_rules(
    alloc: Global,
    names: u32,
    wanted: &Ending<'_, '_>,
) -> Result<Option<&'static str>, AllocError> {
    let others = numbered(alloc, ", m", 1..names, "")?;
    let program = format!(in alloc;
        "%s S {{m0{others}}}
        foreach (a in S) {{ foreach (b in S) {{ foreach (c in S) {{ %r 0 ==> 0 }} }} }}
        %% %action Skip() {{ }} %% L Skip() L"
    )?;
    wrong_program(alloc, program.as_str(), wanted)
}

/// So many predicates.
fn wrong_predicates(
    alloc: Global,
    count: u32,
    wanted: &Ending<'_, '_>,
) -> Result<Option<&'static str>, AllocError> {
    let predicates = numbered(alloc, "%p b", 0..count, "() ")?;
    let program = format!(in alloc; "{predicates} %% %action Skip() {{ }} %% L Skip() L")?;
    wrong_program(alloc, program.as_str(), wanted)
}

const TOO_MANY_ITEMS: Ending<'static, 'static> = Ending {
    code: 3,
    out: "",
    err: "tvla: program: TooManyItems\n",
};

const TOO_MANY: Ending<'static, 'static> = Ending {
    code: 3,
    out: "",
    err: "tvla: program: TooMany\n",
};

#[test]
fn limits_of_programs_are_kept(rt: HostRuntime) -> Result<(), Fail> {
    assert_eq!(rt; wrong_rules(rt.alloc(), 40, &EMPTY)?, None);
    assert_eq!(rt; wrong_rules(rt.alloc(), 41, &TOO_MANY_ITEMS)?, None);
    assert_eq!(rt; wrong_predicates(rt.alloc(), 512, &EMPTY)?, None);
    assert_eq!(rt; wrong_predicates(rt.alloc(), 513, &TOO_MANY)?, None);
    Ok(())
}

const MORE_THAN_ALLOWED: Ending<'static, 'static> = Ending {
    code: 4,
    out: "",
    err: "tvla: more than 5000 structures\n",
};

/// Thirteen predicates that are turned one by one: 2 to the power of 13 structures.
fn wrong_turning(alloc: Global) -> Result<Option<&'static str>, AllocError> {
    let predicates = numbered(alloc, "%p b", 0..13, "() ")?;
    let edges = numbered(alloc, "L Turn(b", 0..13, ") L ")?;
    let program = format!(in alloc;
        "{predicates}%% %action Turn(b) {{ {{ b() = !b() }} }} %% {edges}"
    )?;
    let call = Call {
        program: program.as_str(),
        initial: "%n = {} %p = {}",
        ..ANALYZE
    };
    wrong_part(alloc, &call, &CALM, &MORE_THAN_ALLOWED)
}

#[test]
fn too_many_structures_are_told(rt: HostRuntime) -> Result<(), Fail> {
    assert_eq!(rt; wrong_turning(rt.alloc())?, None);
    Ok(())
}
