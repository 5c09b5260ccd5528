//! Words and the command that they spell, by example.
use std::alloc::{AllocError, Global};
use std::test::Fail;
use tv_model::Mode;
use tv_words::{Command, read_words};

/// Words divided by blanks, and what they spell: a command's files, numbers and options in a fixed order, or
/// `none`.
static LINES: [(&str, &str); 84] = [
    ("", "none"),
    ("analyze", "none"),
    ("analyze a", "none"),
    ("analyze a b", "analyze a b 5000"),
    ("analyze a b c", "none"),
    ("analyze  b", "analyze  b 5000"),
    ("analyze  ", "analyze   5000"),
    (" a b", "none"),
    ("frob a b", "none"),
    ("Analyze a b", "none"),
    ("analyze- a b", "none"),
    ("-- analyze a b", "none"),
    ("--recompute analyze a b", "none"),
    ("--help", "none"),
    ("-h", "none"),
    ("help", "none"),
    ("--version", "none"),
    ("-V", "none"),
    ("analyze --help", "none"),
    ("analyze a b --help", "none"),
    ("analyze a b -h", "none"),
    ("analyze help a", "analyze help a 5000"),
    ("analyze help", "none"),
    ("analyze a b --version", "none"),
    ("analyze - -", "analyze - - 5000"),
    ("analyze a -b", "none"),
    ("analyze a -- -b", "analyze a -b 5000"),
    ("analyze -- -b a", "analyze -b a 5000"),
    ("analyze -- -- a", "analyze -- a 5000"),
    ("analyze -- a", "none"),
    ("analyze a b --", "analyze a b 5000"),
    ("analyze a b -- c", "none"),
    ("analyze -- --recompute a", "analyze --recompute a 5000"),
    ("analyze -- --recompute a b", "none"),
    ("analyze a -- b --recompute", "none"),
    ("analyze --recompute a b", "analyze a b 5000 recompute"),
    ("analyze a --recompute b", "analyze a b 5000 recompute"),
    ("analyze a b --recompute", "analyze a b 5000 recompute"),
    ("analyze a b --recompute --", "analyze a b 5000 recompute"),
    ("analyze a b --recompute --recompute", "none"),
    ("analyze a b --recompute=", "none"),
    ("analyze a b --recompute=true", "none"),
    ("analyze a b --recomp", "none"),
    ("analyze a b --Recompute", "none"),
    ("analyze a b -recompute", "none"),
    ("analyze a b --maps", "none"),
    ("analyze a b --frob", "none"),
    ("analyze --max-structures=2 -- a b", "analyze a b 2"),
    ("analyze --max-structures 2 -- a b", "analyze a b 2"),
    ("analyze a --max-structures 2 b", "analyze a b 2"),
    ("analyze a --max-structures b 2", "none"),
    ("analyze a b --max-structures 100000", "analyze a b 100000"),
    ("analyze a b --max-structures=1", "analyze a b 1"),
    ("analyze a b --max-structures 100001", "none"),
    ("analyze a b --max-structures 0", "none"),
    ("analyze a b --max-structures 02", "none"),
    ("analyze a b --max-structures=02", "none"),
    ("analyze a b --max-structures=+2", "none"),
    ("analyze a b --max-structures=-2", "none"),
    ("analyze a b --max-structures -2", "none"),
    ("analyze a b --max-structures=2.0", "none"),
    ("analyze a b --max-structures=0x2", "none"),
    ("analyze a b --max-structures=18446744073709551618", "none"),
    ("analyze a b --max-structures", "none"),
    ("analyze a b --max-structures=", "none"),
    ("analyze a b --max-structures ", "none"),
    ("analyze a --max-structures -- b", "none"),
    ("analyze a b --max-structures 2 --max-structures 2", "none"),
    ("analyze a b --max-structures=2 --max-structures 3", "none"),
    (
        "analyze a --recompute b --max-structures=7",
        "analyze a b 7 recompute",
    ),
    (
        "analyze --max-structures 7 a --recompute b",
        "analyze a b 7 recompute",
    ),
    ("analyze --max-structures --recompute 7 a b", "none"),
    ("analyze a b --max-structures --recompute", "none"),
    ("check a b", "none"),
    ("check a b c", "check a b c"),
    ("check a b c d", "none"),
    (
        "check --recompute a --maps b c",
        "check a b c recompute maps",
    ),
    (
        "check --maps a b c --recompute",
        "check a b c recompute maps",
    ),
    ("check a b c --maps", "check a b c maps"),
    ("check a b c --recompute", "check a b c recompute"),
    ("check a b c --maps --maps", "none"),
    ("check a b c --max-structures 2", "none"),
    ("check a -- --maps c", "check a --maps c"),
    ("check -- a b c --maps", "none"),
];

static JOINS: [(&str, &str); 18] = [
    ("join", "none"),
    ("join a", "none"),
    ("join a b", "join a b 5000"),
    ("join a b c", "none"),
    ("Join a b", "none"),
    ("join join a", "join join a 5000"),
    ("join a b --recompute", "join a b 5000 recompute"),
    (
        "join --recompute a --max-structures 3 b",
        "join a b 3 recompute",
    ),
    ("join a --max-structures=100000 b", "join a b 100000"),
    ("join a b --max-structures=100001", "none"),
    ("join a b --max-structures 0", "none"),
    ("join a b --max-structures", "none"),
    ("join a b --max-structures 2 --max-structures=2", "none"),
    ("join a b --recompute --recompute", "none"),
    ("join a b --maps", "none"),
    ("join a b --delta", "none"),
    ("join -- --recompute a", "join --recompute a 5000"),
    ("join a -- b --recompute", "none"),
];

static REPLAYS: [(&str, &str); 8] = [
    ("replay", "none"),
    ("replay a b c d", "none"),
    ("replay a b c d e", "replay a b c d e"),
    ("replay a b c d e f", "none"),
    ("replay -- a b c d e", "replay a b c d e"),
    ("replay a b c -- --d e", "replay a b c --d e"),
    ("replay a b c d e --recompute", "none"),
    ("replay a b c d e --max-structures 2", "none"),
];

static SOURCES: [(&str, &str); 13] = [
    ("source", "none"),
    ("source a", "none"),
    ("source a b", "source a b 5000"),
    ("source a b c", "none"),
    ("Source a b", "none"),
    ("sources a b", "none"),
    ("source --max-structures 3 a b", "source a b 3"),
    ("source a --max-structures=100000 b", "source a b 100000"),
    ("source a b --max-structures 0", "none"),
    ("source a b --max-structures 2 --max-structures=2", "none"),
    ("source a b --recompute", "none"),
    ("source a b --delta", "none"),
    ("source -- --a b", "source --a b 5000"),
];

static DELTAS: [(&str, &str); 14] = [
    ("analyze a b --delta", "analyze a b 5000 delta"),
    (
        "analyze --delta a --max-structures=7 b",
        "analyze a b 7 delta",
    ),
    ("analyze a b --delta --delta", "none"),
    ("analyze a b --delta --recompute", "none"),
    ("analyze a --recompute b --delta", "none"),
    ("analyze a b --delta=", "none"),
    ("analyze a b --deltas", "none"),
    ("analyze -- --delta b", "analyze --delta b 5000"),
    ("check a b c --delta", "check a b c delta"),
    ("check --maps a --delta b c", "check a b c maps delta"),
    ("check a b c --delta --delta", "none"),
    ("check a b c --recompute --delta", "none"),
    ("check a b -- --delta", "check a b --delta"),
    ("demo 1 --delta", "none"),
];

static NUMBERS: [(&str, &str); 15] = [
    ("demo", "none"),
    ("demo 0", "none"),
    ("demo 1", "demo 1"),
    ("demo 9", "demo 9"),
    ("demo 16", "demo 16"),
    ("demo 17", "none"),
    ("demo 01", "none"),
    ("demo +1", "none"),
    ("demo -1", "none"),
    ("demo ", "none"),
    ("demo 1 --", "demo 1"),
    ("demo -- 1", "demo 1"),
    ("demo 1 2", "none"),
    ("demo 1 --recompute", "none"),
    ("demo one", "none"),
];

fn words_in(alloc: Global, line: &str) -> Result<Vec<String>, AllocError> {
    let mut words = Vec::new(alloc);
    if !line.is_empty() {
        for word in line.split(' ') {
            words.push(String::from_str(alloc, word)?)?;
        }
    }
    Ok(words)
}

fn mode_mark(mode: Mode) -> &'static str {
    match mode {
        Mode::Given => "",
        Mode::Recompute => " recompute",
    }
}

fn delta_mark(delta: bool) -> &'static str {
    if delta { " delta" } else { "" }
}

fn shown(alloc: Global, command: &Option<Command>) -> Result<String, AllocError> {
    match command {
        None => String::from_str(alloc, "none"),
        Some(
            Command::Analyze {
                program,
                initial,
                max,
                mode,
                delta,
            },
        ) => format!(in alloc;
            "analyze {program} {initial} {max}{}{}",
            mode_mark(*mode),
            delta_mark(*delta)
        ),
        Some(
            Command::Check {
                program,
                initial,
                report,
                mode,
                maps,
                delta,
            },
        ) => {
            let marks = if *maps { " maps" } else { "" };
            format!(in alloc;
                "check {program} {initial} {report}{}{marks}{}",
                mode_mark(*mode),
                delta_mark(*delta)
            )
        }
        Some(Command::Demo { number }) => format!(in alloc; "demo {number}"),
        Some(
            Command::Replay {
                program,
                initial,
                start,
                trace,
                report,
            },
        ) => format!(in alloc; "replay {program} {initial} {start} {trace} {report}"),
        Some(
            Command::Source {
                source,
                initial,
                max,
            },
        ) => format!(in alloc; "source {source} {initial} {max}"),
        Some(
            Command::Join {
                program,
                initial,
                max,
                mode,
            },
        ) => format!(in alloc; "join {program} {initial} {max}{}", mode_mark(*mode)),
    }
}

fn compare(alloc: Global, line: &str, want: &str) -> Result<bool, AllocError> {
    let words = words_in(alloc, line)?;
    let got = shown(alloc, &read_words(alloc, &words)?)?;
    Ok(got.as_str() == want)
}

#[test]
fn words_by_example(rt: HostRuntime) -> Result<(), Fail> {
    for (line, want) in LINES
        .iter()
        .chain(JOINS.iter())
        .chain(REPLAYS.iter())
        .chain(SOURCES.iter())
        .chain(DELTAS.iter())
        .chain(NUMBERS.iter())
    {
        assert!(rt; compare(rt.alloc(), line, want)?, "at {line}");
    }
    Ok(())
}

/// `count` words, each of `length` times the letter `x`, behind `analyze`.
fn long_line(alloc: Global, count: usize, length: usize) -> Result<Vec<String>, AllocError> {
    let mut words = Vec::new(alloc);
    words.push(String::from_str(alloc, "analyze")?)?;
    for _ in 0..count {
        let mut word = String::new(alloc);
        for _ in 0..length {
            word.push('x')?;
        }
        words.push(word)?;
    }
    Ok(words)
}

#[test]
fn long_words_and_many(rt: HostRuntime) -> Result<(), Fail> {
    let long = long_line(rt.alloc(), 2, 1 << 20)?;
    let found = read_words(rt.alloc(), &long)?;
    assert!(rt;
        matches!(&found, Some(Command::Analyze { .. })),
        "two long words"
    );
    let many = long_line(rt.alloc(), 100_000, 1)?;
    let found = read_words(rt.alloc(), &many)?;
    assert!(rt; matches!(&found, None), "many words");
    Ok(())
}
