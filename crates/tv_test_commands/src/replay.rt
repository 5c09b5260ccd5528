//! Replays, by whole calls. What is wanted was worked out by a plain reference of the definitions, and by
//! hand.

use std::alloc::{AllocError, Global};
use std::test::Fail;
use tv_test_call::{CALM, called, files_of};

/// Programs, heaps and traces, with `;` behind each, and what is told: of each state, all of which stand at
/// `L`, how many individuals it has, whether definitions or updates are met, and the rules; or where the
/// replay is stuck. `~` stands between rows.
const RUNS: &str = "%p x(v) unique %% %action Act() {} %% L Act() L;
%n = {a, b} %p = { x = {a, b} };;
2, ok, broken 0
~
%p x(v) unique %% %action Act() {} %% L Act() L;
%n = {a, b} %p = { x = {b} };;
2, ok, ok
~
%p n(v, w) function invfunction %% %action Act() {} %% L Act() L;
%n = {a, b} %p = { n = {a->a, b->a} };;
2, ok, broken 1
~
%p n(v, w) function invfunction %% %action Act() {} %% L Act() L;
%n = {a, b} %p = { n = {a->a, a->b} };;
2, ok, broken 0
~
%p x(v) unique %p n(v, w) transitive reflexive symmetric %r x(v) ==> n(v, v) %r n(v, w) & n(w, u) ==> n(u, v)
%% %action Act() {} %% L Act() L;
%n = {a, b, c} %p = { n = {a->b, b->c, a->c, a->a, b->b, c->c} };;
3, ok, broken 3
~
%p x(v) unique %p n(v, w) transitive reflexive symmetric %% %action Act() {} %% L Act() L;
%n = {a, b, c} %p = { n = {a->b, b->c, a->a, b->b, c->c} };;
3, ok, broken 1
~
%p x(v) unique %p n(v, w) transitive reflexive symmetric %% %action Act() {} %% L Act() L;
%n = {a, b} %p = { n = {a->b, b->b} };;
2, ok, broken 2
~
%p x(v) unique %p b() %r x(v) ==> b() %r b() & x(v) & x(w) ==> v == w %% %action Act() {} %% L Act() L;
%n = {a, b} %p = { x = {a, b} b = 1 };;
2, ok, broken 0
~
%p x(v) %p y(v) %r x(v) & y(w) ==> v != w %r x(v) ==> !y(v) %r E(v) x(v) & y(v) ==> 0
%% %action Act() {} %% L Act() L;
%n = {a, b} %p = { x = {a} y = {a, b} };;
2, ok, broken 0
~
%p x(v) %p y(v) %p n(v, w) %r x(v) & n(v, w) & n(w, u) & n(u, z) ==> y(z) %% %action Act() {} %% L Act() L;
%n = {a, b, c, d} %p = { x = {a} n = {a->b, b->c, c->d, c->a} y = {d} };;
4, ok, broken 0
~
%p x(v) %p y(v) %p n(v, w) %r x(v) & n(v, w) & n(w, u) & n(u, z) ==> y(z) %% %action Act() {} %% L Act() L;
%n = {a, b, c, d} %p = { x = {a} n = {a->b, b->c, c->d, c->a} y = {a, d} };;
4, ok, ok
~
%p b() %r b() ==> 0 %% %action Act() {} %% L Act() L;
%n = {} %p = { b = 1 };;
0, ok, broken 0
~
%p b() %r A(v) b() ==> 0 %r b() ==> !b() %% %action Act() {} %% L Act() L;
%n = {} %p = { b = 1 };;
0, ok, broken 0
~
%p x(v) %i d(v) = !x(v) %i e(v) = d(v) %i f() = E(v) e(v) %% %action Act() {} %% L Act() L;
%n = {a, b} %p = { x = {a} d = {b} e = {b} f = 1 };;
2, ok, ok
~
%p x(v) %i d(v) = !x(v) %i e(v) = d(v) %i f() = E(v) e(v) %% %action Act() {} %% L Act() L;
%n = {a, b} %p = { x = {a} d = {a} e = {a} f = 1 };;
2, broken d, ok
~
%p x(v) %i e(v) = d(v) %i d(v) = !x(v) %i f() = E(v) e(v) %% %action Act() {} %% L Act() L;
%n = {a, b} %p = { x = {a} d = {a} e = {a} f = 1 };;
2, broken d, ok
~
%p x(v) %i d(v) = !x(v) %i f() = E(v) d(v) %% %action Act() {} %% L Act() L;
%n = {a} %p = { x = {a} f = 1 };;
1, broken f, ok
~
%p n(v, w) %i t(v, w) = n*(v, w) %% %action Act() {} %% L Act() L;
%n = {a, b, c} %p = { n = {a->b, b->c} t = {a->a, a->b, a->c, b->b, b->c, c->c} };;
3, ok, ok
~
%p n(v, w) %i t(v, w) = n*(v, w) %% %action Act() {} %% L Act() L;
%n = {a, b, c} %p = { n = {a->b, b->c} t = {a->a, a->b, a->c, b->b, b->c} };;
3, broken t, ok
~
%p n(v, w) %i t(w, v) = n*(v, w) %% %action Act() {} %% L Act() L;
%n = {a, b} %p = { n = {a->b} t = {a->a, b->a, b->b} };;
2, ok, ok
~
%p x(v) %i d(v) = !x(v) %% %action Act() { { x(v) = !x(v) d(v) = x(v) } } %% L Act() L;
%n = {a, b} %p = { x = {a} d = {b} };
step 0 step 0;
2, ok, ok
2, ok, ok
2, ok, ok
~
%p x(v) %i d(v) = !x(v) %% %action Act() { { x(v) = !x(v) d(v) = d(v) } } %% L Act() L;
%n = {a, b} %p = { x = {a} d = {b} };
step 0;
2, ok, ok
2, broken d, ok
~
%p x(v) %i d(v) = !x(v) %i e() = E(v) d(v) %% %action Act() { { x(v) = 0 e() = 0 d(v) = d(v) } } %% L Act() L;
%n = {a, b} %p = { x = {a} d = {b} e = 1 };
step 0;
2, ok, ok
2, broken d, ok
~
%p x(v) %i d(v) = !x(v) %i e() = E(v) d(v) %% %action Act() { { x(v) = 0 e() = 0 d(v) = 1 } } %% L Act() L;
%n = {a, b} %p = { x = {a} d = {b} e = 1 };
step 0;
2, ok, ok
2, broken e, ok
~
%p x(v) %i d(v) = !x(v) %% %action Act() { { x(v) = 1 } } %% L Act() L;
%n = {a, b} %p = { x = {a} d = {a} };
step 0;
2, broken d, ok
2, ok, ok
~
%p x(v) %i d(v) = !x(v) %% %action Act() { %new { x(v) = isNew(v) d(v) = !isNew(v) } } %% L Act() L;
%n = {a} %p = { d = {a} };
step 0 step 0;
1, ok, ok
2, ok, ok
3, ok, ok
~
%p x(v) %i d(v) = !x(v) %% %action Act() { %retain !x(v) { d(v) = x(v) } } %% L Act() L;
%n = {a, b, c} %p = { x = {a} d = {b, c} };
step 0;
3, ok, ok
2, broken d, ok
~
%p x(v) %i d(v) = !x(v) %% %action Act() { %retain !x(v) { d(v) = 1 } } %% L Act() L;
%n = {a, b, c} %p = { x = {a} d = {b, c} };
step 0;
3, ok, ok
2, ok, ok
~
%p x(v) %p y(v) %% %action Act() { %p x(v) & !y(v) { x(w) = x(w) & w != v y(w) = y(w) | w == v } } %% L Act() L;
%n = {a, b, c} %p = { x = {a, b} y = {b} };
step 0 (0);
3, ok, ok
3, ok, ok
~
%p x(v) %p y(v) %% %action Act() { %p x(v) & !y(v) { x(w) = x(w) & w != v y(w) = y(w) | w == v } } %% L Act() L;
%n = {a, b, c} %p = { x = {a, b} y = {b} };
step 0;
stuck: step 1 picks
~
%p x(v) %p y(v) %% %action Act() { %p x(v) & !y(v) { x(w) = x(w) & w != v y(w) = y(w) | w == v } } %% L Act() L;
%n = {a, b, c} %p = { x = {a, b} y = {b} };
step 0 (3);
stuck: step 1 picks
~
%p x(v) %p y(v) %% %action Act() { %p x(v) & !y(v) { x(w) = x(w) & w != v y(w) = y(w) | w == v } } %% L Act() L;
%n = {a, b, c} %p = { x = {a, b} y = {b} };
step 0 (0, 1);
stuck: step 1 picks
~
%p x(v) %p y(v) %% %action Act() { %p x(v) & !y(v) { x(w) = x(w) & w != v y(w) = y(w) | w == v } } %% L Act() L;
%n = {a, b, c} %p = { x = {a, b} y = {b} };
step 0 (1);
stuck: step 1 precondition
~
%p x(v) %p y(v) %% %action Act() { %p x(v) & !y(v) { x(w) = x(w) & w != v y(w) = y(w) | w == v } } %% L Act() L;
%n = {a, b, c} %p = { x = {a, b} y = {b} };
step 0 (2);
stuck: step 1 precondition
~
%p x(v) %p y(v) %% %action Act() { %p x(v) & !y(v) { x(w) = x(w) & w != v y(w) = y(w) | w == v } } %% L Act() L;
%n = {a, b, c} %p = { x = {a, b} y = {b} };
step 0 (0) step 0 (0);
stuck: step 2 precondition
~
%p x(v) %p y(v) %% %action Act() { %p x(v) & !y(v) { x(w) = x(w) & w != v y(w) = y(w) | w == v } } %% L Act() L;
%n = {a, b, c} %p = { x = {a, b} y = {b} };
step 0 (0) step 0 (9);
stuck: step 2 picks
~
%p x(v) %p y(v) %% %action Act() { { x(v) = 1/2 y(v) = x(v) } } %% L Act() L;
%n = {a, b, c} %p = { x = {a, b} y = {b} };
step 0;
stuck: step 1 values
~
%p x(v) %p y(v) %% %action Act() { { x(v) = 1/2 y(v) = x(v) } } %% L Act() L;
%n = {a, b, c} %p = { x = {a, b} y = {b} };
step 0 free %n = {a, b, c} %p = { x = {c} };
3, ok, ok
3, ok, ok
~
%p x(v) %p y(v) %% %action Act() { { x(v) = 1/2 y(v) = x(v) } } %% L Act() L;
%n = {a, b, c} %p = { x = {a, b} y = {b} };
step 0 free %n = {a, b} %p = { x = {a} };
stuck: step 1 values
~
%p x(v) %p y(v) %% %action Act() { { x(v) = 1/2 y(v) = x(v) } } %% L Act() L;
%n = {a, b, c} %p = { x = {a, b} y = {b} };
step 0 free %n = {a, b, c} %p = { x = {c:1/2} };
stuck: step 1 values
~
%p x(v) %p y(v) %% %action Act() { { x(v) = 1/2 y(v) = x(v) } } %% L Act() L;
%n = {a, b, c} %p = { x = {a, b} y = {b} };
step 0 free %n = {a, b, c} %p = { x = {c} y = {a:1/2} sm = {a:1/2} };
3, ok, ok
3, ok, ok
~
%p x(v) %p y(v) unique
%% %action Act() { %new %retain !x(v) | isNew(v) { x(v) = isNew(v) y(v) = y(v) | isNew(v) } } %% L Act() L;
%n = {a, b, c} %p = { x = {a, b} y = {b} };
step 0;
3, ok, ok
2, ok, ok
~
%p x(v) %p n(v, w) %i r(v) = E(w) x(w) & n*(w, v)
%% %action Act() { %new { x(v) = isNew(v) n(v, w) = n(v, w) | isNew(v) & x(w) r(v) = r(v) | isNew(v) } } %% L Act() L;
%n = {a, b, c} %p = { x = {a} n = {a->b} r = {a, b} };
step 0 step 0;
3, ok, ok
4, ok, ok
5, ok, ok
";

/// An action that changes the one predicate.
const FLIP: &str = "%p b() %% %action Flip() { { b() = !b() } } %% L0 Flip() L1";

/// A report on it, with the initial structure `ON`.
const FLIPPED: &str = "tvla report 2
node L0 structures 1 %n = {} %p = { b = 1 }
node L1 structures 1 %n = {} %p = {}
end";

const ON: &str = "%n = {} %p = { b = 1 }";

/// Heaps and traces, and how calls of these files end. A trace `-` isn't there.
const FLIPS: &str = "%n = {} %p = { b = 1 };step 0;
state 0 node L0 size 0
concrete ok
initial 0 {}
rules ok
listed 0 {}
state 1 node L1 size 0
updates ok
rules ok
listed 0 {}
end
exit 0
~%n = {} %p = { b = 1 };step 0 step 0;
stuck: step 2 edge
exit 1
~%n = {} %p = {};step 0;
state 0 node L0 size 0
concrete ok
initial none
rules ok
listed none
state 1 node L1 size 0
updates ok
rules ok
listed none
end
exit 0
~%n = {} %p = { b = 1/2 };step 0;
exit 3
tvla: start: NotHeap
~%n = {} %p = {} %n = {} %p = {};step;
exit 3
tvla: start: NotHeap
~;step 0;
exit 3
tvla: start: NotHeap
~%n = {} %p = { c = 1 };step 0;
exit 3
tvla: start: NameUnknown
~%n = {} %p = { b = 1 };step 1;
exit 3
tvla: trace: TraceForm at 1:1
~%n = {} %p = { b = 1 };-;
exit 5
tvla: read fault
";

/// Programs, heaps, traces, initial structures and reports, and how the calls end.
const ENDINGS: &str = "%p b() %p c() %i d() = b() & c() %r b() ==> c()
%% %action Set() { { b() = 1 d() = 1 } } %% L0 Set() L1;
%n = {} %p = { d = 1 };step 0;%n = {} %p = {};
tvla report 2 end;
state 0 node L0 size 0
concrete broken d
initial none
rules ok
listed none
state 1 node L1 size 0
updates broken d
rules broken 0
listed none
end
exit 0
~
%p b() %% %action Flip() { { b() = !b() } } %% L0 Flip() L1;
%n = {} %p = { b = 1 };step 0;%n = {} %p = { b = 1 };
report;
exit 3
tvla: report: ReportForm at 2:1
~
%p x(v) %% %action Act() {} %% L Act() L;
%n = {a, b} %p = { x = {a} sm = {b:1/2} };step 0;
exit 3
tvla: start: NotHeap
";

/// Numbers of cells in a row, traces, and what is written.
const CHAINS: &str = "255;step 0;
state 0 node L size 255
concrete ok
initial none
rules ok
listed none
state 1 node L size 256
updates ok
rules ok
listed none
end
exit 0
~255;step 0 step 0;
stuck: step 2 individuals
exit 1
~256;step 0;
stuck: step 1 individuals
exit 1
~257;step 0;
exit 3
tvla: start: TooManyIndividuals
";

/// How many individuals a freely updated predicate's structure has, for a heap of three, and what is written.
const CROWDS: &str = "256;
stuck: step 1 values
exit 1
~257;
exit 3
tvla: trace: TraceForm at 1:1
";

/// A program with a free update, and a heap.
const FREE: &str =
    "%p x(v) %% %action Act() { { x(v) = 1/2 } } %% L Act() L;%n = {a, b, c} %p = {}";

/// A program whose action adds an individual, with a rule of four variables.
const GROWING: &str = "%p n(v, w) function %r n(v, w) & n(w, u) & n(u, z) ==> !n(z, v)
%% %action Act() { %new } %% L Act() L";

/// The names of the files in the order of the cells of a row.
const NAMES: [&str; 5] = ["p", "s", "t", "i", "r"];

/// The initial structures, in which no heap of these rows embeds, and a report that lists nothing.
const OTHERS: [&str; 2] = ["%n = {} %p = {}", "tvla report 2 end"];

/// What the replay of these texts writes, and its exit code.
fn told(alloc: Global, texts: &[&str]) -> Result<String, AllocError> {
    let mut held = Vec::new(alloc);
    for (name, text) in NAMES.iter().zip(texts.iter().chain(OTHERS.iter())) {
        if *text != "-" {
            held.push((*name, *text))?;
        }
    }
    let files = files_of(alloc, &held, &CALM)?;
    let found = called(alloc, &["replay", "p", "i", "s", "t", "r"], files, &CALM)?;
    let code = found.code;
    let out = String::from_utf8_lossy(alloc, found.out.taken())?;
    let err = String::from_utf8_lossy(alloc, found.err.taken())?;
    format!(in alloc; "\n{out}exit {code}\n{err}")
}

/// The text of the state of this number that a row tells.
fn state_text(alloc: Global, number: usize, told: &str) -> Result<String, AllocError> {
    let (size, behind) = told.split_once(", ").unwrap_or((told, ""));
    let (met, rules) = behind.split_once(", ").unwrap_or((behind, ""));
    let first = if number == 0 {
        format!(in alloc; "concrete {met}\ninitial none")?
    } else {
        format!(in alloc; "updates {met}")?
    };
    format!(in alloc; "state {number} node L size {size}\n{first}\nrules {rules}\nlisted none\n")
}

/// The text of the replay that a row tells.
fn replay_text(alloc: Global, told: &str) -> Result<String, AllocError> {
    if told.starts_with("stuck") {
        return format!(in alloc; "\n{told}\nexit 1\n");
    }
    let mut states = String::new(alloc);
    for (number, state) in told.split('\n').enumerate() {
        states.push_str(&state_text(alloc, number, state)?)?;
    }
    format!(in alloc; "\n{states}end\nexit 0\n")
}

/// Whether a program, a heap and a trace are replayed as the last cell tells.
fn is_replayed(alloc: Global, row: &str) -> Result<bool, AllocError> {
    let Some((texts, wanted)) = row.rsplit_once(';') else {
        return Ok(false);
    };
    let wanted = replay_text(alloc, wanted.trim())?;
    is_met(alloc, &format!(in alloc; "{texts};{wanted}")?)
}

/// Whether a heap and a trace of the action that changes a predicate are told as the row says.
fn is_met_by_flips(alloc: Global, row: &str) -> Result<bool, AllocError> {
    let Some((texts, wanted)) = row.rsplit_once(';') else {
        return Ok(false);
    };
    is_met(
        alloc,
        &format!(in alloc; "{FLIP};{texts};{ON};{FLIPPED};{wanted}")?,
    )
}

/// Whether the texts in front of the last cell are told as it says.
fn is_met(alloc: Global, row: &str) -> Result<bool, AllocError> {
    let mut cells = Vec::new(alloc);
    for cell in row.split(';') {
        cells.push(cell)?;
    }
    let Some((wanted, texts)) = cells.as_slice().split_last() else {
        return Ok(false);
    };
    Ok(told(alloc, texts)?.as_str() == *wanted)
}

/// A heap of so many cells, each of which leads to the next.
fn chain(alloc: Global, count: u32) -> Result<String, AllocError> {
    let mut cells = String::new(alloc);
    let mut pairs = String::new(alloc);
    for cell in 1..count {
        cells.push_str(&format!(in alloc; ", u{cell}")?)?;
        pairs.push_str(&format!(in alloc; ", u{}->u{cell}", cell - 1)?)?;
    }
    format!(in alloc; "%n = {{u0{cells}}} %p = {{ n = {{u0->u0:0{pairs}}} }}")
}

/// A number of individuals at the limit.
fn number(count: &str) -> u32 {
    match count {
        "255" => 255,
        "257" => 257,
        _ => 256,
    }
}

/// Whether a step with so many individuals for a free update is told as the row says.
fn is_met_by_crowds(alloc: Global, row: &str) -> Result<bool, AllocError> {
    let Some((count, rest)) = row.split_once(';') else {
        return Ok(false);
    };
    let mut cells = String::new(alloc);
    for cell in 1..number(count) {
        cells.push_str(&format!(in alloc; ", u{cell}")?)?;
    }
    let row = format!(in alloc;
        "{FREE};step 0 free %n = {{u0{cells}}} %p = {{ x = {{u0}} }};{rest}"
    )?;
    is_met(alloc, &row)
}

/// Whether the run of a chain is told as the row says.
fn is_met_by_chains(alloc: Global, row: &str) -> Result<bool, AllocError> {
    let Some((count, rest)) = row.split_once(';') else {
        return Ok(false);
    };
    let start = chain(alloc, number(count))?;
    let row = format!(in alloc; "{GROWING};{start};{rest}")?;
    is_met(alloc, &row)
}

#[test]
fn replays_end_as_they_should(rt: HostRuntime) -> Result<(), Fail> {
    for row in RUNS.split('~') {
        assert!(rt; is_replayed(rt.alloc(), row)?, "{row}");
    }
    for row in FLIPS.split('~') {
        assert!(rt; is_met_by_flips(rt.alloc(), row)?, "{row}");
    }
    for row in ENDINGS.split('~') {
        assert!(rt; is_met(rt.alloc(), row)?, "{row}");
    }
    for row in CHAINS.split('~') {
        assert!(rt; is_met_by_chains(rt.alloc(), row)?, "{row}");
    }
    for row in CROWDS.split('~') {
        assert!(rt; is_met_by_crowds(rt.alloc(), row)?, "{row}");
    }
    Ok(())
}
