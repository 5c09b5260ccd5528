//! Small programs and structures, in several commands.

use crate::call::{ANALYZE, Call, ended, wrong_part};
use std::alloc::{AllocError, Global};
use std::test::Fail;
use tv_test_call::{CALM, Ending, FLIP_REPORT, USAGE};

/// The words of a call, or of several with `|` between them, PROGRAM `p`, INITIAL `i` and REPORT `r`, with
/// `;` behind each; then what is written, the exit code, and what is told. `~` stands between rows.
const ROWS: &str = "analyze p i;%p x(v) %p y(v) %% %action Any() { { y(v) = 1/2 } } %% L0 Any() L1;
%n = {u} %p = { x = {u} };;
tvla report 2
node L0 structures 1
%n = {i0}
%p = {
  x = {i0}
}
node L1 structures 1
%n = {i0}
%p = {
  x = {i0}
  y = {i0:1/2}
}
end
exit 0
~
analyze p i;// a cell behind the head is reached for certain by no way, and may be reached
%p x(v) %p n(v_1, v_2)
%% %action Reach() { %p E(a, b) x(a) & !x(b) & n+(a, b) } %% L0 Reach() L1;
%n = {h, u} %p = { x = {h} n = {h->u:1/2, u->u:1/2} sm = {u:1/2} };;
tvla report 2
node L0 structures 1
%n = {i0, i1}
%p = {
  x = {i1}
  n = {i0->i0:1/2, i1->i0:1/2}
  sm = {i0:1/2}
}
node L1 structures 1
%n = {i0, i1}
%p = {
  x = {i1}
  n = {i0->i0:1/2, i1->i0:1/2}
  sm = {i0:1/2}
}
end
exit 0
~
analyze p i;%p x(v) %p n(v_1, v_2)
%% %action Reach() { %p E(a, b) x(a) & !x(b) & n+(a, b) } %% L0 Reach() L1;
%n = {h, u} %p = { x = {h} n = {u->u:1/2} sm = {u:1/2} };;
tvla report 2
node L0 structures 1
%n = {i0, i1}
%p = {
  x = {i1}
  n = {i0->i0:1/2}
  sm = {i0:1/2}
}
node L1 structures 0
end
exit 0
~
analyze p i|analyze p i --recompute;
%p x(v) %i e() = E(v) x(v) %% %action New() { %new { x(v) = isNew(v) } } %% L0 New() L1;
%n = {} %p = {};;
tvla report 2
node L0 structures 1
%n = {}
%p = {
}
node L1 structures 1
%n = {i0}
%p = {
  x = {i0}
  e = 1
}
end
exit 0
~
analyze p i;// no heap has the definition broken
%p x(v) %i e() = E(v) x(v) %% %action New() { %new { x(v) = isNew(v) } } %% L0 New() L1;
%n = {} %p = { e = 1 };;
tvla report 2
node L0 structures 0
node L1 structures 0
end
exit 0
~
analyze p i;// what is unique isn't many
%p x(v) unique %% %action Skip() { } %% L0 Skip() L1;
%n = {u} %p = { x = {u} sm = {u:1/2} };;
tvla report 2
node L0 structures 1
%n = {i0}
%p = {
  x = {i0}
}
node L1 structures 1
%n = {i0}
%p = {
  x = {i0}
}
end
exit 0
~
analyze p i;// the given update contradicts the definition
%p b() %i d() = b() %% %action Set() { { b() = 1 d() = 0 } } %% L0 Set() L1;
%n = {} %p = {};;
tvla report 2
node L0 structures 1
%n = {}
%p = {
}
node L1 structures 0
end
exit 0
~
analyze --recompute p i;%p b() %i d() = b() %% %action Set() { { b() = 1 d() = 0 } } %% L0 Set() L1;
%n = {} %p = {};;
tvla report 2
node L0 structures 1
%n = {}
%p = {
}
node L1 structures 1
%n = {}
%p = {
  b = 1
  d = 1
}
end
exit 0
~
analyze p i;// there is nothing to pick
%p x(v) %p y(v) %% %action Pick() { %p x(v) { y(w) = w == v } } %% L0 Pick() L1;
%n = {} %p = {};;
tvla report 2
node L0 structures 1
%n = {}
%p = {
}
node L1 structures 0
end
exit 0
~
demo 16;;
%n = {} %p = {};;
demo 16 pairs 319 messages 0
exit 0
~
check p i r;// no map takes two individuals onto one of two
%p x(v) %% %action Skip() { } %% L0 Skip() L1;
%n = {u, w} %p = { x = {u} };
tvla report 2
node L0 structures 1 %n = {i0, i1} %p = { x = {i0:1/2, i1:1/2} }
node L1 structures 1 %n = {i0} %p = { x = {i0:1/2} sm = {i0:1/2} }
map initial 0 to 0 {0, 0}
map edge 0 0 0 to 0 {0}
end;
rejected: initial 0
exit 1
~
check p i r;// a map to a structure that isn't listed
%p x(v) %% %action Skip() { } %% L0 Skip() L1;
%n = {u, w} %p = { x = {u} };
tvla report 2
node L0 structures 1 %n = {i0, i1} %p = { x = {i0:1/2, i1:1/2} }
node L1 structures 1 %n = {i0} %p = { x = {i0:1/2} sm = {i0:1/2} }
map initial 0 to 0 {0, 1}
map edge 0 0 0 to 1 {0}
end;
exit 3
tvla: report: ReportForm at 6:1
~
check p i r;// a report of the first version has no maps
%p x(v) %% %action Skip() { } %% L0 Skip() L1;
%n = {u, w} %p = { x = {u} };
tvla report 1
node L0 structures 1 %n = {i0, i1} %p = { x = {i0:1/2, i1:1/2} }
node L1 structures 1 %n = {i0} %p = { x = {i0:1/2} sm = {i0:1/2} }
map initial 0 to 0 {0, 1}
end;
exit 3
tvla: report: ReportForm at 5:1
~
check p i r;// two individuals in one that is no summary
%p x(v) %% %action Skip() { } %% L0 Skip() L1;
%n = {u, w} %p = { x = {u} };
tvla report 2
node L0 structures 1 %n = {i0} %p = { x = {i0:1/2} }
node L1 structures 0
end;
rejected: initial 0
exit 1
";

/// The words of a line.
fn words_of<'a>(alloc: Global, line: &'a str) -> Result<Vec<&'a str>, AllocError> {
    let mut words = Vec::new(alloc);
    for word in line.split_whitespace() {
        words.push(word)?;
    }
    Ok(words)
}

/// How a call ends.
fn told(alloc: Global, call: &Call<'_, '_, '_, '_>) -> Result<String, AllocError> {
    let found = ended(alloc, call, &CALM)?;
    let out = String::from_utf8_lossy(alloc, found.out.taken())?;
    let err = String::from_utf8_lossy(alloc, found.err.taken())?;
    format!(in alloc; "\n{out}exit {}\n{err}", found.code)
}

/// Whether each call of a line ends so, on these texts.
fn end_so(alloc: Global, line: &str, texts: [&str; 3], wanted: &str) -> Result<bool, AllocError> {
    let [program, initial, report] = texts;
    for words in line.split('|') {
        let words = words_of(alloc, words)?;
        let call = Call {
            words: words.as_slice(),
            program,
            initial,
            report,
            more: &[],
        };
        if told(alloc, &call)?.as_str() != wanted {
            return Ok(false);
        }
    }
    Ok(true)
}

/// Whether the calls of a row end as the row says.
fn is_met(alloc: Global, row: &str) -> Result<bool, AllocError> {
    let mut cells = Vec::new(alloc);
    for cell in row.split(';') {
        cells.push(cell)?;
    }
    let [line, program, initial, report, wanted] = cells.as_slice() else {
        return Ok(false);
    };
    end_so(alloc, line, [program, initial, report], wanted)
}

#[test]
fn calls_end_as_they_should(rt: HostRuntime) -> Result<(), Fail> {
    for row in ROWS.split('~') {
        assert!(rt; is_met(rt.alloc(), row)?, "{row}");
    }
    Ok(())
}

/// Words that spell a command, though another order or spelling is the usual one.
const COMMANDS: &str = "analyze --max-structures=2 -- p i
analyze p --recompute i --max-structures 100000
analyze -- p i";

/// Words that spell none.
const NO_COMMANDS: &str = "
--help
analyze p
analyze p i --max-structures 02
analyze p i --max-structures 100001
analyze p i --recompute --recompute
check p i
demo 17
demo 0";

const MISUSED: Ending<'static, 'static> = Ending {
    code: 2,
    out: "",
    err: USAGE,
};

const FLIPPED: Ending<'static, 'static> = Ending {
    code: 0,
    out: FLIP_REPORT,
    err: "",
};

/// Whether a call of these words on the flip ends so.
fn ends(alloc: Global, line: &str, wanted: &Ending<'_, '_>) -> Result<bool, AllocError> {
    let words = words_of(alloc, line)?;
    let call = Call {
        words: words.as_slice(),
        program: "%p b() %% %action Flip() { { b() = !b() } } %% L0 Flip() L1",
        initial: "%n = {} %p = { b = 1 }",
        ..ANALYZE
    };
    Ok(wrong_part(alloc, &call, &CALM, wanted)?.is_none())
}

#[test]
fn words_are_read(rt: HostRuntime) -> Result<(), Fail> {
    for line in COMMANDS.split('\n') {
        assert!(rt; ends(rt.alloc(), line, &FLIPPED)?, "{line}");
    }
    for line in NO_COMMANDS.split('\n') {
        assert!(rt; ends(rt.alloc(), line, &MISUSED)?, "{line}");
    }
    Ok(())
}
