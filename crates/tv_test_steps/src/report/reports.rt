//! Reports that are read, and reports that are refused. Places and texts were worked out by hand: each place
//! is that of the first token of a node, message or map, or of the token that can't stand where it does.

use super::read::answer;
use std::alloc::Global;
use std::test::Fail;
use tv_test_reader::{unfolded, whole_program};

/// Two nodes, two edges, and two messages along each edge.
const FLIPS: &str = "%p b() %p x(v) %% %action Flip() { %message b() -> \"set\" \
    %message !b() -> \"unset\" { b() = !b() } } %% L0 Flip() L1 L1 Flip() L1";

/// Reports, and what is read. `;` stands for a line feed.
static REPORTS: &str =
    "tvla report 1 end => tvla report 2;node L0 structures 0;node L1 structures 0;end;
tvla report 2 end => tvla report 2;node L0 structures 0;node L1 structures 0;end;
/* a */ tvla;// b;report 1;\tend // c => tvla report 2;node L0 structures 0;node L1 structures 0;end;
 => 1:1
tvla report 1 => 1:14
tvla report 3 end => 1:13
tvla reports 1 end => 1:6
tvla report 1 end end => 1:19
tvla report 1 node L0 structures 0 node => 1:40
tvla report 1;node L0 structures 01 end => 2:20
tvla report 1;node L0 structures 4294967296 end => 2:20
tvla report 1;node L0 structures 4294967295 end => 2:31
tvla report 1;node L0 structures 2 %n = {} %p = {} end => 2:38
tvla report 1;node L0 structures 0 %n = {} %p = {} end => 2:22
tvla report 1 message 0 0 0 \"\" end => 1:27
tvla report 1 message 0 0 1 end => 1:29
tvla report 1 message 0 0 1 \"\" node L0 structures 0 end => 1:32
tvla report 1 node L0 structures 1 %n = {} %p = {};map initial 0 to 0 {} end => 2:1
tvla report 2 node L0 structures 1 %n = {} %p = {};map initial 0 to 0 {0,} end => 2:23
tvla report 2 map first 0 to 0 {} end => 1:19
tvla report 2 map initial 0 to 0 end => 1:34
tvla report 1 node L1 structures 1 %n = {a} %p = {x = {a:1/2} sm = {a:1/2}};node L0 structures 2 %n = {} %p = {b \
    = 1} %n = {} %p = {} end => \
    tvla report 2;node L0 structures 2;%n = {};%p = {;  b = 1;};%n = {};%p = {;};node L1 structures 1;%n = {i0};\
    %p = {;  x = {i0:1/2};  sm = {i0:1/2};};end;
tvla report 2 node L0 structures 0 end => tvla report 2;node L0 structures 0;node L1 structures 0;end;
tvla report 1 node L2 structures 0 end => 1:15
tvla report 1 node L0 structures 0;node L1 structures 0 node L0 structures 0 end => 2:22
tvla report 1 node L0 structures 0;node L1 structures 1 %n = {a, a} %p = {} end => 2:1
tvla report 1 node L0 structures 2 %n = {} %p = {};%n = {a} %p = {x = {c}} end => 1:15
tvla report 1;  node L0 structures 1 %n = {} %p = {y = 1} end => 2:3
tvla report 1;  node L0 structures 1 %n = {} %p = {x = 1} end => 2:3
tvla report 1;  node L0 structures 1 %n = {a} %p = {sm = {a}} end => 2:3
tvla report 1 message 1 1 1/2 \"any\" message 0 0 1 \"\" end => \
    tvla report 2;node L0 structures 0;node L1 structures 0;message 1 1 1/2 \"unset\";message 0 0 1 \"set\";end;
tvla report 1 message 0 0 1 \"\" message 0 2 1 \"\" end => 1:32
tvla report 1 message 2 0 1 \"\" end => 1:15
tvla report 1 message 0 1 1 \"\" message 1 1 1 \"\" message 0 1 1/2 \"\" end => 1:49
tvla report 2 node L0 structures 1 %n = {} %p = {} map initial 7 to 0 {} end => \
    tvla report 2;node L0 structures 1;%n = {};%p = {;};node L1 structures 0;map initial 7 to 0 {};end;
tvla report 2 node L0 structures 1 %n = {} %p = {} map initial 0 to 1 {} end => 1:52
tvla report 2 node L9 structures 0 message 9 9 1 \"\" map initial 9 to 9 {} end => 1:15
tvla report 2 message 9 9 1 \"\" map initial 9 to 9 {} end => 1:15
tvla report 2 node L9 structures 0 message 9 9 1 \"\" stop => 1:53
tvla report 1 node % end => no tokens";

/// The nodes of a report, with one structure and with two.
const NODES: &str = "tvla report 2 node L0 structures 1 %n = {} %p = {} \
    node L1 structures 2 %n = {} %p = {b = 1} %n = {} %p = {};";

/// What stands behind them, and what is read of both.
static BEHIND_NODES: &str =
    "map edge 1 1 4294967295 to 1 {2,0} map initial 0 to 0 {3} map edge 0 0 0 to 1 {};end => \
    tvla report 2;node L0 structures 1;%n = {};%p = {;};node L1 structures 2;%n = {};%p = {;  b = 1;};%n = {};%p \
    = {;};map edge 1 1 4294967295 to 1 {2, 0};map initial 0 to 0 {3};map edge 0 0 0 to 1 {};end;
map initial 0 to 1 {} end => 2:1
map edge 2 0 0 to 0 {} end => 2:1
map edge 0 1 0 to 0 {} end => 2:1
map edge 0 0 0 to 2 {} end => 2:1
map edge 1 2 0 to 0 {} end => 2:1
map edge 0 0 1 to 0 {} map edge 1 0 1 to 0 {} map edge 0 0 1 to 1 {} end => 2:47
map initial 3 to 0 {} map initial 2 to 0 {} map initial 3 to 0 {} end => 2:45";

/// Whether what is read of a report, whose front is given and whose end a line tells, is what the line tells.
fn is_met(alloc: Global, front: &str, line: &str) -> Result<bool, Fail> {
    let Some((end, wanted)) = line.split_once(" => ") else {
        return Ok(false);
    };
    let program = whole_program(alloc, FLIPS)?;
    let whole = format!(in alloc; "{front}{end}")?;
    let found = answer(alloc, &program, unfolded(alloc, whole.as_str())?.as_slice())?;
    Ok(found.as_slice() == unfolded(alloc, wanted)?.as_slice())
}

#[test]
fn reports_are_read_or_refused(rt: HostRuntime) -> Result<(), Fail> {
    for (front, lines) in [("", REPORTS), (NODES, BEHIND_NODES)] {
        for line in lines.lines() {
            assert!(rt; is_met(rt.alloc(), front, line)?, "{line}");
        }
    }
    Ok(())
}

/// A program, and the report of its analysis where `b` is true at first.
const FLIP: &str = "%p b() %% %action Flip() { { b() = !b() } } %% L0 Flip() L1";

const FLIP_REPORT: &str = "tvla report 1\nnode L0 structures 1\n%n = {}\n%p = {\n  b = 1\n}\n\
    node L1 structures 1\n%n = {}\n%p = {\n}\nend\n";

/// Where the first bytes of a report are cut off behind a `%`.
const CUT_DIRECTIVES: [usize; 4] = [36, 44, 82, 90];

/// Whether the first bytes of the report are read as their length tells.
fn is_cut(alloc: Global, len: usize) -> Result<bool, Fail> {
    let program = whole_program(alloc, FLIP)?;
    let text = FLIP_REPORT.as_bytes();
    let found = answer(alloc, &program, text.get(..len).unwrap_or(text))?;
    let is_no_text = found.as_slice().starts_with(b"no") == CUT_DIRECTIVES.contains(&len);
    let is_whole = found.as_slice().starts_with(b"tvla") == (len > 100);
    Ok(is_no_text && is_whole && (len != 40 || found.as_slice() == b"3:6".as_slice()))
}

#[test]
fn a_report_is_read_to_its_end(rt: HostRuntime) -> Result<(), Fail> {
    assert!(rt; FLIP_REPORT.len() == 102);
    for len in 0..102 {
        assert!(rt; is_cut(rt.alloc(), len)?, "of {len} bytes");
    }
    Ok(())
}
