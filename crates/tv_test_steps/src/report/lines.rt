//! Map lines that no report's text has: two for one item, and one whose target isn't listed.

use super::judged::{analysis, told};
use std::alloc::Global;
use std::test::Fail;
use tv_judge::judge;
use tv_listing::{Item, MapLine, MapLines};
use tv_model::Mode;
use tv_struct::Numbers;
use tv_test_reader::{structures, whole_program};

const SKIP: &str = "%p x(v) %% %action Skip() { } %% L0 Skip() L1";

const REPORT: &str = "tvla report 1 node L0 structures 1 %n = {a, b} %p = { x = {a:1/2, b:1/2} }
    node L1 structures 1 %n = {c} %p = { x = {c:1/2} sm = {c:1/2} } end";

/// Lines for the first initial structure: the number of their target, and a map.
fn map_lines(alloc: Global, lines: &[(u32, [u32; 2])]) -> Result<MapLines, Fail> {
    let mut maps = MapLines::new(alloc);
    for (target, map) in lines {
        maps.push(MapLine {
            item: Item::Initial(0),
            target: *target,
            map: Numbers::from_vec(map.as_slice().to_vec(alloc)?),
        })?;
    }
    Ok(maps)
}

/// Whether the verdict on the report with these map lines is the wanted one.
fn is_met(alloc: Global, lines: &[(u32, [u32; 2])], wanted: &str) -> Result<bool, Fail> {
    let program = whole_program(alloc, SKIP)?;
    let initial = structures(alloc, &program, "%n = {u, w} %p = { x = {u} }")?;
    let mut analysis = analysis(alloc, &program, REPORT)?;
    analysis.maps = map_lines(alloc, lines)?;
    let verdict = judge(alloc, &program, &initial, &analysis, Mode::Given);
    Ok(told(alloc, &verdict)?.as_str() == wanted)
}

/// A map that is none onto its target, and one whose target isn't listed, beside a right one.
const ROWS: [([(u32, [u32; 2]); 2], &str); 3] = [
    (
        [(0, [1, 0]), (0, [0, 0])],
        "accepted; initial 0 to 0 1 0; edge 0 0 0 to 0 0",
    ),
    ([(0, [0, 0]), (0, [1, 0])], "initial 0"),
    ([(1, [1, 0]), (0, [1, 0])], "initial 0"),
];

#[test]
fn the_first_line_counts(rt: HostRuntime) -> Result<(), Fail> {
    for (lines, wanted) in ROWS {
        assert!(rt; is_met(rt.alloc(), &lines, wanted)?, "{lines:?}");
    }
    Ok(())
}
