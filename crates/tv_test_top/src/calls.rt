//! Rows of whole calls over the files and sinks in memory.

use std::test::Fail;
use tv_test_call::{
    CALM, FLIP, FLIP_INITIAL, FLIP_REPORT, LIST_PREDICATES, Outside, PLAIN, Row, USAGE, wrong_part,
};

/// Universal and existential preconditions over no individual.
const BOTH_QUANTIFIERS: &str = "%p x(v)
%%
%action All() { %p A(v) x(v) }
%action Any() { %p E(v) x(v) }
%%
L0 All() L1
L0 Any() L2
";

/// Two cells or more in a program without edges of its own but `Skip`.
const SKIP: &str = "%p x(v)
%%
%action Skip() { }
%%
L0 Skip() L1
";

const TWO_CELLS: &str = "%n = {u, w} %p = { x = {u} }";

const COVERED_BY_ANY: &str = "tvla report 1
node L0 structures 1
%n = {a, b} %p = { x = {a:1/2, b:1/2} }
node L1 structures 1
%n = {c} %p = { x = {c:1/2} sm = {c:1/2} }
end
";

const WITH_MAPS: &str = "tvla report 2
node L0 structures 1
%n = {i0, i1}
%p = {
  x = {i0:1/2, i1:1/2}
}
node L1 structures 1
%n = {i0}
%p = {
  x = {i0:1/2}
  sm = {i0:1/2}
}
map initial 0 to 0 {0, 1}
map edge 0 0 0 to 0 {0}
end
";

const FIRST_ROWS: [Row; 13] = [
    Row {
        name: "flip",
        words: &["analyze", "p", "i"],
        files: &[("p", FLIP), ("i", FLIP_INITIAL)],
        out: FLIP_REPORT,
        ..PLAIN
    },
    Row {
        name: "no command",
        words: &["frob", "a", "b"],
        code: 2,
        err: USAGE,
        ..PLAIN
    },
    Row {
        name: "an empty program",
        words: &["analyze", "p", "i"],
        files: &[("p", ""), ("i", "")],
        code: 3,
        err: "tvla: program: Syntax at 1:1\n",
        ..PLAIN
    },
    Row {
        name: "quantifiers over nothing",
        words: &["analyze", "p", "i"],
        files: &[("p", BOTH_QUANTIFIERS), ("i", "%n = {} %p = {}")],
        out: "tvla report 2
node L0 structures 1
%n = {}
%p = {
}
node L1 structures 1
%n = {}
%p = {
}
node L2 structures 0
end
",
        ..PLAIN
    },
    Row {
        name: "a summary of value 1",
        words: &["analyze", "p", "i"],
        files: &[
            ("p", BOTH_QUANTIFIERS),
            ("i", "%n = {u} %p = { sm = {u:1} }"),
        ],
        code: 3,
        err: "tvla: initial: BadSm\n",
        ..PLAIN
    },
    Row {
        name: "focus on a unary atom",
        words: &["analyze", "p", "i"],
        files: &[
            (
                "p",
                "%p x(v) %% %action Look() { %f { x(v) } } %% L0 Look() L1",
            ),
            ("i", "%n = {u} %p = { x = {u:1/2} sm = {u:1/2} }"),
        ],
        out: "tvla report 2
node L0 structures 1
%n = {i0}
%p = {
  x = {i0:1/2}
  sm = {i0:1/2}
}
node L1 structures 3
%n = {i0}
%p = {
  sm = {i0:1/2}
}
%n = {i0}
%p = {
  x = {i0}
  sm = {i0:1/2}
}
%n = {i0, i1}
%p = {
  x = {i1}
  sm = {i0:1/2, i1:1/2}
}
end
",
        ..PLAIN
    },
    Row {
        name: "rules that contradict each other",
        words: &["analyze", "p", "i"],
        files: &[
            (
                "p",
                "%p b() %r 1 ==> b() %r 1 ==> !b() %% %action Flip() { { b() = !b() } } %% L0 Flip() L1",
            ),
            ("i", FLIP_INITIAL),
        ],
        out: "tvla report 2
node L0 structures 0
node L1 structures 0
end
",
        ..PLAIN
    },
    Row {
        name: "new individuals",
        words: &["analyze", "p", "i"],
        files: &[
            (
                "p",
                "%p x(v) %% %action New() { %new { x(v) = isNew(v) } } %% L0 New() L0",
            ),
            ("i", "%n = {} %p = {}"),
        ],
        out: "tvla report 2
node L0 structures 4
%n = {}
%p = {
}
%n = {i0}
%p = {
  x = {i0}
}
%n = {i0, i1}
%p = {
  x = {i1}
}
%n = {i0, i1}
%p = {
  x = {i1}
  sm = {i0:1/2}
}
end
",
        ..PLAIN
    },
    Row {
        name: "individuals that may stay",
        words: &["analyze", "p", "i"],
        files: &[
            (
                "p",
                "%p x(v) %% %action Keep() { %retain x(v) } %% L0 Keep() L1",
            ),
            ("i", "%n = {u} %p = { x = {u:1/2} }"),
        ],
        out: "tvla report 2
node L0 structures 1
%n = {i0}
%p = {
  x = {i0:1/2}
}
node L1 structures 2
%n = {}
%p = {
}
%n = {i0}
%p = {
  x = {i0:1/2}
}
end
",
        ..PLAIN
    },
    Row {
        name: "more structures than allowed",
        words: &["analyze", "p", "i", "--max-structures", "1"],
        files: &[("p", FLIP), ("i", FLIP_INITIAL)],
        code: 4,
        err: "tvla: more than 1 structures\n",
        ..PLAIN
    },
    Row {
        name: "as many structures as allowed",
        words: &["analyze", "--max-structures=2", "p", "i"],
        files: &[("p", FLIP), ("i", FLIP_INITIAL)],
        out: FLIP_REPORT,
        ..PLAIN
    },
    Row {
        name: "a closed report",
        words: &["check", "p", "i", "r"],
        files: &[("p", FLIP), ("i", FLIP_INITIAL), ("r", FLIP_REPORT)],
        out: "accepted\n",
        ..PLAIN
    },
    Row {
        name: "a report without a result",
        words: &["check", "p", "i", "r"],
        files: &[
            ("p", FLIP),
            ("i", FLIP_INITIAL),
            (
                "r",
                "tvla report 2 node L0 structures 1 %n = {} %p = { b = 1 } node L1 structures 0 end",
            ),
        ],
        code: 1,
        out: "rejected: edge 0 structure 0 result 0\n",
        ..PLAIN
    },
];

const MORE_ROWS: [Row; 13] = [
    Row {
        name: "a result under a half",
        words: &["check", "p", "i", "r"],
        files: &[
            ("p", FLIP),
            ("i", FLIP_INITIAL),
            (
                "r",
                "tvla report 2 node L0 structures 1 %n = {} %p = { b = 1 }
node L1 structures 1 %n = {} %p = { b = 1/2 } end",
            ),
        ],
        out: "accepted\n",
        ..PLAIN
    },
    Row {
        name: "the front of a report",
        words: &["check", "p", "i", "r"],
        files: &[
            ("p", FLIP),
            ("i", FLIP_INITIAL),
            ("r", "tvla report 1\nnode L0 structures 1\n%n = "),
        ],
        code: 3,
        err: "tvla: report: ReportForm at 3:6\n",
        ..PLAIN
    },
    Row {
        name: "an output that fails",
        words: &["analyze", "p", "i"],
        files: &[("p", FLIP), ("i", FLIP_INITIAL)],
        outside: Outside {
            files_step: 7,
            sink_step: 10,
            out_fail: &[3],
            ..CALM
        },
        code: 6,
        out: "tvla report 2\nnode L",
        err: "tvla: write fault\n",
        ..PLAIN
    },
    Row {
        name: "files that fail",
        words: &["analyze", "p", "i"],
        files: &[("p", FLIP), ("i", FLIP_INITIAL)],
        outside: Outside {
            files_step: 7,
            files_fail: &[1],
            ..CALM
        },
        code: 5,
        err: "tvla: read fault\n",
        ..PLAIN
    },
    Row {
        name: "a file that isn't there",
        words: &["analyze", "p", "j"],
        files: &[("p", FLIP), ("i", FLIP_INITIAL)],
        code: 5,
        err: "tvla: read fault\n",
        ..PLAIN
    },
    Row {
        name: "definitions in a circle",
        words: &["analyze", "p", "i"],
        files: &[
            (
                "p",
                "%i p() = q() %i q() = p() %p b() %% %action Flip() { { b() = !b() } } %% L0 Flip() L1",
            ),
            ("i", FLIP_INITIAL),
        ],
        code: 3,
        err: "tvla: program: DefinitionCycle\n",
        ..PLAIN
    },
    Row {
        name: "included files",
        words: &["analyze", "d/p", "i"],
        files: &[
            (
                "d/p",
                "%s PVar {x}\n#include \"preds\"\n%%\n%action Skip() {}\n%%\nL0 Skip() L0\n",
            ),
            ("d/preds", LIST_PREDICATES),
            ("i", "%n = {} %p = {}"),
        ],
        out: "tvla report 2
node L0 structures 1
%n = {}
%p = {
}
end
",
        ..PLAIN
    },
    Row {
        name: "an included file that isn't there",
        words: &["analyze", "d/p", "i"],
        files: &[
            (
                "d/p",
                "%s PVar {x}\n#include \"preds\"\n%%\n%action Skip() {}\n%%\nL0 Skip() L0\n",
            ),
            ("preds", LIST_PREDICATES),
            ("i", "%n = {} %p = {}"),
        ],
        code: 5,
        err: "tvla: read fault\n",
        ..PLAIN
    },
    Row {
        name: "one traversal of a list",
        words: &["demo", "1"],
        out: "demo 1 pairs 19 messages 0\n",
        ..PLAIN
    },
    Row {
        name: "two traversals of a list",
        words: &["demo", "2"],
        out: "demo 2 pairs 39 messages 0\n",
        ..PLAIN
    },
    Row {
        name: "covered by any embedding, with maps",
        words: &["check", "--maps", "p", "i", "r"],
        files: &[("p", SKIP), ("i", TWO_CELLS), ("r", COVERED_BY_ANY)],
        out: WITH_MAPS,
        ..PLAIN
    },
    Row {
        name: "maps that are given",
        words: &["check", "p", "i", "r"],
        files: &[("p", SKIP), ("i", TWO_CELLS), ("r", WITH_MAPS)],
        out: "accepted\n",
        ..PLAIN
    },
    Row {
        name: "a picked individual",
        words: &["analyze", "p", "i"],
        files: &[
            (
                "p",
                "%p x(v) %p y(v) %p z(v) %% %action Pick() { %p x(v) { y(w) = w == v } } %% L0 Pick() L1",
            ),
            ("i", "%n = {u} %p = { x = {u} sm = {u:1/2} }"),
        ],
        out: "tvla report 2
node L0 structures 1
%n = {i0}
%p = {
  x = {i0}
  sm = {i0:1/2}
}
node L1 structures 1
%n = {i0}
%p = {
  x = {i0}
  y = {i0:1/2}
  sm = {i0:1/2}
}
end
",
        ..PLAIN
    },
];

const NULL: &str = "%p x(v)
%%
%action Follow() { %message !(E(v) x(v)) -> \"null\" }
%%
L0 Follow() L1
";

const EIGHT_SUMMARIES: &str = "%n = {s, t, u, v, w, z, y, r}
%p = {
  a = {w, z, y, r}
  b = {u, v, y, r}
  c = {t, v, z, r}
  x = {s:1/2, t:1/2, u:1/2, v:1/2, w:1/2, z:1/2, y:1/2, r:1/2}
  sm = {s:1/2, t:1/2, u:1/2, v:1/2, w:1/2, z:1/2, y:1/2, r:1/2}
}
";

const LATER_ROWS: [Row; 4] = [
    Row {
        name: "a message",
        words: &["analyze", "p", "i"],
        files: &[("p", NULL), ("i", "%n = {} %p = {}")],
        out: "tvla report 2
node L0 structures 1
%n = {}
%p = {
}
node L1 structures 1
%n = {}
%p = {
}
message 0 0 1 \"null\"
end
",
        ..PLAIN
    },
    Row {
        name: "a message without its line",
        words: &["check", "p", "i", "r"],
        files: &[
            ("p", NULL),
            ("i", "%n = {} %p = {}"),
            (
                "r",
                "tvla report 1 node L0 structures 1 %n = {} %p = {} node L1 structures 1 %n = {} %p = {} end",
            ),
        ],
        code: 1,
        out: "rejected: message 0 0\n",
        ..PLAIN
    },
    Row {
        name: "more choices than one stage may have: 3 to the power of 8",
        words: &["analyze", "p", "i"],
        files: &[
            (
                "p",
                "%p a(v) %p b(v) %p c(v) %p x(v) %% %action Look() { %f { x(v) } } %% L0 Look() L1",
            ),
            ("i", EIGHT_SUMMARIES),
        ],
        code: 4,
        err: "tvla: too many splits\n",
        ..PLAIN
    },
    Row {
        name: "each of two individuals is picked",
        words: &["analyze", "p", "i"],
        files: &[
            (
                "p",
                "%p x(v) %p y(v) %p z(v) %% %action Pick() { %p x(v) { y(w) = w == v } } %% L0 Pick() L1",
            ),
            ("i", "%n = {a, b} %p = { x = {a, b} z = {b} }"),
        ],
        out: "tvla report 2
node L0 structures 1
%n = {i0, i1}
%p = {
  x = {i0, i1}
  z = {i1}
}
node L1 structures 2
%n = {i0, i1}
%p = {
  x = {i0, i1}
  y = {i1}
  z = {i1}
}
%n = {i0, i1}
%p = {
  x = {i0, i1}
  y = {i1}
  z = {i0}
}
end
",
        ..PLAIN
    },
];

#[test]
fn first_calls_end_as_they_should(rt: HostRuntime) -> Result<(), Fail> {
    for row in &FIRST_ROWS {
        assert_eq!(rt; wrong_part(rt.alloc(), row)?, None, "{}", row.name);
    }
    Ok(())
}

#[test]
fn more_calls_end_as_they_should(rt: HostRuntime) -> Result<(), Fail> {
    for row in &MORE_ROWS {
        assert_eq!(rt; wrong_part(rt.alloc(), row)?, None, "{}", row.name);
    }
    Ok(())
}

#[test]
fn later_calls_end_as_they_should(rt: HostRuntime) -> Result<(), Fail> {
    for row in &LATER_ROWS {
        assert_eq!(rt; wrong_part(rt.alloc(), row)?, None, "{}", row.name);
    }
    Ok(())
}
