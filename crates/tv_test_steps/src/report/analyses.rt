//! Small programs.
//!
//! The first line of a text has a program. Each other line has a node, initial structures, and the structures
//! that are listed at the node; or how many structures may be listed, initial structures, and how many are at
//! each node and which messages are told, or why there is no answer.

use super::analyzed::{lists, outcome};
use std::alloc::Global;
use std::test::Fail;

const FLIP: &str = "%p b() %% %action Flip() { { b() = !b() } } %% L0 Flip() L1
node 0; %n = {} %p = { b = 1 }; %n = {} %p = { b = 1 }
node 1; %n = {} %p = { b = 1 }; %n = {} %p = {}
most 1; %n = {} %p = { b = 1 }; Structures
most 2; %n = {} %p = { b = 1 }; 1 1
most 0; ; 0 0";

/// No structure meets both rules.
const CONTRADICTION: &str =
    "%p b() %r 1 ==> b() %r 1 ==> !b() %% %action Flip() { { b() = !b() } } %% L0 Flip() L1
node 0; %n = {} %p = { b = 1 };
node 1; %n = {} %p = { b = 1 };";

const NEW: &str = "%p x(v) %% %action New() { %new { x(v) = isNew(v) } } %% L0 New() L0
node 0; %n = {} %p = {}; \
    %n = {} %p = {} %n = {i0} %p = { x = {i0} } %n = {i0, i1} %p = { x = {i1} } %n = {i0, i1} %p = { x = {i1} \
      sm = {i0:1/2} }
most 3; %n = {} %p = {}; Structures
most 4; %n = {} %p = {}; 4";

const LOOK: &str = "%p x(v) %% %action Look() { %f { x(v) } } %% L0 Look() L1
node 1; %n = {u} %p = { x = {u:1/2} sm = {u:1/2} }; \
    %n = {i0} %p = { sm = {i0:1/2} } %n = {i0} %p = { x = {i0} sm = {i0:1/2} } %n = {i0, i1} %p = { x = {i1} \
      sm = {i0:1/2, i1:1/2} }";

const KEEP: &str = "%p x(v) %% %action Keep() { %retain x(v) } %% L0 Keep() L1
node 1; %n = {u} %p = { x = {u:1/2} }; %n = {} %p = {} %n = {i0} %p = { x = {i0:1/2} }";

const ANY: &str = "%p x(v) %p y(v) %% %action Any() { { y(v) = 1/2 } } %% L0 Any() L1
node 1; %n = {u} %p = { x = {u} }; %n = {i0} %p = { x = {i0} y = {i0:1/2} }";

const QUANTIFIED: &str =
    "%p x(v) %% %action All() { %p A(v) x(v) } %action Any() { %p E(v) x(v) } %% L0 All() L1 L0 Any() L2
node 1; %n = {} %p = {}; %n = {} %p = {}
most 5000; %n = {} %p = {}; 1 1 0";

const PICK: &str =
    "%p x(v) %p y(v) %p z(v) %% %action Pick() { %p x(v) { y(w) = w == v } } %% L0 Pick() L1
node 1; %n = {a, b} %p = { x = {a, b} z = {b} }; \
    %n = {i0, i1} %p = { x = {i0, i1} y = {i1} z = {i1} } %n = {i0, i1} %p = { x = {i0, i1} y = {i1} z = {i0} }
node 1; %n = {u} %p = { x = {u} sm = {u:1/2} }; %n = {i0} %p = { x = {i0} y = {i0:1/2} sm = {i0:1/2} }
most 5000; %n = {} %p = {}; 1 0";

/// A message that may be true, one that is, and one that isn't; at the last edge nothing arrives.
const TELL: &str =
    "%p x(v) %p b() %% %action Tell() { %message E(v) x(v) -> \"some\" %message b() -> \"b\" %message !b() -> \"not \
      b\" { b() = 1 } } %action Stop() { %p 0 } %action Say() { %message 1 -> \"here\" } %% L0 Tell() L0 L0 \
      Stop() L1 L1 Say() L1
most 5000; %n = {u} %p = { x = {u:1/2} }; 2 0 0 0 Half 0 1 Yes 0 2 Yes
most 5000; %n = {u} %p = { x = {u:1/2} b = 1 } %n = {u} %p = { x = {u} b = 1 }; 2 0 0 0 Yes 0 1 Yes";

const ROWS: [&str; 9] = [
    FLIP,
    CONTRADICTION,
    NEW,
    LOOK,
    KEEP,
    ANY,
    QUANTIFIED,
    PICK,
    TELL,
];

/// Whether the structures at the node of that number are these, or the answer where so many may be listed is
/// this one.
fn is_met(alloc: Global, program: &str, line: &str) -> Result<bool, Fail> {
    let mut cells = line.split(';');
    let (Some(head), Some(initial), Some(wanted)) = (cells.next(), cells.next(), cells.next())
    else {
        return Ok(false);
    };
    let Some((kind, number)) = head.split_once(' ') else {
        return Ok(false);
    };
    let number = number.parse::<u32>().unwrap_or(u32::MAX);
    if kind == "node" {
        return lists(alloc, program, initial, number, wanted);
    }
    Ok(outcome(alloc, program, initial, u64::from(number))?.as_str() == wanted.trim())
}

#[test]
fn structures_are_listed_and_messages_told(rt: HostRuntime) -> Result<(), Fail> {
    for text in ROWS {
        let (program, lines) = text.split_once('\n').ok_or("no rows")?;
        for line in lines.lines() {
            assert!(rt; is_met(rt.alloc(), program, line)?, "{line} of {program}");
        }
    }
    Ok(())
}
