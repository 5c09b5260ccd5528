//! Shortest trails of small programs.
//!
//! The first line of a text has a program. Each other line has what is looked for, which is a value of a
//! message, behind the number of its edge and its own, or a structure behind its node; initial structures; how
//! many structures may be met; and the trail, which is the number of its initial structure and those of its
//! edges, or why there is none.

ghost use Rattle.std.specs.Prelude.{All};
ghost use Rattle.tv_model.specs.Program.{program_of};
ghost use Rattle.tv_model.specs.Valid.{IsValid};
ghost use Rattle.tv_structure_form.specs.StructureForm.{IsOver};

use std::alloc::{AllocError, Global};
use std::test::Fail;
use tv_kleene::K3;
use tv_model::{Mode, Program};
use tv_struct::Structures;
use tv_test_reader::{structure, structures, whole_program};
use tv_trail::shortest_trail;
use tv_trail_laws::{Goal, Trail};

/// Both bits are set at L0 after a way over L1, though each can be set there or on the way. Eight structures
/// are reached from the one without bits.
const BITS: &str =
    "%p a() %p b() %% %action SetA() { { a() = 1 } } %action SetB() { { b() = 1 } } %action Tell() { %message \
      a() & b() -> \"both\" %message a() -> \"a\" } %% L0 SetA() L0 L0 SetB() L1 L1 SetA() L0 L0 Tell() L2
message 3 0 1; %n = {} %p = {}; 8; 0: 1 2
message 3 0 0; %n = {} %p = {}; 8; 0:
message 3 1 1; %n = {} %p = {}; 8; 0: 0
message 3 1 1; %n = {} %p = { a = 1/2 }; 50; 0: 0
message 3 1 1/2; %n = {} %p = {} %n = {} %p = { a = 1/2 }; 50; 1:
message 3 0 1; %n = {} %p = {} %n = {} %p = { b = 1 }; 50; 1: 0
message 3 2 1; %n = {} %p = {}; 8; none
message 2 0 1; %n = {} %p = {}; 8; none
message 3 2 1; %n = {} %p = {}; 7; Structures
message 3 1 1; ; 0; none
message 3 1 1; %n = {} %p = {}; 0; Structures
node 0 %n = {} %p = {}; %n = {} %p = {}; 8; 0:
node 1 %n = {} %p = { b = 1 }; %n = {} %p = {}; 8; 0: 1
node 1 %n = {} %p = { a = 1 b = 1 }; %n = {} %p = {}; 8; 0: 0 1
node 2 %n = {} %p = { a = 1 b = 1 }; %n = {} %p = {}; 8; 0: 1 2 3
node 2 %n = {} %p = { b = 1 }; %n = {} %p = {}; 8; none
node 1 %n = {} %p = {}; %n = {} %p = {}; 8; none
node 3 %n = {} %p = {}; %n = {} %p = {}; 8; none";

/// A list of two or more cells is walked through past its end: `y` is null after two steps, where there are
/// no more.
const WALK: &str =
    "%p x(v) unique box %p y(v) unique box %p n(v, w) function %i t[n](v, w) = n*(v, w) transitive reflexive %i \
      r[n,x](v) = E(w) x(w) & t[n](w, v) %i r[n,y](v) = E(w) y(w) & t[n](w, v) %r t[n](v, w) ==> !n(w, v) %r \
      n(v, w) & t[n](v, u) & v != u ==> t[n](w, u) %% %action Copy() { %f { x(v) } { y(v) = x(v) r[n,y](v) = \
      r[n,x](v) } } %action Next() { %f { E(w) y(w) & n(w, v) } %message !(E(v) y(v)) -> \"null\" { y(v) = E(w) y(w) \
      & n(w, v) r[n,y](v) = r[n,y](v) & !y(v) } } %action Skip() { %t \"skip\" } %% L1 \
      Copy() L2 L2 Next() L3 L3 Skip() L2 L3 Skip() L4
message 1 0 1; %n = {h, u} %p = { x = {h} n = {h->u:1/2, u->u:1/2} t[n] = {h->h, h->u, u->u:1/2} r[n,x] = {h, u} \
      sm = {u:1/2} }; 100; 0: 0 1 2 1 2
message 1 0 1; %n = {h, u} %p = { x = {h} n = {h->u} t[n] = {h->h, h->u, u->u} r[n,x] = {h, u} } %n = {h} %p = { \
      x = {h} t[n] = {h->h} r[n,x] = {h} }; 100; 1: 0 1 2
message 1 0 1; %n = {h} %p = { t[n] = {h->h} }; 100; 0: 0";

/// Eight summaries, each of which may have all, some or none of `x`: at the second edge focus has over 4,096
/// choices, and what is found before that edge is taken is told.
const CHOICES: &str =
    "%p a(v) %p b(v) %p c(v) %p x(v) %% %action Look() { %message E(v) x(v) -> \"x\" } %action Focus() { %f { x(v) } \
      %message E(v) x(v) -> \"x\" } %% L0 Look() L1 L1 Focus() L2
message 0 0 1/2; %n = {i, j, k, l, m, n, o, p} %p = { a = {j, l, n, p} b = {k, l, o, p} c = {m, n, o, p} \
      x = {i:1/2, j:1/2, k:1/2, l:1/2, m:1/2, n:1/2, o:1/2, p:1/2} \
      sm = {i:1/2, j:1/2, k:1/2, l:1/2, m:1/2, n:1/2, o:1/2, p:1/2} }; 9; 0:
message 1 0 1; %n = {i, j, k, l, m, n, o, p} %p = { a = {j, l, n, p} b = {k, l, o, p} c = {m, n, o, p} \
      x = {i:1/2, j:1/2, k:1/2, l:1/2, m:1/2, n:1/2, o:1/2, p:1/2} \
      sm = {i:1/2, j:1/2, k:1/2, l:1/2, m:1/2, n:1/2, o:1/2, p:1/2} }; 9; Splits";

const ROWS: [&str; 3] = [BITS, WALK, CHOICES];

/// The number of the initial structure, and those of the edges.
fn told(alloc: Global, trail: &Trail) -> Result<String, AllocError> {
    let mut text = format!(in alloc; "{}:", trail.initial)?;
    for link in trail.links.as_slice() {
        text.push_str(format!(in alloc; " {}", link.edge)?.as_str())?;
    }
    Ok(text)
}

/// The trail to the goal, or why there is none.
fn answer(
    alloc: Global,
    program: &Program,
    initial: &Structures,
    max: u64,
    goal: &Goal,
) -> Result<String, AllocError>
    requires valid { IsValid (program_of program.now) }
    requires initial { All (IsOver program.now.vocab) initial.now }
{
    match shortest_trail(alloc, program, initial, Mode::Given, max, goal) {
        Ok(None) => format!(in alloc; "none"),
        Ok(Some(trail)) => told(alloc, &trail),
        Err(error) => format!(in alloc; "{error:?}"),
    }
}

/// The value of this name.
fn value_of(name: &str) -> K3 {
    match name {
        "1" => K3::Yes,
        "1/2" => K3::Half,
        _ => K3::No,
    }
}

/// The trail to a goal that is given as a text, or why there is none.
fn outcome(
    alloc: Global,
    program: &Program,
    initial: &Structures,
    max: u64,
    goal: &str,
) -> Result<String, Fail>
    requires valid { IsValid (program_of program.now) }
    requires initial { All (IsOver program.now.vocab) initial.now }
{
    let (kind, rest) = goal.split_once(' ').ok_or("no goal")?;
    let (first, second) = rest.split_once(' ').ok_or("half a goal")?;
    let first = first.parse::<u32>().unwrap_or(u32::MAX);
    if kind == "message" {
        let (number, value) = second.split_once(' ').ok_or("no value")?;
        let goal = Goal::Message {
            edge: first,
            number: number.parse::<u32>().unwrap_or(u32::MAX),
            value: value_of(value),
        };
        return Ok(answer(alloc, program, initial, max, &goal)?);
    }
    let wanted = structure(alloc, program, second)?;
    let goal = Goal::Structure {
        node: first,
        structure: &wanted,
    };
    Ok(answer(alloc, program, initial, max, &goal)?)
}

/// Whether the answer is that of the line.
fn is_met(alloc: Global, program: &str, line: &str) -> Result<bool, Fail> {
    let mut cells = line.split(';');
    let (Some(goal), Some(initial), Some(most), Some(wanted)) = (
        cells.next(),
        cells.next(),
        cells.next(),
        cells.next(),
    ) else {
        return Ok(false);
    };
    let program = whole_program(alloc, program)?;
    let initial = structures(alloc, &program, initial)?;
    let max = most.trim().parse::<u64>().unwrap_or(0);
    Ok(outcome(alloc, &program, &initial, max, goal)?.as_str() == wanted.trim())
}

#[test]
fn trails_are_shortest(rt: HostRuntime) -> Result<(), Fail> {
    for text in ROWS {
        let (program, lines) = text.split_once('\n').ok_or("no rows")?;
        for line in lines.lines() {
            assert!(rt; is_met(rt.alloc(), program, line)?, "{line} of {program}");
        }
    }
    Ok(())
}
