//! Each statement and test both ways, blocks that are empty, loops in loops; each beside the program that it
//! is compiled to, as it would be written by hand.

use crate::texts::{compiled, written};
use std::alloc::Global;
use std::test::Fail;

/// The predicates of `vars {x, y} fields {n}`.
static PREDICATES: &str = "%p x(v) unique %p y(v) unique %p n(v_1, v_2) function
%i r[n,x](v) = E(v_1) x(v_1) & n*(v_1, v)
%i r[n,y](v) = E(v_1) y(v_1) & n*(v_1, v)
%%
";

/// Statements and, behind a tab, the actions and edges that they are compiled to.
static ROWS: &str = "x = null\t%action A0() { { x(v) = 0 } } %% S0 A0() Exit
x = new\t%action A0() { %new { x(v) = isNew(v) } } %% S0 A0() Exit
x = y\t%action A0() { %f { y(v) } { x(v) = y(v) } } %% S0 A0() Exit
y = y\t%action A0() { %f { y(v) } { y(v) = y(v) } } %% S0 A0() Exit
x = y->n\t%action A0() { %f \
{ E(v_1) y(v_1) & n(v_1, v) } %p E(v) y(v) %message !(E(v) y(v)) -> \"null dereference of y\" \
{ x(v) = E(v_1) y(v_1) & n(v_1, v) } } %% S0 A0() Exit
x->n = y\t%action A0() { %f { x(v), y(v) } %p E(v) x(v) %message !(E(v) x(v)) -> \"null dereference of x\" \
{ n(v_1, v_2) = x(v_1) & y(v_2) | !x(v_1) & n(v_1, v_2) } } %% S0 A0() Exit
y->n = null\t%action A0() { %f { y(v) } %p E(v) y(v) %message !(E(v) y(v)) -> \"null dereference of y\" \
{ n(v_1, v_2) = !y(v_1) & n(v_1, v_2) } } %% S0 A0() Exit
if (x == null) { }\t%action A0() { %f { x(v) } %p !(E(v) x(v)) } %action A1() { %f { x(v) } %p !!(E(v) x(v)) } \
%% S0 A0() Exit S0 A1() Exit
if (x != null) { }\t%action A0() { %f { x(v) } %p !!(E(v) x(v)) } %action A1() { %f { x(v) } %p !(E(v) x(v)) } \
%% S0 A0() Exit S0 A1() Exit
if (x == y) { }\t%action A0() { %f { x(v), y(v) } %p A(v) x(v) <-> y(v) } %action A1() { %f { x(v), y(v) } \
%p !(A(v) x(v) <-> y(v)) } %% S0 A0() Exit S0 A1() Exit
if (y != x) { }\t%action A0() { %f { y(v), x(v) } %p !(A(v) y(v) <-> x(v)) } %action A1() { %f { y(v), x(v) } \
%p A(v) y(v) <-> x(v) } %% S0 A0() Exit S0 A1() Exit
while (*) { }\t%action A0() { } %action A1() { } %% S0 A0() S0 S0 A1() Exit
y = x while (y != null) { y = y->n }\t%action A0() { %f { x(v) } { y(v) = x(v) } } \
%action A1() { %f { y(v) } %p !!(E(v) y(v)) } \
%action A2() { %f { y(v) } %p !(E(v) y(v)) } %action A3() { %f { E(v_1) y(v_1) & n(v_1, v) } %p E(v) y(v) \
%message !(E(v) y(v)) -> \"null dereference of y\" { y(v) = E(v_1) y(v_1) & n(v_1, v) } } \
%% S0 A0() S1 S1 A1() S2 S1 A2() Exit S2 A3() S1
if (*) { x = null } else { x = new } y = x\t%action A0() { } %action A1() { } %action A2() { { x(v) = 0 } } \
%action A3() { %new { x(v) = isNew(v) } } %action A4() { %f { x(v) } { y(v) = x(v) } } \
%% S0 A0() S1 S0 A1() S2 S1 A2() S3 S2 A3() S3 S3 A4() Exit
if (*) { } else { x = null } y = null\t%action A0() { } %action A1() { } %action A2() { { x(v) = 0 } } \
%action A3() { { y(v) = 0 } } \
%% S0 A0() S2 S0 A1() S1 S1 A2() S2 S2 A3() Exit
while (*) { while (*) { x = null } } y = null\t%action A0() { } %action A1() { } %action A2() { } \
%action A3() { } \
%action A4() { { x(v) = 0 } } %action A5() { { y(v) = 0 } } \
%% S0 A0() S1 S0 A1() S3 S1 A2() S2 S1 A3() S0 S2 A4() S1 S3 A5() Exit
while (*) { if (*) { } x = null }\t%action A0() { } %action A1() { } %action A2() { } %action A3() { } \
%action A4() { { x(v) = 0 } } \
%% S0 A0() S1 S0 A1() Exit S1 A2() S2 S1 A3() S2 S2 A4() S0";

/// Whether the statements of a row are compiled to its program.
fn is_met(alloc: Global, row: &str) -> Result<bool, Fail> {
    let (statements, expected) = row.split_once('\t').ok_or("no row")?;
    let source = format!(in alloc; "vars {{x, y}} fields {{n}} {statements}")?;
    let text = format!(in alloc; "{PREDICATES}{expected}")?;
    let by_hand = written(alloc, text.as_str())?;
    match compiled(alloc, source.as_str())? {
        Err(_) => Ok(false),
        Ok(program) => {
            let found = format!(in alloc; "{program:?}")?;
            let wanted = format!(in alloc; "{by_hand:?}")?;
            Ok(found.as_str() == wanted.as_str())
        }
    }
}

#[test]
fn statements_are_compiled(rt: HostRuntime) -> Result<(), Fail> {
    for row in ROWS.lines() {
        assert!(rt; is_met(rt.alloc(), row)?, "{row}");
    }
    Ok(())
}
