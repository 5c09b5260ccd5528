//! The traversal of a list, with the numbers of structures that a second program gives as well.

use super::analyzed::{lists, outcome};
use std::alloc::Global;
use std::test::Fail;

/// Lists without cycles, and actions of a pointer language.
const VOCABULARY: &str = "%s PVar {x, y}
foreach (z in PVar) { %p z(v_1) unique box }
%p n(v_1, v_2) function
%i t[n](v_1, v_2) = n*(v_1, v_2) transitive reflexive
foreach (z in PVar) { %i r[n,z](v) = E(v_1) z(v_1) & t[n](v_1, v) }
%r t[n](v_1, v_2) ==> !n(v_2, v_1)
%r n(v_1, v_2) & t[n](v_1, v_3) & v_1 != v_3 ==> t[n](v_2, v_3)
%%
%action uninterpreted() { %t \"uninterpreted\" }
%action Is_Not_Null_Var(lhs) { %f { lhs(v) } %p E(v) lhs(v) }
%action Is_Null_Var(lhs) { %f { lhs(v) } %p !(E(v) lhs(v)) }
%action Copy_Var(lhs, rhs) { %f { rhs(v) } { lhs(v) = rhs(v) r[n,lhs](v) = r[n,rhs](v) } }
%action Get_Next_L(lhs, rhs) {
  %f { E(v_1) rhs(v_1) & n(v_1, v) }
  %message !(E(v) rhs(v)) -> \"null dereference of \" + rhs
  { lhs(v) = E(v_1) rhs(v_1) & n(v_1, v) r[n,lhs](v) = r[n,rhs](v) & !rhs(v) }
}
%%
";

const GUARDED: &str = "L1 Copy_Var(y, x) L2
L2 Is_Not_Null_Var(y) L3
L3 Get_Next_L(y, y) L2
L2 Is_Null_Var(y) L4";

/// The loop goes on without a test.
const UNGUARDED: &str = "L1 Copy_Var(y, x) L2
L2 uninterpreted() L3
L3 Get_Next_L(y, y) L2
L2 Is_Null_Var(y) L4";

/// A list of two or more cells.
const LIST: &str = "%n = {h, u}
%p = { x = {h} n = {h->u:1/2, u->u:1/2} t[n] = {h->h, h->u, u->u:1/2} r[n,x] = {h, u} sm = {u:1/2} }";

/// At the end the list has two cells, or more.
const LEFT: &str = "%n = {i0, i1}
%p = { x = {i1} n = {i1->i0} t[n] = {i0->i0, i1->i0, i1->i1} r[n,x] = {i0, i1} }
%n = {i0, i1}
%p = {
  x = {i1} n = {i0->i0:1/2, i1->i0:1/2} t[n] = {i0->i0:1/2, i1->i0, i1->i1} r[n,x] = {i0, i1}
  sm = {i0:1/2}
}";

/// Whether the edges give these numbers of structures and lines of messages.
fn are_traversed(alloc: Global, edges: &str, wanted: &str) -> Result<bool, Fail> {
    let program = format!(in alloc; "{VOCABULARY}{edges}")?;
    Ok(outcome(alloc, program.as_str(), LIST, 5000)?.as_str() == wanted)
}

/// Whether the list is as wanted at the last node.
fn is_left(alloc: Global) -> Result<bool, Fail> {
    let program = format!(in alloc; "{VOCABULARY}{GUARDED}")?;
    lists(alloc, program.as_str(), LIST, 3, LEFT)
}

#[test]
fn a_list_is_traversed(rt: HostRuntime) -> Result<(), Fail> {
    assert!(rt; are_traversed(rt.alloc(), GUARDED, "1 9 7 2")?);
    assert!(rt; are_traversed(rt.alloc(), UNGUARDED, "1 9 9 2 2 0 Yes")?);
    assert!(rt; is_left(rt.alloc())?);
    Ok(())
}
