//! Texts that several tests have: a program that flips a value, lists, and the usage.

/// A program of one action, which flips a nullary predicate.
pub const FLIP: &str = "%p b()
%%
%action Flip() { { b() = !b() } }
%%
L0 Flip() L1
";

/// The predicate is true.
pub const FLIP_INITIAL: &str = "%n = {} %p = { b = 1 }";

/// What the analysis lists.
pub const FLIP_REPORT: &str = "tvla report 2
node L0 structures 1
%n = {}
%p = {
  b = 1
}
node L1 structures 1
%n = {}
%p = {
}
end
";

/// What a call with wrong words is told.
pub const USAGE: &str =
    "usage: tvla analyze PROGRAM INITIAL [--max-structures N] [--recompute | --delta]
       tvla check PROGRAM INITIAL REPORT [--recompute | --delta] [--maps]
       tvla demo NUMBER
       tvla replay PROGRAM INITIAL START TRACE REPORT
       tvla source SOURCE INITIAL [--max-structures N]
       tvla join PROGRAM INITIAL [--max-structures N] [--recompute]
";

/// Predicates of singly linked lists.
pub const LIST_PREDICATES: &str = "foreach (z in PVar) {
  %p z(v_1) unique box
}
%p n(v_1, v_2) function
%i t[n](v_1, v_2) = n*(v_1, v_2) transitive reflexive
foreach (z in PVar) {
  %i r[n,z](v) = E(v_1) z(v_1) & t[n](v_1, v)
}
// Lists have no cycle.
%r t[n](v_1, v_2) ==> !n(v_2, v_1)
// What is reached from a cell, and isn't the cell, is reached from its successor.
%r n(v_1, v_2) & t[n](v_1, v_3) & v_1 != v_3 ==> t[n](v_2, v_3)
";

/// All lists of two cells or more.
pub const LIST: &str = "%n = {h, u}
%p = {
  x = {h}
  n = {h->u:1/2, u->u:1/2}
  t[n] = {h->h, h->u, u->u:1/2}
  r[n,x] = {h, u}
  sm = {u:1/2}
}
";
