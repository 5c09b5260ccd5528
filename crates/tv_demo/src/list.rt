//! The fixed parts of the demonstration programs: predicates and actions of singly linked lists, and the
//! lists that a program begins with.

ghost use Rattle.std.specs.Prelude.{◌≡◌};
ghost use Rattle.tv_demo.specs.Texts.{predicates_text, actions_text, lists_text};

/// For each variable of the set `PVar` a predicate, and those of the field and of reachability, with the
/// rules of lists without a cycle.
#[tactic(auto, unfolding(crate::specs::Texts::predicates_text))]
pub fn predicates() -> &'static [u8]
    ensures { result.now ≡ predicates_text }
{
    b"foreach (z in PVar) {
  %p z(v_1) unique box
}
%p n(v_1, v_2) function
%i t[n](v_1, v_2) = n*(v_1, v_2) transitive reflexive
foreach (z in PVar) {
  %i r[n,z](v) = E(v_1) z(v_1) & t[n](v_1, v)
}
// Lists have no cycle.
%r t[n](v_1, v_2) ==> !n(v_2, v_1)
// What is reached from a cell, and isn't the cell, is reached from its successor.
%r n(v_1, v_2) & t[n](v_1, v_3) & v_1 != v_3 ==> t[n](v_2, v_3)
"
}

/// The actions of a program that walks along a list.
#[tactic(auto, unfolding(crate::specs::Texts::actions_text))]
pub fn actions() -> &'static [u8]
    ensures { result.now ≡ actions_text }
{
    b"%action uninterpreted() {
  %t \"uninterpreted\"
}
%action Is_Not_Null_Var(lhs) {
  %t lhs + \" != NULL\"
  %f { lhs(v) }
  %p E(v) lhs(v)
}
%action Is_Null_Var(lhs) {
  %t lhs + \" == NULL\"
  %f { lhs(v) }
  %p !(E(v) lhs(v))
}
%action Copy_Var(lhs, rhs) {
  %t lhs + \" = \" + rhs
  %f { rhs(v) }
  {
    lhs(v) = rhs(v)
    r[n,lhs](v) = r[n,rhs](v)
  }
}
%action Get_Next_L(lhs, rhs) {
  %t lhs + \" = \" + rhs + \"->n\"
  %f { E(v_1) rhs(v_1) & n(v_1, v) }
  %message !(E(v) rhs(v)) -> \"null dereference of \" + rhs
  {
    lhs(v) = E(v_1) rhs(v_1) & n(v_1, v)
    r[n,lhs](v) = r[n,rhs](v) & !rhs(v)
  }
}
"
}

/// One structure, which stands for all lists of two or more cells without a cycle, `x` at the head.
#[tactic(auto, unfolding(crate::specs::Texts::lists_text))]
pub fn lists() -> &'static [u8]
    ensures { result.now ≡ lists_text }
{
    b"%n = {h, u}
%p = {
  x = {h}
  n = {h->u:1/2, u->u:1/2}
  t[n] = {h->h, h->u, u->u:1/2}
  r[n,x] = {h, u}
  sm = {u:1/2}
}
"
}
