//! The members of a rule, and for how many of its variables each waits.

ghost use Rattle.std.specs.Prelude.{◌≡◌, ◌≤◌, ◌+◌, ◌∷◌, length, map, All, Bool, IfOk};
ghost use Rattle.tv_model.specs.Form.{form_of};
ghost use Rattle.tv_coerce_members.specs.Members.{IsPlacedIn, IsReadAs, WaitsFor, forms_of, member_of};
ghost use Rattle.tv_coerce_members.specs.Members.{members_of};
ghost use Rattle.tv_coerce_members.specs.Members.{numbers_of, waiting};

use crate::readings::{Reading, reading_of};
use std::alloc::{AllocError, Global};
use tv_model::{Formula, Items, Var, copy, free};

/// A member of a rule.
#[derive(Debug, Drop)]
pub struct Member {
    pub formula: Formula,
    /// How many of the variables before the last, at their end, it surely doesn't wait for.
    pub left: usize,
    /// Whether the last variable may stand in it.
    pub last: bool,
    /// How it is read along the last variable, if that may stand in it, and else along the one that it waits
    /// for.
    pub reading: Reading,
}

/// The members of a rule.
pub type Members = Items<Member>;

/// For how many variables at the end of a list a formula surely doesn't wait, and how it is read along the
/// one before these.
#[derive(Clone, Copy, Debug)]
struct Wait {
    left: usize,
    reading: Reading,
}

/// The same for these variables, where it is known for all but the first.
#[tactic(auto, using(crate::proofs::Placing::waits_same))]
fn wait_with(f: &Formula, v: Var, rest: &[Var], wait: Wait) -> Wait
    requires most { wait.left ≤ length rest.now }
    requires waits { WaitsFor (numbers_of rest.now) (waiting (form_of f.now) wait) }
    ensures most { result.left ≤ 1 + length rest.now }
    ensures waits { WaitsFor (v.0 ∷ numbers_of rest.now) (waiting (form_of f.now) result) }
{
    if wait.left != rest.len() {
        return wait;
    }
    if free(f, v) {
        return Wait {
            left: wait.left,
            reading: reading_of(f, v),
        };
    }
    Wait {
        left: wait.left + 1,
        reading: Reading::Other,
    }
}

fn wait_of(f: &Formula, vars: &[Var]) -> Wait
    ensures most { result.left ≤ length vars.now }
    ensures waits { WaitsFor (numbers_of vars.now) (waiting (form_of f.now) result) }
{
    match vars {
        [] => Wait {
            left: 0,
            reading: Reading::Other,
        },
        [v, rest @ ..] => wait_with(f, *v, rest, wait_of(f, rest)),
    }
}

/// The members with these formulas, in memory of their own.
pub(crate) fn own_members(
    alloc: Global,
    forms: &[&Formula],
    vars: &[Var],
) -> Result<Members, AllocError>
    ensures forms { IfOk result (λ ms. map (λ m. m.form) (members_of ms) ≡ forms_of forms.now) }
    ensures placed { IfOk result (λ ms. All (IsPlacedIn (numbers_of vars.now)) (members_of ms)) }
{
    let mut list = Items::new(alloc);
    for f in forms {
        list.push(own_member(alloc, f, vars)?)?;
    }
    Ok(list)
}

/// The member with this formula, in memory of its own.
fn own_member(alloc: Global, f: &Formula, vars: &[Var]) -> Result<Member, AllocError>
    ensures form { IfOk result (λ m. form_of m.formula ≡ form_of f.now) }
    ensures placed { IfOk result (λ m. IsPlacedIn (numbers_of vars.now) (member_of m)) }
{
    match vars {
        [] => Ok(Member {
            formula: copy(alloc, f)?,
            left: 0,
            last: false,
            reading: Reading::Other,
        }),
        [before @ .., v] => {
            let wait = wait_of(f, before);
            let last = free(f, *v);
            Ok(Member {
                formula: copy(alloc, f)?,
                left: wait.left,
                last,
                reading: if last {
                    reading_of(f, *v)
                } else {
                    wait.reading
                },
            })
        }
    }
}
