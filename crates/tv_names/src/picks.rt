//! The variables that a step picks.

ghost use Rattle.std.specs.Prelude.{ℕ, List, ◌≡◌, ◌≤◌, ◌==◌, ◌∷◌, ◌++◌, [], OnOk, IfOk, get_or, false};
ghost use Rattle.std.specs.List.{list_any};
ghost use Rattle.tv_model.specs.Form.{form_of, height, vars_of};
ghost use Rattle.tv_model.specs.Program.{picks_of};
ghost use Rattle.tv_model.specs.Valid.{free_occurrences, without};
ghost use Rattle.tv_names.specs.Picks.{picks_in, is_one_of, with_pick, with_picks, unbound};

use std::alloc::{AllocError, Global};
use tv_model::{Formula, Terms, Var};

/// Which variables the quantifiers around bind, of all that a `Var` can name.
#[derive(Clone, Copy)]
struct Bound {
    flags: [bool; 256],
}

impl Bound {
    #[tactic(auto, using(crate::proofs::PickLaws::flags_under))]
    fn with(&self, v: Var) -> Bound
        ensures { (vars : List ℕ) → unbound result.flags vars ≡ unbound self.now.flags (without v.0 vars) }
    {
        let mut flags = self.flags;
        flags[v.0 as usize] = true;
        Bound { flags }
    }

    fn has(&self, v: Var) -> bool
        ensures { result ≡ get_or self.now.flags v.0 false }
    {
        self.flags[v.0 as usize]
    }
}

fn stands_in(picks: &[Var], v: Var) -> bool
    ensures { result ≡ list_any (λ pick. pick.0 == v.0) picks.now }
{
    picks.iter().any(|pick| pick.0 == v.0)
}

#[tactic(auto, using(crate::proofs::PickLaws::one_of_over))]
fn is_one_of(picks: &[Var], v: Var) -> bool
    ensures { result ≡ is_one_of (picks_of picks.now) v.0 }
{
    stands_in(picks, v)
}

fn pick(bound: &Bound, v: Var, picks: &mut Vec<Var>) -> Result<(), AllocError>
    ensures { OnOk result (picks_of picks.new.items
        ≡ with_picks (picks_of picks.old.items) (unbound bound.now.flags (v.0 ∷ []))) }
{
    if !bound.has(v) && !is_one_of(picks, v) {
        picks.push(v)?;
    }
    Ok(())
}

#[tactic(auto, using(crate::proofs::PickLaws::picks_append, crate::proofs::PickLaws::picks_cons))]
fn pick_two(bound: &Bound, v: Var, w: Var, picks: &mut Vec<Var>) -> Result<(), AllocError>
    ensures { OnOk result (picks_of picks.new.items
        ≡ with_picks (picks_of picks.old.items) (unbound bound.now.flags (v.0 ∷ w.0 ∷ []))) }
{
    pick(bound, v, picks)?;
    pick(bound, w, picks)
}

fn pick_terms(bound: &Bound, terms: &Terms, picks: &mut Vec<Var>) -> Result<(), AllocError>
    ensures { OnOk result (picks_of picks.new.items
        ≡ with_picks (picks_of picks.old.items) (unbound bound.now.flags (vars_of terms.now))) }
{
    match terms {
        Terms::Zero => Ok(()),
        Terms::One(v) => pick(bound, *v, picks),
        Terms::Two(v, w) => pick_two(bound, *v, *w, picks),
    }
}

// What the quantifiers over `v` and at the head of `f` bind too, and what stands under them; without
// recursion, since a text may have thousands of them one in the other.
fn below<'f>(bound: &Bound, v: Var, f: &'f Formula) -> (Bound, &'f Formula)
    ensures occurrences { unbound result.0.flags (free_occurrences (form_of result.1.now))
        ≡ unbound bound.now.flags (without v.0 (free_occurrences (form_of f.now))) }
    ensures part { height (form_of result.1.now) ≤ height (form_of f.now) }
{
    let mut inner = bound.with(v);
    let mut body = f;
    while let Formula::Exists(w, g) | Formula::Forall(w, g) = body {
        inner = inner.with(*w);
        body = g;
    }
    (inner, body)
}

#[cycle(pick)]
fn pick_under(bound: &Bound, v: Var, f: &Formula, picks: &mut Vec<Var>) -> Result<(), AllocError>
    ensures { OnOk result (picks_of picks.new.items ≡ with_picks (picks_of picks.old.items)
        (unbound bound.now.flags (without v.0 (free_occurrences (form_of f.now))))) }
{
    let (inner, body) = below(bound, v, f);
    pick_all(&inner, body, picks)
}

#[cycle(pick)]
fn pick_under_two(
    bound: &Bound,
    left: Var,
    right: Var,
    f: &Formula,
    picks: &mut Vec<Var>,
) -> Result<(), AllocError>
    ensures { OnOk result (picks_of picks.new.items ≡ with_picks (picks_of picks.old.items)
        (unbound bound.now.flags (without left.0 (without right.0 (free_occurrences (form_of f.now)))))) }
{
    pick_under(&bound.with(left), right, f, picks)
}

#[cycle(pick)]
#[tactic(auto, using(crate::proofs::PickLaws::picks_append))]
fn pick_closure(
    bound: &Bound,
    ends: (Var, Var),
    own: (Var, Var),
    body: &Formula,
    picks: &mut Vec<Var>,
) -> Result<(), AllocError>
    ensures { OnOk result (picks_of picks.new.items
        ≡ with_picks (picks_of picks.old.items) (unbound bound.now.flags ((ends.0.0 ∷ ends.1.0 ∷ [])
        ++ without own.0.0 (without own.1.0 (free_occurrences (form_of body.now)))))) }
{
    pick_two(bound, ends.0, ends.1, picks)?;
    pick_under_two(bound, own.0, own.1, body, picks)
}

#[cycle(pick)]
#[tactic(auto, using(crate::proofs::PickLaws::picks_append))]
fn pick_all(bound: &Bound, f: &Formula, picks: &mut Vec<Var>) -> Result<(), AllocError>
    ensures { OnOk result (picks_of picks.new.items ≡ with_picks (picks_of picks.old.items)
        (unbound bound.now.flags (free_occurrences (form_of f.now)))) }
{
    match f {
        Formula::Zero | Formula::One => Ok(()),
        Formula::Atom(_, terms) => pick_terms(bound, terms, picks),
        Formula::IsNew(v) => pick(bound, *v, picks),
        Formula::Same(v, w) => pick_two(bound, *v, *w, picks),
        Formula::Not(g) => pick_all(bound, g, picks),
        Formula::And(g, h) | Formula::Or(g, h) | Formula::Iff(g, h) => {
            pick_all(bound, g, picks)?;
            pick_all(bound, h, picks)
        }
        Formula::Cond(c, g, h) => {
            pick_all(bound, c, picks)?;
            pick_all(bound, g, picks)?;
            pick_all(bound, h, picks)
        }
        Formula::Exists(v, g) | Formula::Forall(v, g) => pick_under(bound, *v, g, picks),
        Formula::Closure {
            from,
            to,
            left,
            right,
            body,
        } => { pick_closure(bound, (*from, *to), (*left, *right), body, picks) }
    }
}

/// The free variables of a formula, each once, in order of first occurrence.
#[tactic(auto, using(crate::proofs::PickLaws::picks_all))]
pub fn picks_in(alloc: Global, f: &Formula) -> Result<Vec<Var>, AllocError>
    ensures { IfOk result (λ picks. picks_of picks.items ≡ picks_in (form_of f.now)) }
{
    let bound = Bound {
        flags: [false; 256],
    };
    let mut picks = Vec::new(alloc);
    pick_all(&bound, f, &mut picks)?;
    Ok(picks)
}
