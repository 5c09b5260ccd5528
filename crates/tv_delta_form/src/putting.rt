//! Arguments put in for the free variables of a formula, without capture.

ghost use Rattle.std.specs.Prelude.{◌≡◌, ◌+◌, ◌≤◌, ◌++◌, ◌||◌, Some, map, IfOk};
ghost use Rattle.tv_model.specs.Form.{form_of, vars_of, FExists};
ghost use Rattle.tv_model.specs.Free.{is_free};
ghost use Rattle.tv_delta_laws.specs.Putting.{has, variables, argument_for, arguments_of, under};
ghost use Rattle.tv_delta_laws.specs.Putting.{under_bound, bound_number, put_in, with_own, own_variables};
ghost use Rattle.tv_delta_laws.specs.Deltas.{small_put};
ghost use Rattle.tv_delta_laws.specs.Simple.{nodes};
ghost use Rattle.std.specs.List.{zip};
ghost use Rattle.tv_model.specs.Program.{picks_of};
ghost use Rattle.tv_model.specs.Quantifiers.{bound};
ghost use Rattle.tv_delta_form.specs.Views.{GivesFormed, arguments_from, reserved_of};
ghost use Rattle.tv_delta_form.specs.Views.{reserved_at, reserved_besides, used_at, is_it, slot_among};
ghost use Rattle.tv_delta_form.specs.Views.{scope_form, bound_of, bind, own_number, own_used};
ghost use Rattle.tv_delta_form.specs.UnderHeads.{GivesInside};

use crate::heads::outermost;
use crate::size::is_small;
use crate::stop::Stop;
use std::alloc::{AllocError, Global};
use tv_model::{Binding, Formula, Terms, Var, bound_by, free};

/// What is put for a variable.
#[derive(Clone, Copy, Debug)]
pub struct Put {
    pub var: Var,
    pub argument: Var,
}

/// The variables that no bound variable may become: the picked ones, and the own ones of an update.
#[derive(Clone, Copy, Debug)]
pub struct Kept<'a> {
    pub picks: &'a [Var],
    pub own: Terms,
}

fn among(vars: &[Var], v: u8) -> bool
    ensures { result ≡ has (picks_of vars.now) v }
{
    match vars {
        [] => false,
        [w, rest @ ..] => w.0 == v || among(rest, v),
    }
}

fn in_terms(terms: &Terms, v: u8) -> bool
    ensures { result ≡ has (vars_of terms.now) v }
{
    match terms {
        Terms::Zero => false,
        Terms::One(w) => w.0 == v,
        Terms::Two(w, u) => w.0 == v || u.0 == v,
    }
}

/// Whether the variable stands in the formula, free or bound.
#[tactic(auto, using(crate::proofs::PuttingLemmas::has_append))]
fn stands_in(f: &Formula, v: u8) -> bool
    ensures { result ≡ has (variables (form_of f.now)) v }
{
    match f {
        Formula::Zero | Formula::One => false,
        Formula::Atom(_, terms) => in_terms(terms, v),
        Formula::IsNew(w) => w.0 == v,
        Formula::Same(w, u) => w.0 == v || u.0 == v,
        Formula::Not(g) => stands_in(g, v),
        Formula::And(g, h) | Formula::Or(g, h) | Formula::Iff(g, h) => {
            stands_in(g, v) || stands_in(h, v)
        }
        Formula::Cond(c, g, h) => stands_in(c, v) || stands_in(g, v) || stands_in(h, v),
        Formula::Exists(w, g) | Formula::Forall(w, g) => w.0 == v || stands_in(g, v),
        Formula::Closure {
            from,
            to,
            left,
            right,
            body,
        } => from.0 == v || to.0 == v || left.0 == v || right.0 == v || stands_in(body, v),
    }
}

fn is_argument(m: &[Put], v: u8) -> bool
    ensures { result ≡ has (arguments_of (arguments_from m.now)) v }
{
    match m {
        [] => false,
        [e, rest @ ..] => e.argument.0 == v || is_argument(rest, v),
    }
}

fn argument_for(m: &[Put], v: Var) -> Var
    ensures { result.0 ≡ argument_for (arguments_from m.now) v.0 }
{
    match m {
        [] => v,
        [e, rest @ ..] => {
            if e.var.0 == v.0 {
                e.argument
            } else {
                argument_for(rest, v)
            }
        }
    }
}

fn put_terms(m: &[Put], terms: &Terms) -> Terms
    ensures { vars_of result ≡ map (argument_for (arguments_from m.now)) (vars_of terms.now) }
{
    match terms {
        Terms::Zero => Terms::Zero,
        Terms::One(v) => Terms::One(argument_for(m, *v)),
        Terms::Two(v, w) => Terms::Two(argument_for(m, *v), argument_for(m, *w)),
    }
}

/// Whether the variable stands free in the formula.
fn is_free(f: &Formula, v: u8) -> bool
    ensures { result ≡ is_free v (form_of f.now) }
{
    free(f, Var(v))
}

/// What a bound variable is bound over: a formula, or a quantifier of one more variable over it.
#[derive(Clone, Copy, Debug)]
pub struct Scope<'a> {
    pub inner: Option<Var>,
    pub body: &'a Formula,
}

fn is_it(v: Option<Var>, s: u8) -> bool
    ensures { result ≡ is_it v s }
{
    match v {
        None => false,
        Some(w) => w.0 == s,
    }
}

fn is_free_in(scope: &Scope<'_>, v: u8) -> bool
    ensures { result ≡ is_free v (scope_form scope.now) }
{
    match scope.inner {
        None => is_free(scope.body, v),
        Some(w) => v != w.0 && is_free(scope.body, v),
    }
}

fn stands_in_scope(scope: &Scope<'_>, v: u8) -> bool
    ensures { result ≡ has (variables (scope_form scope.now)) v }
{
    match scope.inner {
        None => stands_in(scope.body, v),
        Some(w) => w.0 == v || stands_in(scope.body, v),
    }
}

/// Whether the variable of `e` is free under a quantifier of `v` over the scope.
fn is_left(e: Put, v: Var, scope: &Scope<'_>) -> bool
    ensures { result ≡ is_free e.var.0 (FExists v.0 (scope_form scope.now)) }
{
    e.var.0 != v.0 && is_free_in(scope, e.var.0)
}

/// Puts behind `kept` the arguments that are left under a bound variable `v` over the scope.
fn keep_under(m: &[Put], v: Var, scope: &Scope<'_>, kept: &mut Vec<Put>) -> Result<(), AllocError>
    ensures { IfOk result (λ u. arguments_from kept.new.items
        ≡ arguments_from kept.old.items ++ under (arguments_from m.now) v.0 (scope_form scope.now)) }
{
    match m {
        [] => Ok(()),
        [e, rest @ ..] => {
            if is_left(*e, v, scope) {
                kept.push(*e)?;
            }
            keep_under(rest, v, scope, kept)
        }
    }
}

/// Whether `v`, bound over the scope, captures an argument.
fn captures(m: &[Put], v: Var, scope: &Scope<'_>) -> bool
    ensures { result ≡ has (arguments_of (under (arguments_from m.now) v.0 (scope_form scope.now))) v.0 }
{
    match m {
        [] => false,
        [e, rest @ ..] => {
            if is_left(*e, v, scope) {
                e.argument.0 == v.0 || captures(rest, v, scope)
            } else {
                captures(rest, v, scope)
            }
        }
    }
}

/// The arguments under a bound variable `v` over the scope that got the number `w`.
fn under_bound(
    alloc: Global,
    m: &[Put],
    v: Var,
    w: Var,
    scope: &Scope<'_>,
) -> Result<Vec<Put>, AllocError>
    ensures { IfOk result
        (λ n. arguments_from n.items ≡ under_bound (arguments_from m.now) v.0 w.0 (scope_form scope.now)) }
{
    let mut kept = Vec::new(alloc);
    if w.0 != v.0 {
        kept.push(Put {
            var: v,
            argument: w,
        })?;
    }
    keep_under(m, v, scope, &mut kept)?;
    Ok(kept)
}

/// What is reserved where a bound variable is renamed: one more variable may be no slot.
#[derive(Clone, Copy, Debug)]
pub struct Reserved<'a> {
    pub picks: &'a [Var],
    pub own: Terms,
    pub besides: Option<Var>,
}

fn reserve<'a>(k: &Kept<'a>, besides: Option<Var>) -> Reserved<'a>
    ensures { reserved_at result ≡ reserved_besides besides (reserved_of k.now) }
{
    Reserved {
        picks: k.picks,
        own: k.own,
        besides,
    }
}

/// Whether the variable `s` is no slot for one bound over the scope.
#[tactic(auto, using(crate::proofs::PuttingLemmas::has_append))]
fn in_use(r: &Reserved<'_>, m: &[Put], scope: &Scope<'_>, s: u8) -> bool
    ensures { result ≡ has (used_at r.now (arguments_from m.now) (scope_form scope.now)) s }
{
    among(r.picks, s)
        || is_it(r.besides, s)
        || in_terms(&r.own, s)
        || is_argument(m, s)
        || stands_in_scope(scope, s)
}

/// The lowest slot from `s` on that isn't in use, `left` of which there are.
#[tactic(auto, using(crate::proofs::PuttingLemmas::slot_step, crate::proofs::PuttingLemmas::slot_here, crate::proofs::PuttingLemmas::slot_none))]
fn slot_from(r: &Reserved<'_>, m: &[Put], scope: &Scope<'_>, s: u8, left: u8) -> Result<Var, Stop>
    requires { s + left ≡ 32 }
    ensures { GivesFormed (λ v. v.0) result
        (slot_among (used_at r.now (arguments_from m.now) (scope_form scope.now)) s left) }
{
    if left == 0 {
        Err(Stop::Unformed)
    } else if in_use(r, m, scope, s) {
        slot_from(r, m, scope, s + 1, left - 1)
    } else {
        Ok(Var(s))
    }
}

/// The number that the variable `v`, bound over the scope, gets.
#[tactic(auto, using(crate::proofs::PuttingLemmas::least_among))]
fn bound_number(r: &Reserved<'_>, m: &[Put], v: Var, scope: &Scope<'_>) -> Result<Var, Stop>
    ensures { GivesFormed (λ w. w.0) result
        (bound_number (reserved_at r.now) (arguments_from m.now) v.0 (scope_form scope.now)) }
{
    if among(r.picks, v.0) || captures(m, v, scope) {
        slot_from(r, m, scope, 0, 32)
    } else {
        Ok(v)
    }
}

/// A bound variable's new number, and the arguments under it.
#[derive(Debug, Drop)]
struct Bound {
    var: Var,
    arguments: Vec<Put>,
}

#[tactic(auto, using(crate::proofs::Steps::map_fails, crate::proofs::Steps::memory_fails))]
fn bind(
    alloc: Global,
    r: &Reserved<'_>,
    m: &[Put],
    v: Var,
    scope: &Scope<'_>,
) -> Result<Bound, Stop>
    ensures { GivesFormed bound_of result
        (bind (reserved_at r.now) (arguments_from m.now) v.0 (scope_form scope.now)) }
{
    let var = bound_number(r, m, v, scope)?;
    let arguments = under_bound(alloc, m, v, var, scope)?;
    Ok(Bound { var, arguments })
}

/// The formula with the arguments put in; it isn't formed where a slot is wanted and all are in use.
#[cycle(put_in)]
#[tactic(auto, using(crate::proofs::PutSteps::put_steps, crate::proofs::Steps::memory_fails))]
fn put_in(alloc: Global, k: &Kept<'_>, f: &Formula, m: &[Put]) -> Result<Formula, Stop>
    ensures { GivesFormed form_of result (put_in (reserved_of k.now) (form_of f.now) (arguments_from m.now)) }
{
    match f {
        Formula::Zero => Ok(Formula::Zero),
        Formula::One => Ok(Formula::One),
        Formula::Atom(p, terms) => Ok(Formula::Atom(*p, put_terms(m, terms))),
        Formula::IsNew(v) => Ok(Formula::IsNew(argument_for(m, *v))),
        Formula::Same(v, w) => Ok(Formula::Same(argument_for(m, *v), argument_for(m, *w))),
        Formula::Not(g) => {
            let x = put_boxed(alloc, k, g, m)?;
            Ok(Formula::Not(x))
        }
        Formula::And(g, h) => {
            let x = put_boxed(alloc, k, g, m)?;
            let y = put_boxed(alloc, k, h, m)?;
            Ok(Formula::And(x, y))
        }
        Formula::Or(g, h) => {
            let x = put_boxed(alloc, k, g, m)?;
            let y = put_boxed(alloc, k, h, m)?;
            Ok(Formula::Or(x, y))
        }
        Formula::Iff(g, h) => {
            let x = put_boxed(alloc, k, g, m)?;
            let y = put_boxed(alloc, k, h, m)?;
            Ok(Formula::Iff(x, y))
        }
        Formula::Cond(c, g, h) => {
            let z = put_boxed(alloc, k, c, m)?;
            let x = put_boxed(alloc, k, g, m)?;
            let y = put_boxed(alloc, k, h, m)?;
            Ok(Formula::Cond(z, x, y))
        }
        Formula::Exists(v, g) => put_under(alloc, k, Binding::Exists(*v), g, m),
        Formula::Forall(v, g) => put_under(alloc, k, Binding::Forall(*v), g, m),
        Formula::Closure {
            from,
            to,
            left,
            right,
            body,
        } => {
            let first = bind(
                alloc,
                &reserve(k, None),
                m,
                *left,
                &over_one_more(*right, body),
            )?;
            let second = bind(
                alloc,
                &reserve(k, Some(first.var)),
                &first.arguments,
                *right,
                &over(body),
            )?;
            let x = put_boxed(alloc, k, body, &second.arguments)?;
            Ok(Formula::Closure {
                from: argument_for(m, *from),
                to: argument_for(m, *to),
                left: first.var,
                right: second.var,
                body: x,
            })
        }
    }
}

/// What is left of a formula under the quantifiers at its head, once these have their numbers.
#[derive(Debug, Drop)]
pub struct Inside<'a> {
    /// The quantifiers, the outermost first.
    bindings: Vec<Binding>,
    arguments: Vec<Put>,
    body: &'a Formula,
}

/// Gives the quantifier its number, and those at the head of the formula under it.
#[tactic(auto, using(crate::proofs::HeadSteps::head_steps, crate::proofs::Steps::memory_fails))]
fn number_head<'a>(
    alloc: Global,
    k: &Kept<'_>,
    first: Binding,
    f: &'a Formula,
    m: &[Put],
) -> Result<Inside<'a>, Stop>
    ensures { GivesInside (reserved_of k.now) (arguments_from m.now) first (form_of f.now) result }
{
    let bound = bind(alloc, &reserve(k, None), m, first.var(), &over(f))?;
    let mut bindings = Vec::new(alloc);
    bindings.push(first.renamed(bound.var))?;
    let mut arguments = bound.arguments;
    let mut body = f;
    while let Some((binding, g)) = outermost(body) {
        let bound = bind(
            alloc,
            &reserve(k, None),
            &arguments,
            binding.var(),
            &over(g),
        )?;
        bindings.push(binding.renamed(bound.var))?;
        arguments = bound.arguments;
        body = g;
    }
    Ok(Inside {
        bindings,
        arguments,
        body,
    })
}

/// The formula under the quantifier with the arguments put in.
#[cycle(put_in)]
#[inline(never)]
#[tactic(auto, using(crate::proofs::HeadSteps::inside_put, crate::proofs::HeadSteps::inside_fails, crate::proofs::Steps::memory_fails))]
fn put_under(
    alloc: Global,
    k: &Kept<'_>,
    first: Binding,
    f: &Formula,
    m: &[Put],
) -> Result<Formula, Stop>
    ensures { GivesFormed form_of result
        (put_in (reserved_of k.now) (bound first (form_of f.now)) (arguments_from m.now)) }
{
    let inside = number_head(alloc, k, first, f, m)?;
    let x = put_in(alloc, k, inside.body, &inside.arguments)?;
    Ok(bound_by(alloc, inside.bindings, x)?)
}

#[cycle(put_in)]
#[tactic(auto, using(crate::proofs::PutSteps::put_steps, crate::proofs::Steps::memory_fails))]
fn put_boxed(alloc: Global, k: &Kept<'_>, f: &Formula, m: &[Put]) -> Result<Box<Formula>, Stop>
    ensures { GivesFormed (λ g. form_of g.value) result
        (put_in (reserved_of k.now) (form_of f.now) (arguments_from m.now)) }
{
    let g = put_in(alloc, k, f, m)?;
    let b = boxed(alloc, g)?;
    Ok(b)
}

fn boxed(alloc: Global, f: Formula) -> Result<Box<Formula>, AllocError>
    ensures { IfOk result (λ b. b.value ≡ f) }
{
    Ok(Box::new(alloc, f)?)
}

fn over(body: &Formula) -> Scope<'_>
    ensures { scope_form result ≡ form_of body.now }
{
    Scope { inner: None, body }
}

fn over_one_more(v: Var, body: &Formula) -> Scope<'_>
    ensures { scope_form result ≡ FExists v.0 (form_of body.now) }
{
    Scope {
        inner: Some(v),
        body,
    }
}

fn pair(var: &Var, argument: &Var) -> Put
    ensures { (result.var.0 ≡ var.now.0) × (result.argument.0 ≡ argument.now.0) }
{
    Put {
        var: *var,
        argument: *argument,
    }
}

/// The arguments, each beside its variable.
fn arguments(alloc: Global, vars: &Terms, args: &Terms) -> Result<Vec<Put>, AllocError>
    ensures { IfOk result (λ m. arguments_from m.items ≡ zip (vars_of vars.now) (vars_of args.now)) }
{
    let mut m = Vec::new(alloc);
    match (vars, args) {
        (Terms::Zero, _) | (_, Terms::Zero) => {}
        (Terms::Two(v, w), Terms::Two(a, b)) => {
            m.push(pair(v, a))?;
            m.push(pair(w, b))?;
        }
        (Terms::One(v), Terms::One(a) | Terms::Two(a, _)) | (Terms::Two(v, _), Terms::One(a)) => {
            m.push(pair(v, a))?;
        }
    }
    Ok(m)
}

/// The formula with `args` put in for `vars`, if it is small; no bound variable captures an argument.
#[tactic(auto, using(crate::proofs::Steps::memory_fails, crate::proofs::Likes::put_nodes))]
pub fn small_put(
    alloc: Global,
    k: &Kept<'_>,
    f: &Formula,
    vars: &Terms,
    args: &Terms,
) -> Result<Formula, Stop>
    ensures formula { GivesFormed form_of result
        (small_put (reserved_of k.now) (form_of f.now) (zip (vars_of vars.now) (vars_of args.now))) }
    ensures small { IfOk result (λ x. nodes (form_of x) ≤ 65536) }
{
    if !is_small(f) {
        return Err(Stop::Unformed);
    }
    let m = arguments(alloc, vars, args)?;
    put_in(alloc, k, f, &m)
}

/// The number that the own variable `v` of an update gets; `besides` is in use too.
#[tactic(auto, using(crate::proofs::PuttingLemmas::own_slots))]
fn own_number(k: &Kept<'_>, besides: Option<Var>, v: Var, body: &Formula) -> Result<Var, Stop>
    ensures { GivesFormed (λ w. w.0) result
        (own_number (picks_of k.now.picks.now) (own_used k.now besides (form_of body.now)) v.0) }
{
    if among(k.picks, v.0) {
        slot_from(&reserve(k, besides), &[], &over(body), 0, 32)
    } else {
        Ok(v)
    }
}

/// The own variables of an update of the predicate that the body defines over `vars`: the same, where a
/// picked one gets the lowest slot that isn't in use.
#[tactic(auto, using(crate::proofs::Steps::memory_fails))]
pub fn own_variables(picks: &[Var], vars: Terms, body: &Formula) -> Result<Terms, Stop>
    ensures { GivesFormed vars_of result (own_variables (picks_of picks.now)
        (picks_of picks.now ++ (vars_of vars ++ variables (form_of body.now))) (vars_of vars)) }
{
    let k = Kept { picks, own: vars };
    match vars {
        Terms::Zero => Ok(Terms::Zero),
        Terms::One(v) => {
            let a = own_number(&k, None, v, body)?;
            Ok(Terms::One(a))
        }
        Terms::Two(v, w) => {
            let a = own_number(&k, None, v, body)?;
            let taken = if among(picks, v.0) { Some(a) } else { None };
            let b = own_number(&k, taken, w, body)?;
            Ok(Terms::Two(a, b))
        }
    }
}
