//! What trying a rule goes by that doesn't depend on a structure: its variables in an order, and the members
//! of its family.

ghost use Rattle.std.specs.Prelude.{ℕ, ◌≡◌, ◌<◌, ◌↔◌, ◌⊎◌, Contains, IfOk, IsTrue, OnOk};
ghost use Rattle.tv_model.specs.Program.{rule_of};
ghost use Rattle.tv_model.specs.Rules.{IsFreeInRule};
ghost use Rattle.tv_rules.specs.EntryForms.{HasMoreFree, numbers_of};
ghost use Rattle.tv_rules.specs.Waiting.{IsShape};

use crate::conjuncts::{conjuncts, is_free_in_rule, negated_head};
use std::alloc::{AllocError, Global};
use tv_coerce_members::{Shape, lay_out};
use tv_model::{Formula, Items, Rule, Terms, Var, Vars};

/// The shapes of base rules.
pub type Shapes = Items<Shape>;

/// The shape of a base rule whose variables are in range.
pub fn shape_of(alloc: Global, rule: &Rule) -> Result<Shape, AllocError>
    requires { (v : ℕ) → IsFreeInRule v (rule_of rule.now) → v < 32 }
    ensures { IfOk result (IsShape (rule_of rule.now)) }
{
    let variables = rule_variables(alloc, rule)?;
    let negation = negated_head(alloc, rule.head)?;
    let mut members = conjuncts(alloc, &rule.body)?;
    members.push(&negation)?;
    lay_out(alloc, variables, &members)
}

/// The variables of the rule, of the 32 that there are: those first of which a conjunct of the body says
/// something alone, since few individuals may pass there, and behind each variable those that a conjunct ties
/// to it or to one before it, so that few are left for them.
fn rule_variables(alloc: Global, rule: &Rule) -> Result<Vars, AllocError>
    ensures { IfOk result (λ vars. (v : ℕ) → Contains (numbers_of vars) v
        ↔ ((v < 32) × IsFreeInRule v (rule_of rule.now))) }
{
    let mut vars = told_alone(alloc, rule)?;
    note_tied(rule, &mut vars)?;
    for v in 0..32 {
        note_next(rule, Var(v), &mut vars)?;
    }
    Ok(vars)
}

/// Puts the variable behind the list, if it is free in the rule and doesn't stand there yet, and then those
/// that are tied to one of the list.
fn note_next(rule: &Rule, v: Var, vars: &mut Vars) -> Result<(), AllocError>
    requires { v.0 < 32 }
    ensures { OnOk result (HasMoreFree (rule_of rule.now) (numbers_of vars.old) (numbers_of vars.new)
        × (IsFreeInRule v.0 (rule_of rule.now) → Contains (numbers_of vars.new) v.0)) }
{
    let before = vars.len();
    note(rule, v, vars)?;
    if vars.len() > before {
        note_tied(rule, vars)?;
    }
    Ok(())
}

/// Puts variables that conjuncts tie to one of the list behind it, one after the other.
fn note_tied(rule: &Rule, vars: &mut Vars) -> Result<(), AllocError>
    ensures { OnOk result (HasMoreFree (rule_of rule.now) (numbers_of vars.old) (numbers_of vars.new)) }
{
    for _ in 0..32 {
        match tied(&rule.body, vars.as_slice()) {
            Some(v) if v.0 < 32 => note(rule, v, vars)?,
            _ => return Ok(()),
        }
    }
    Ok(())
}

/// A variable outside the list that a conjunct of the formula ties to one of it. A hint, of which nothing is
/// promised.
fn tied(f: &Formula, vars: &[Var]) -> Option<Var> {
    match f {
        Formula::And(g, h) => match tied(g, vars) {
            None => tied(h, vars),
            found => found,
        },
        Formula::Not(g) => other_of(g, vars),
        _ => other_of(f, vars),
    }
}

/// The variable outside the list, where a leaf has one in it and one outside. A hint, of which nothing is
/// promised.
fn other_of(leaf: &Formula, vars: &[Var]) -> Option<Var> {
    match leaf {
        Formula::Atom(_, Terms::Two(v, w)) | Formula::Same(v, w) => {
            match (has(vars, *v), has(vars, *w)) {
                (true, false) => Some(*w),
                (false, true) => Some(*v),
                _ => None,
            }
        }
        _ => None,
    }
}

/// Some of the variables of the rule: those of which a conjunct of the body says something alone.
fn told_alone(alloc: Global, rule: &Rule) -> Result<Vars, AllocError>
    ensures { IfOk result (λ vars. (v : ℕ) → Contains (numbers_of vars) v
        → (v < 32) × IsFreeInRule v (rule_of rule.now)) }
{
    let mut vars = Items::new(alloc);
    for v in 0..32 {
        note_alone(rule, Var(v), &mut vars)?;
    }
    Ok(vars)
}

/// Puts the variable behind the list, if a conjunct of the body says something of it alone.
fn note_alone(rule: &Rule, v: Var, vars: &mut Vars) -> Result<(), AllocError>
    ensures { OnOk result ((w : ℕ) → Contains (numbers_of vars.new) w
        → Contains (numbers_of vars.old) w ⊎ ((w ≡ v.0) × IsFreeInRule w (rule_of rule.now))) }
{
    if is_alone(&rule.body, v) {
        note(rule, v, vars)?;
    }
    Ok(())
}

/// Whether a conjunct of the formula is a literal about the variable alone. A hint, of which nothing is
/// promised.
fn is_alone(f: &Formula, v: Var) -> bool {
    match f {
        Formula::And(g, h) => is_alone(g, v) || is_alone(h, v),
        Formula::Not(g) => is_about(g, v),
        _ => is_about(f, v),
    }
}

/// Whether a leaf is an atom about the variable alone.
fn is_about(leaf: &Formula, v: Var) -> bool {
    match leaf {
        Formula::Atom(_, Terms::One(w)) => w.0 == v.0,
        Formula::Atom(_, Terms::Two(w, u)) => w.0 == v.0 && u.0 == v.0,
        _ => false,
    }
}

/// Whether the variable stands in the list.
fn has(vars: &[Var], v: Var) -> bool
    ensures { IsTrue result → Contains (numbers_of vars.now) v.0 }
{
    for w in vars {
        if w.0 == v.0 {
            return true;
        }
    }
    false
}

/// Puts the variable behind the list, if it is free in the rule and doesn't stand there yet.
fn note(rule: &Rule, v: Var, vars: &mut Vars) -> Result<(), AllocError>
    ensures { OnOk result ((w : ℕ) → Contains (numbers_of vars.new) w
        ↔ (Contains (numbers_of vars.old) w ⊎ ((w ≡ v.0) × IsFreeInRule w (rule_of rule.now)))) }
{
    if has(vars.as_slice(), v) {
        return Ok(());
    }
    if is_free_in_rule(rule, v) {
        vars.push(v)?;
    }
    Ok(())
}
