//! Whether a plain heap meets rules.

ghost use Rattle.std.specs.Prelude.{ℕ, ◌≡◌, ◌↔◌, ◌⊎◌, ◌≤◌, ◌∷◌, ◌++◌, IsTrue, IfOk, OnOk, All, Contains};
ghost use Rattle.std.specs.Prelude.{length, map};
ghost use Rattle.tv_model.specs.Form.{form_of, vars_of};
ghost use Rattle.tv_model.specs.Truth.{Truth, put};
ghost use Rattle.tv_model.specs.Program.{head_of, program_of, rule_of};
ghost use Rattle.tv_model.specs.Rules.{IsFreeInRule, IsInHead, MeetsProgram, MeetsRule, head_formula};
ghost use Rattle.tv_concrete.specs.Lists.{heap_of, assignment_of};
ghost use Rattle.tv_concrete.specs.Assignments.{IsTrueFrom, variables_in, head_variables};

use crate::{HeapList, Values, holds, meets_all_properties};
use std::alloc::{AllocError, Global};
use tv_model::{Formula, Head, Items, Program, Rule, Terms, Var, free};

/// Whether the heap meets the program's rules and those of its properties.
pub fn meets_program(alloc: Global, program: &Program, heap: &HeapList) -> Result<bool, AllocError>
    requires { length program.now.vocab.preds ≤ 512 }
    ensures { IfOk result (λ b. IsTrue b ↔ MeetsProgram (program_of program.now) (heap_of heap.now)) }
{
    if !meets_rules(alloc, heap, program.rules.as_slice())? {
        return Ok(false);
    }
    meets_all_properties(alloc, heap, program.vocab.preds.as_slice())
}

/// Whether the heap meets each of the rules.
pub fn meets_rules(alloc: Global, heap: &HeapList, rules: &[Rule]) -> Result<bool, AllocError>
    ensures { IfOk result (λ b. IsTrue b ↔ All (MeetsRule (heap_of heap.now)) (map rule_of rules.now)) }
{
    for rule in rules {
        if !meets_rule(alloc, heap, rule)? {
            return Ok(false);
        }
    }
    Ok(true)
}

/// Whether wherever the rule's body is true, so is its head.
fn meets_rule(alloc: Global, heap: &HeapList, rule: &Rule) -> Result<bool, AllocError>
    ensures { IfOk result (λ b. IsTrue b ↔ MeetsRule (heap_of heap.now) (rule_of rule.now)) }
{
    let vars = rule_variables(alloc, rule)?;
    let trial = Trial { heap, rule };
    Ok(meets_for_each(&trial, vars.as_slice(), Values::blank()))
}

/// A rule that is tried in a heap.
#[derive(Clone, Copy)]
pub(crate) struct Trial<'a> {
    heap: &'a HeapList,
    rule: &'a Rule,
}

/// Whether the rule is true for each choice of individuals for the variables.
#[cycle(meets)]
fn meets_for_each(trial: &Trial<'_>, vars: &[u8], values: Values) -> bool
    ensures { IsTrue result ↔ IsTrueFrom trial.now vars.now (assignment_of values) }
{
    match vars {
        [] => {
            !holds(trial.heap, values, &trial.rule.body)
                || head_holds(trial.heap, &trial.rule.head, &values)
        }
        [v, rest @ ..] => meets_for_each_of(trial, Var(*v), rest, values),
    }
}

#[cycle(meets)]
fn meets_for_each_of(trial: &Trial<'_>, v: Var, rest: &[u8], values: Values) -> bool
    ensures { IsTrue result ↔ IsTrueFrom trial.now (v.0 ∷ rest.now) (assignment_of values) }
{
    for u in trial.heap.individuals.as_slice() {
        if !meets_with(trial, v, *u, rest, values) {
            return false;
        }
    }
    true
}

#[cycle(meets)]
fn meets_with(trial: &Trial<'_>, v: Var, u: u32, rest: &[u8], values: Values) -> bool
    ensures { IsTrue result ↔ IsTrueFrom trial.now rest.now (put (assignment_of values) v.0 u) }
{
    meets_for_each(trial, rest, values.with(v, u))
}

fn head_holds(heap: &HeapList, head: &Head, values: &Values) -> bool
    ensures { IsTrue result
        ↔ Truth (heap_of heap.now) (assignment_of values.now) (head_formula (head_of head.now)) }
{
    match head {
        Head::Never => false,
        Head::Atom(flag, pred, terms) => heap.holds_at(*pred, terms, values) == *flag,
        Head::Same(flag, v, w) => (values.at(*v) == values.at(*w)) == *flag,
    }
}

/// The variables that are free in the rule's body or stand in its head, each once.
fn rule_variables(alloc: Global, rule: &Rule) -> Result<Items<u8>, AllocError>
    ensures { IfOk result (λ vars. (v : ℕ) → Contains vars v ↔ IsFreeInRule v (rule_of rule.now)) }
{
    let mut all = Items::new(alloc);
    push_variables(&rule.body, &mut all)?;
    push_head(&rule.head, &mut all)?;
    free_ones(alloc, rule, all.as_slice())
}

fn free_ones(alloc: Global, rule: &Rule, all: &[u8]) -> Result<Items<u8>, AllocError>
    ensures { IfOk result (λ vars. (v : ℕ) → Contains vars v ↔
        (Contains all.now v × IsFreeInRule v (rule_of rule.now))) }
{
    let mut vars = Items::new(alloc);
    for v in all {
        note(rule, *v, &mut vars)?;
    }
    Ok(vars)
}

/// Puts the variable into the list, if it is free in the rule.
fn note(rule: &Rule, v: u8, vars: &mut Items<u8>) -> Result<(), AllocError>
    ensures { OnOk result ((w : ℕ) → Contains vars.new w ↔ (Contains vars.old w
        ⊎ ((w ≡ v) × IsFreeInRule w (rule_of rule.now)))) }
{
    if !is_free_in_rule(rule, Var(v)) {
        return Ok(());
    }
    if vars.as_slice().contains(&v) {
        return Ok(());
    }
    vars.push(v)
}

fn is_free_in_rule(rule: &Rule, v: Var) -> bool
    ensures { IsTrue result ↔ IsFreeInRule v.0 (rule_of rule.now) }
{
    free(&rule.body, v) || stands_in_head(&rule.head, v)
}

fn stands_in_head(head: &Head, v: Var) -> bool
    ensures { IsTrue result ↔ IsInHead v.0 (head_of head.now) }
{
    match head {
        Head::Never => false,
        Head::Atom(_, _, Terms::Zero) => false,
        Head::Atom(_, _, Terms::One(w)) => v.0 == w.0,
        Head::Atom(_, _, Terms::Two(w, u)) | Head::Same(_, w, u) => v.0 == w.0 || v.0 == u.0,
    }
}

/// Puts every variable of the formula, free or bound, behind the list.
fn push_variables(f: &Formula, all: &mut Items<u8>) -> Result<(), AllocError>
    ensures { OnOk result (all.new ≡ all.old ++ variables_in (form_of f.now)) }
{
    match f {
        Formula::Zero | Formula::One => Ok(()),
        Formula::Atom(_, terms) => push_terms(terms, all),
        Formula::IsNew(v) => push_terms(&Terms::One(*v), all),
        Formula::Same(v, w) => push_terms(&Terms::Two(*v, *w), all),
        Formula::Not(g) | Formula::Exists(_, g) | Formula::Forall(_, g) => push_variables(g, all),
        Formula::And(g, h) | Formula::Or(g, h) | Formula::Iff(g, h) => {
            push_variables(g, all)?;
            push_variables(h, all)
        }
        Formula::Cond(c, g, h) => {
            push_variables(c, all)?;
            push_variables(g, all)?;
            push_variables(h, all)
        }
        Formula::Closure { from, to, body, .. } => {
            push_terms(&Terms::Two(*from, *to), all)?;
            push_variables(body, all)
        }
    }
}

fn push_terms(terms: &Terms, all: &mut Items<u8>) -> Result<(), AllocError>
    ensures { OnOk result (all.new ≡ all.old ++ vars_of terms.now) }
{
    match terms {
        Terms::Zero => Ok(()),
        Terms::One(v) => all.push(v.0),
        Terms::Two(v, w) => {
            all.push(v.0)?;
            all.push(w.0)
        }
    }
}

fn push_head(head: &Head, all: &mut Items<u8>) -> Result<(), AllocError>
    ensures { OnOk result (all.new ≡ all.old ++ head_variables (head_of head.now)) }
{
    match head {
        Head::Never => Ok(()),
        Head::Atom(_, _, terms) => push_terms(terms, all),
        Head::Same(_, v, w) => push_terms(&Terms::Two(*v, *w), all),
    }
}
