//! The parts of a rule: what is dropped of its body, its conjuncts, and which of these are literals.

ghost use Rattle.std.specs.Prelude.{◌≡◌, ◌↔◌, ◌++◌, IsTrue, IfOk, OnOk};
ghost use Rattle.std.specs.Option.{option_map};
ghost use Rattle.tv_model.specs.Form.{form_of};
ghost use Rattle.tv_model.specs.Program.{head_of, rule_of};
ghost use Rattle.tv_model.specs.Rules.{IsFreeInRule};
ghost use Rattle.tv_rules.specs.Closing.{dropped, conjuncts, negated, negated_if, negated_head, signed_head};
ghost use Rattle.tv_model.specs.Free.{is_free};
ghost use Rattle.tv_rules.specs.Closing.{is_in_head, may_drop};
ghost use Rattle.tv_rules.specs.EntryForms.{forms_of};

use std::alloc::{AllocError, Global};
use tv_model::{Formula, Head, Rule, Terms, Var, free};

/// The body without each Exists at its top, up to the first whose variable stands in the head or doesn't
/// stand free under it. Takes no memory.
pub fn dropped<'a>(head: &Head, f: &'a Formula) -> &'a Formula
    ensures { form_of result.now ≡ dropped (head_of head.now) (form_of f.now) }
{
    match f {
        Formula::Exists(v, g) => {
            if may_drop(*v, head, g) {
                dropped(head, g)
            } else {
                f
            }
        }
        Formula::Zero
        | Formula::One
        | Formula::Atom(_, _)
        | Formula::IsNew(_)
        | Formula::Same(_, _)
        | Formula::Not(_)
        | Formula::And(_, _)
        | Formula::Or(_, _)
        | Formula::Iff(_, _)
        | Formula::Cond(_, _, _)
        | Formula::Forall(_, _)
        | Formula::Closure { .. } => f,
    }
}

fn may_drop(v: Var, head: &Head, f: &Formula) -> bool
    ensures { result ≡ may_drop v.0 (head_of head.now) (form_of f.now) }
{
    !stands_in_head(head, v) && is_free(f, v)
}

/// Whether the variable is free in the rule. Takes no memory.
pub fn is_free_in_rule(rule: &Rule, v: Var) -> bool
    ensures { IsTrue result ↔ IsFreeInRule v.0 (rule_of rule.now) }
{
    is_free(&rule.body, v) || stands_in_head(&rule.head, v)
}

fn is_free(f: &Formula, v: Var) -> bool
    ensures { result ≡ is_free v.0 (form_of f.now) }
{
    free(f, v)
}

fn stands_in_head(head: &Head, v: Var) -> bool
    ensures { result ≡ is_in_head v.0 (head_of head.now) }
{
    match head {
        Head::Never | Head::Atom(_, _, Terms::Zero) => false,
        Head::Atom(_, _, Terms::One(w)) => v.0 == w.0,
        Head::Atom(_, _, Terms::Two(w, u)) | Head::Same(_, w, u) => v.0 == w.0 || v.0 == u.0,
    }
}

/// The conjuncts of the formula in order: And is taken apart as often as it stands at the top.
pub fn conjuncts(alloc: Global, f: &Formula) -> Result<Vec<&Formula>, AllocError>
    ensures { IfOk result (λ fs. forms_of fs.items ≡ conjuncts (form_of f.now)) }
{
    let mut list = Vec::new(alloc);
    push_conjuncts(f, &mut list)?;
    Ok(list)
}

fn push_conjuncts<'a>(f: &'a Formula, list: &mut Vec<&'a Formula>) -> Result<(), AllocError>
    ensures { OnOk result (forms_of list.new.items ≡ forms_of list.old.items ++ conjuncts (form_of f.now)) }
{
    match f {
        Formula::And(g, h) => {
            push_conjuncts(g, list)?;
            push_conjuncts(h, list)
        }
        Formula::Zero
        | Formula::One
        | Formula::Atom(_, _)
        | Formula::IsNew(_)
        | Formula::Same(_, _)
        | Formula::Not(_)
        | Formula::Or(_, _)
        | Formula::Iff(_, _)
        | Formula::Cond(_, _, _)
        | Formula::Exists(_, _)
        | Formula::Forall(_, _)
        | Formula::Closure { .. } => {
            list.push(f)?;
            Ok(())
        }
    }
}

/// The negation of a literal as a head, with no double negation; none where the formula is no literal.
/// Takes no memory.
pub fn negated(f: &Formula) -> Option<Head>
    ensures { negated (form_of f.now) ≡ option_map head_of result }
{
    match f {
        Formula::Not(g) => signed_head(true, g),
        Formula::Zero
        | Formula::One
        | Formula::Atom(_, _)
        | Formula::IsNew(_)
        | Formula::Same(_, _)
        | Formula::And(_, _)
        | Formula::Or(_, _)
        | Formula::Iff(_, _)
        | Formula::Cond(_, _, _)
        | Formula::Exists(_, _)
        | Formula::Forall(_, _)
        | Formula::Closure { .. } => signed_head(false, f),
    }
}

fn signed_head(flag: bool, f: &Formula) -> Option<Head>
    ensures { signed_head flag (form_of f.now) ≡ option_map head_of result }
{
    match f {
        Formula::Atom(p, terms) => Some(Head::Atom(flag, *p, *terms)),
        Formula::Same(v, w) => Some(Head::Same(flag, *v, *w)),
        Formula::Zero
        | Formula::One
        | Formula::IsNew(_)
        | Formula::Not(_)
        | Formula::And(_, _)
        | Formula::Or(_, _)
        | Formula::Iff(_, _)
        | Formula::Cond(_, _, _)
        | Formula::Exists(_, _)
        | Formula::Forall(_, _)
        | Formula::Closure { .. } => None,
    }
}

/// The negation of a head as a formula, with no double negation; that of Never is One.
pub fn negated_head(alloc: Global, head: Head) -> Result<Formula, AllocError>
    ensures { IfOk result (λ f. form_of f ≡ negated_head (head_of head)) }
{
    match head {
        Head::Never => Ok(Formula::One),
        Head::Atom(flag, p, terms) => negated_if(alloc, flag, Formula::Atom(p, terms)),
        Head::Same(flag, v, w) => negated_if(alloc, flag, Formula::Same(v, w)),
    }
}

fn negated_if(alloc: Global, flag: bool, f: Formula) -> Result<Formula, AllocError>
    ensures { IfOk result (λ g. form_of g ≡ negated_if flag (form_of f)) }
{
    if flag {
        Ok(Formula::Not(Box::new(alloc, f)?))
    } else {
        Ok(f)
    }
}
