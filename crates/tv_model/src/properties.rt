//! The rules that properties of predicates stand for.

ghost use Rattle.std.specs.Prelude.{◌≡◌, true, ◌++◌, map, IfOk, OnOk};
ghost use Rattle.tv_model.specs.Form.{form_of, vars_of, FAnd, FAtom};
ghost use Rattle.tv_model.specs.Program.{HSame, rule_of};
ghost use Rattle.tv_model.specs.PropertyForms.{rule_of_property};
ghost use Rattle.tv_model.specs.Rules.{property_rules, declared_rule};

use crate::{Formula, Head, PredId, Props, Rule, Rules, Terms, Var};
use std::alloc::{AllocError, Global};

const A: Var = Var(0);

const B: Var = Var(1);

const C: Var = Var(2);

/// A property of a predicate that stands for a rule.
#[derive(Clone, Copy, Debug)]
pub(crate) enum Property {
    Unique,
    Function,
    InverseFunction,
    Transitive,
    Reflexive,
    Symmetric,
}

/// Puts the rules that the properties of the predicate stand for behind the list.
pub fn push_properties(
    alloc: Global,
    p: PredId,
    props: Props,
    rules: &mut Rules,
) -> Result<(), AllocError>
    ensures { OnOk result (map rule_of rules.new ≡ map rule_of rules.old ++ property_rules p.0 props) }
{
    push_declared(alloc, props.unique, Property::Unique, p, rules)?;
    push_declared(alloc, props.function, Property::Function, p, rules)?;
    push_declared(
        alloc,
        props.invfunction,
        Property::InverseFunction,
        p,
        rules,
    )?;
    push_declared(alloc, props.transitive, Property::Transitive, p, rules)?;
    push_declared(alloc, props.reflexive, Property::Reflexive, p, rules)?;
    push_declared(alloc, props.symmetric, Property::Symmetric, p, rules)
}

fn push_declared(
    alloc: Global,
    flag: bool,
    property: Property,
    p: PredId,
    rules: &mut Rules,
) -> Result<(), AllocError>
    ensures { OnOk result (map rule_of rules.new
        ≡ map rule_of rules.old ++ declared_rule flag (rule_of_property property p.0)) }
{
    if flag {
        rules.push(property_rule(alloc, property, p)?)?;
    }
    Ok(())
}

fn property_rule(alloc: Global, property: Property, p: PredId) -> Result<Rule, AllocError>
    ensures { IfOk result (λ rule. rule_of rule ≡ rule_of_property property p.0) }
{
    match property {
        Property::Unique => unlike(alloc, p, Terms::One(A), Terms::One(B), A, B),
        Property::Function => unlike(alloc, p, Terms::Two(A, B), Terms::Two(A, C), B, C),
        Property::InverseFunction => unlike(alloc, p, Terms::Two(B, A), Terms::Two(C, A), B, C),
        Property::Transitive => Ok(Rule {
            body: both(
                alloc,
                Formula::Atom(p, Terms::Two(A, B)),
                Formula::Atom(p, Terms::Two(B, C)),
            )?,
            head: Head::Atom(true, p, Terms::Two(A, C)),
        }),
        Property::Reflexive => Ok(Rule {
            body: Formula::One,
            head: Head::Atom(true, p, Terms::Two(A, A)),
        }),
        Property::Symmetric => Ok(Rule {
            body: Formula::Atom(p, Terms::Two(A, B)),
            head: Head::Atom(true, p, Terms::Two(B, A)),
        }),
    }
}

/// The rule by which two tuples of which the predicate holds have one individual for both variables.
fn unlike(
    alloc: Global,
    p: PredId,
    left: Terms,
    right: Terms,
    v: Var,
    w: Var,
) -> Result<Rule, AllocError>
    ensures { IfOk result (λ rule. rule_of rule
        ≡ record {
          body = FAnd (FAtom p.0 (vars_of left)) (FAtom p.0 (vars_of right));
          head = HSame true v.0 w.0;
        }) }
{
    Ok(Rule {
        body: both(alloc, Formula::Atom(p, left), Formula::Atom(p, right))?,
        head: Head::Same(true, v, w),
    })
}

fn both(alloc: Global, f: Formula, g: Formula) -> Result<Formula, AllocError>
    ensures { IfOk result (λ h. form_of h ≡ FAnd (form_of f) (form_of g)) }
{
    Ok(Formula::And(Box::new(alloc, f)?, Box::new(alloc, g)?))
}
