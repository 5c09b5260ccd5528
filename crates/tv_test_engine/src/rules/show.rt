//! Closed rules as short texts.

ghost use Rattle.std.specs.Prelude.{◌<◌, length};
ghost use Rattle.tv_rules.specs.EntryForms.{rules_of};

use std::alloc::{AllocError, Global};
use tv_model::{Formula, Head, PredId, Terms, Var};
use tv_rules::Closed;

fn put_var(alloc: Global, out: &mut String, var: Var) -> Result<(), AllocError> {
    out.push_str(format!(in alloc; "{}", var.0)?.as_str())
}

fn put_terms(alloc: Global, out: &mut String, terms: Terms) -> Result<(), AllocError> {
    out.push_str("(")?;
    match terms {
        Terms::Zero => {}
        Terms::One(v) => put_var(alloc, out, v)?,
        Terms::Two(v, w) => put_pair(alloc, out, v, ",", w)?,
    }
    out.push_str(")")
}

fn put_pair(alloc: Global, out: &mut String, v: Var, mark: &str, w: Var) -> Result<(), AllocError> {
    put_var(alloc, out, v)?;
    out.push_str(mark)?;
    put_var(alloc, out, w)
}

fn put_atom(alloc: Global, out: &mut String, p: PredId, terms: Terms) -> Result<(), AllocError> {
    out.push_str(format!(in alloc; "P{}", p.0)?.as_str())?;
    put_terms(alloc, out, terms)
}

/// A formula: `P2(0,1)` is the predicate of number 2, and variables are numbers. Forms that no row has
/// are `?`.
fn put_formula(alloc: Global, out: &mut String, f: &Formula) -> Result<(), AllocError> {
    match f {
        Formula::One => out.push_str("1"),
        Formula::Atom(p, terms) => put_atom(alloc, out, *p, *terms),
        Formula::Same(v, w) => put_pair(alloc, out, *v, "=", *w),
        Formula::Not(g) => {
            out.push_str("!")?;
            put_formula(alloc, out, g)
        }
        Formula::And(g, h) => {
            out.push_str("(")?;
            put_formula(alloc, out, g)?;
            out.push_str("&")?;
            put_formula(alloc, out, h)?;
            out.push_str(")")
        }
        Formula::Or(g, h) => {
            out.push_str("(")?;
            put_formula(alloc, out, g)?;
            out.push_str("|")?;
            put_formula(alloc, out, h)?;
            out.push_str(")")
        }
        Formula::Exists(v, g) => {
            out.push_str("E")?;
            put_var(alloc, out, *v)?;
            out.push_str(" ")?;
            put_formula(alloc, out, g)
        }
        Formula::Closure { from, to, .. } => {
            out.push_str("TC")?;
            put_terms(alloc, out, Terms::Two(*from, *to))
        }
        _ => out.push_str("?"),
    }
}

fn put_head(alloc: Global, out: &mut String, head: Head) -> Result<(), AllocError> {
    match head {
        Head::Never => out.push_str("0"),
        Head::Atom(flag, p, terms) => {
            out.push_str(if flag { "" } else { "!" })?;
            put_atom(alloc, out, p, terms)
        }
        Head::Same(flag, v, w) => {
            out.push_str(if flag { "" } else { "!" })?;
            put_pair(alloc, out, v, "=", w)
        }
    }
}

/// The number of the member of its base rule that a rule's head denies, or how many members there are.
fn denied(closed: &Closed, number: usize) -> usize
    requires { number < length (rules_of closed.now) }
{
    let count = closed.shape(number).members.len();
    for member in 0..count {
        if closed.denying(number, member) == Some(number) {
            return member;
        }
    }
    count
}

/// The conjuncts of a rule's body: the members of its base rule but for the last, which stands in the place
/// of the one that the rule's head denies.
fn put_body(
    alloc: Global,
    out: &mut String,
    closed: &Closed,
    number: usize,
) -> Result<(), AllocError>
    requires { number < length (rules_of closed.now) }
{
    let denied = denied(closed, number);
    let Some((last, front)) = closed.shape(number).members.as_slice().split_last() else {
        return Ok(());
    };
    let mut mark = "";
    for (place, member) in front.iter().enumerate() {
        out.push_str(mark)?;
        let shown = if place == denied { last } else { member };
        put_formula(alloc, out, &shown.formula)?;
        mark = "&";
    }
    Ok(())
}

fn put_rule(
    alloc: Global,
    out: &mut String,
    closed: &Closed,
    number: usize,
) -> Result<(), AllocError>
    requires { number < length (rules_of closed.now) }
{
    put_body(alloc, out, closed, number)?;
    out.push_str(">")?;
    put_head(alloc, out, closed.head(number))?;
    out.push_str(";")
}

/// The rules in order, each with its conjuncts, `>` and its head.
pub fn rules(alloc: Global, closed: &Closed) -> Result<String, AllocError> {
    let mut out = String::new(alloc);
    for number in 0..closed.count() {
        put_rule(alloc, &mut out, closed, number)?;
    }
    Ok(out)
}

/// Numbers, each with a blank behind it.
pub fn numbers(alloc: Global, numbers: &[usize]) -> Result<String, AllocError> {
    let mut out = String::new(alloc);
    for number in numbers {
        out.push_str(format!(in alloc; "{number} ")?.as_str())?;
    }
    Ok(out)
}

/// Variables, each with a blank behind it.
pub fn variables(alloc: Global, vars: &[Var]) -> Result<String, AllocError> {
    let mut out = String::new(alloc);
    for v in vars {
        put_var(alloc, &mut out, *v)?;
        out.push_str(" ")?;
    }
    Ok(out)
}
