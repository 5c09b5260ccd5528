//! Formulas as text.

ghost use Rattle.std.specs.Prelude.{◌≡◌, ◌++◌, ◌∷◌, ◌≤◌, [], OnOk, codes, decimal, map, slice_get};
ghost use Rattle.std.specs.Option.{option_map};
ghost use Rattle.tv_model.specs.Form.{form_of, vars_of, FNot, FOr, FCond, FClosure};
ghost use Rattle.tv_model.specs.Program.{pred_of};
ghost use Rattle.tv_formula_text.specs.Formulas.{variable_text, terms_text, equality_text, name_of};
ghost use Rattle.tv_formula_text.specs.Formulas.{atom_text, some_walk, any_walk, walk_text, walk_or};
ghost use Rattle.tv_formula_text.specs.Formulas.{tightness, within_text, both_text, form_text};
ghost use Rattle.tv_formula_text.specs.Walks.{walk_of};

use itoa::Buffer;
use std::alloc::AllocError;
use tv_model::{Formula, Pred, PredId, Terms, Var};

/// Appends a number in decimal digits.
pub fn append_number(out: &mut Vec<u8>, n: usize) -> Result<(), AllocError>
    ensures { OnOk result (out.new.items ≡ out.old.items ++ decimal n) }
{
    let mut digits = Buffer::new();
    out.extend_from_slice(digits.format(n).as_bytes())
}

/// Appends a variable: `v`, `v_1`, `v_2` and so on.
fn append_variable(out: &mut Vec<u8>, v: Var) -> Result<(), AllocError>
    ensures { OnOk result (out.new.items ≡ out.old.items ++ variable_text v.0) }
{
    if v.0 == 0 {
        return out.extend_from_slice(b"v");
    }
    out.extend_from_slice(b"v_")?;
    append_number(out, v.0 as usize)
}

/// Appends two variables with a mark between them.
pub fn append_equality(out: &mut Vec<u8>, v: Var, mark: &[u8], w: Var) -> Result<(), AllocError>
    ensures { OnOk result (out.new.items ≡ out.old.items ++ equality_text mark.now v.0 w.0) }
{
    append_variable(out, v)?;
    out.extend_from_slice(mark)?;
    append_variable(out, w)
}

/// Appends variables in parentheses.
pub fn append_terms(out: &mut Vec<u8>, terms: Terms) -> Result<(), AllocError>
    ensures { OnOk result (out.new.items ≡ out.old.items ++ terms_text (vars_of terms)) }
{
    out.extend_from_slice(b"(")?;
    match terms {
        Terms::Zero => {}
        Terms::One(v) => append_variable(out, v)?,
        Terms::Two(v, w) => append_equality(out, v, b", ", w)?,
    }
    out.extend_from_slice(b")")
}

/// The name of the predicate of this number, or no bytes where there is none.
fn name_at(preds: &[Pred], p: PredId) -> &[u8]
    ensures { result.now ≡ name_of (slice_get (map pred_of preds.now) p.0) }
{
    match preds.get(p.0 as usize) {
        Some(pred) => pred.name.as_slice(),
        None => &[],
    }
}

/// Appends an atom, with a mark behind its predicate.
pub fn append_atom(
    out: &mut Vec<u8>,
    preds: &[Pred],
    p: PredId,
    mark: &[u8],
    terms: Terms,
) -> Result<(), AllocError>
    ensures { OnOk result
        (out.new.items ≡ out.old.items ++ atom_text (map pred_of preds.now) p.0 mark.now (vars_of terms)) }
{
    out.extend_from_slice(name_at(preds, p))?;
    out.extend_from_slice(mark)?;
    append_terms(out, terms)
}

/// A walk along the pairs of which a predicate holds.
#[derive(Clone, Copy)]
struct Walk {
    pred: PredId,
    from: Var,
    to: Var,
}

/// The walk of at least one step, where the formula says that there is one.
fn some_walk(f: &Formula) -> Option<Walk>
    ensures { option_map walk_of result ≡ some_walk (form_of f.now) }
{
    let Formula::Closure {
        from,
        to,
        left,
        right,
        body,
    } = f
    else {
        return None;
    };
    let Formula::Atom(pred, Terms::Two(v, w)) = &**body else {
        return None;
    };
    if v.0 == left.0 && w.0 == right.0 {
        Some(Walk {
            pred: *pred,
            from: *from,
            to: *to,
        })
    } else {
        None
    }
}

/// The walk of any number of steps, where one of the two formulas says that there is one.
fn any_walk(f: &Formula, g: &Formula) -> Option<Walk>
    ensures { option_map walk_of result ≡ any_walk (form_of f.now) (form_of g.now) }
{
    let Formula::Same(v, w) = f else {
        return None;
    };
    let walk = some_walk(g)?;
    if walk.from.0 == v.0 && walk.to.0 == w.0 {
        Some(walk)
    } else {
        None
    }
}

/// How tightly the text of a formula binds.
fn tightness(f: &Formula) -> u8
    ensures { result ≡ tightness (form_of f.now) }
{
    match f {
        Formula::Cond(_, _, _) | Formula::Exists(_, _) | Formula::Forall(_, _) => 0,
        Formula::Closure { .. } => { if some_walk(f).is_some() { 4 } else { 0 } }
        Formula::Iff(_, _) => 1,
        Formula::Or(g, h) => { if any_walk(g, h).is_some() { 4 } else { 2 } }
        Formula::And(_, _) => 3,
        _ => 4,
    }
}

fn append_walk(out: &mut Vec<u8>, preds: &[Pred], mark: &[u8], walk: Walk) -> Result<(), AllocError>
    ensures { OnOk result
        (out.new.items ≡ out.old.items ++ walk_text (map pred_of preds.now) mark.now (walk_of walk)) }
{
    append_atom(out, preds, walk.pred, mark, Terms::Two(walk.from, walk.to))
}

/// Appends the formula, in parentheses where it binds less tightly than that.
#[cycle(formula)]
fn append_within(
    out: &mut Vec<u8>,
    preds: &[Pred],
    bound: u8,
    f: &Formula,
) -> Result<(), AllocError>
    ensures { OnOk result (out.new.items ≡ out.old.items ++ within_text bound (tightness (form_of f.now))
        (form_text (map pred_of preds.now) (form_of f.now))) }
{
    if tightness(f) >= bound {
        return append_formula(out, preds, f);
    }
    out.extend_from_slice(b"(")?;
    append_formula(out, preds, f)?;
    out.extend_from_slice(b")")
}

#[cycle(formula)]
fn append_both(
    out: &mut Vec<u8>,
    preds: &[Pred],
    bound: u8,
    f: &Formula,
    mark: &[u8],
    g: &Formula,
) -> Result<(), AllocError>
    requires { bound ≤ 3 }
    ensures { OnOk result (out.new.items ≡ out.old.items ++ both_text bound mark.now
        (tightness (form_of f.now)) (form_text (map pred_of preds.now) (form_of f.now))
        (tightness (form_of g.now)) (form_text (map pred_of preds.now) (form_of g.now))) }
{
    append_within(out, preds, bound, f)?;
    out.extend_from_slice(mark)?;
    append_within(out, preds, bound + 1, g)
}

#[cycle(formula)]
fn append_either(
    out: &mut Vec<u8>,
    preds: &[Pred],
    f: &Formula,
    g: &Formula,
) -> Result<(), AllocError>
    ensures { OnOk result (out.new.items
        ≡ out.old.items ++ form_text (map pred_of preds.now) (FOr (form_of f.now) (form_of g.now))) }
{
    match any_walk(f, g) {
        Some(walk) => append_walk(out, preds, b"*", walk),
        None => append_both(out, preds, 2, f, b" | ", g),
    }
}

#[cycle(formula)]
fn append_choice(
    out: &mut Vec<u8>,
    preds: &[Pred],
    test: &Formula,
    yes: &Formula,
    otherwise: &Formula,
) -> Result<(), AllocError>
    ensures { OnOk result (out.new.items ≡ out.old.items ++ form_text (map pred_of preds.now)
        (FCond (form_of test.now) (form_of yes.now) (form_of otherwise.now))) }
{
    append_within(out, preds, 1, test)?;
    out.extend_from_slice(b" ? ")?;
    append_formula(out, preds, yes)?;
    out.extend_from_slice(b" : ")?;
    append_formula(out, preds, otherwise)
}

#[cycle(formula)]
fn append_quantified(
    out: &mut Vec<u8>,
    preds: &[Pred],
    mark: &[u8],
    v: Var,
    f: &Formula,
) -> Result<(), AllocError>
    ensures { OnOk result (out.new.items ≡ out.old.items ++ (mark.now
        ++ (terms_text (v.0 ∷ []) ++ (codes " " ++ form_text (map pred_of preds.now) (form_of f.now))))) }
{
    out.extend_from_slice(mark)?;
    append_terms(out, Terms::One(v))?;
    out.extend_from_slice(b" ")?;
    append_formula(out, preds, f)
}

fn append_closure_head(
    out: &mut Vec<u8>,
    from: Var,
    to: Var,
    left: Var,
    right: Var,
) -> Result<(), AllocError>
    ensures { OnOk result (out.new.items ≡ out.old.items ++ (codes "TC"
        ++ (terms_text (from.0 ∷ to.0 ∷ []) ++ (terms_text (left.0 ∷ right.0 ∷ []) ++ codes " ")))) }
{
    out.extend_from_slice(b"TC")?;
    append_terms(out, Terms::Two(from, to))?;
    append_terms(out, Terms::Two(left, right))?;
    out.extend_from_slice(b" ")
}

#[cycle(formula)]
fn append_negation(out: &mut Vec<u8>, preds: &[Pred], f: &Formula) -> Result<(), AllocError>
    ensures { OnOk result
        (out.new.items ≡ out.old.items ++ form_text (map pred_of preds.now) (FNot (form_of f.now))) }
{
    out.extend_from_slice(b"!")?;
    append_within(out, preds, 4, f)
}

/// Appends a formula. Calls nest as deep as the formula is high.
#[cycle(formula)]
pub fn append_formula(out: &mut Vec<u8>, preds: &[Pred], f: &Formula) -> Result<(), AllocError>
    ensures { OnOk result
        (out.new.items ≡ out.old.items ++ form_text (map pred_of preds.now) (form_of f.now)) }
{
    match f {
        Formula::Zero => out.extend_from_slice(b"0"),
        Formula::One => out.extend_from_slice(b"1"),
        Formula::Atom(p, terms) => append_atom(out, preds, *p, b"", *terms),
        Formula::IsNew(v) => {
            out.extend_from_slice(b"isNew")?;
            append_terms(out, Terms::One(*v))
        }
        Formula::Same(v, w) => append_equality(out, *v, b" == ", *w),
        Formula::Not(g) => append_negation(out, preds, g),
        Formula::And(g, h) => append_both(out, preds, 3, g, b" & ", h),
        Formula::Or(g, h) => append_either(out, preds, g, h),
        Formula::Iff(g, h) => append_both(out, preds, 1, g, b" <-> ", h),
        Formula::Cond(c, g, h) => append_choice(out, preds, c, g, h),
        Formula::Exists(v, g) => append_quantified(out, preds, b"E", *v, g),
        Formula::Forall(v, g) => append_quantified(out, preds, b"A", *v, g),
        Formula::Closure {
            from,
            to,
            left,
            right,
            body,
        } => match some_walk(f) {
            Some(walk) => append_walk(out, preds, b"+", walk),
            None => {
                append_closure_head(out, *from, *to, *left, *right)?;
                append_formula(out, preds, body)
            }
        },
    }
}
