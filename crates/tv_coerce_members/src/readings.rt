//! How a literal is read off a structure for the individuals that one variable may stand for.

ghost use Rattle.std.specs.Prelude.{◌≡◌, [], ◌∷◌};
ghost use Rattle.tv_model.specs.Form.{form_of, vars_of, FAtom, FSame};
ghost use Rattle.tv_coerce_members.specs.Members.{IsReadAs, is_literal, is_positive, signed};

use tv_model::{Formula, PredId, Terms, Var};

/// How the values of a formula for the individuals that a variable may stand for are read.
#[derive(Clone, Copy, Debug, PartialEq, Eq)]
pub enum Reading {
    /// The unary predicate of them, negated where the flag is false.
    Alone(bool, PredId),
    /// The binary predicate of what the other variable stands for, and of them.
    Second(bool, PredId, Var),
    /// The binary predicate of them, and of what the other variable stands for.
    First(bool, PredId, Var),
    /// Whether they are what the other variable stands for.
    Same(bool, Var),
    /// As the formula says.
    Other,
}

/// How the formula is read along the variable.
pub(crate) fn reading_of(f: &Formula, v: Var) -> Reading
    ensures { IsReadAs v.0 result (form_of f.now) }
{
    match f {
        Formula::Not(g) => literal_reading(false, g, v),
        _ => literal_reading(true, f, v),
    }
}

fn literal_reading(flag: bool, f: &Formula, v: Var) -> Reading
    ensures { IsReadAs v.0 result (signed flag (form_of f.now)) }
{
    match f {
        Formula::Atom(p, terms) => atom_reading(flag, *p, *terms, v),
        Formula::Same(x, y) => same_reading(flag, *x, *y, v),
        _ => Reading::Other,
    }
}

fn same_reading(flag: bool, x: Var, y: Var, v: Var) -> Reading
    ensures { IsReadAs v.0 result (signed flag (FSame x.0 y.0)) }
{
    if x.0 == v.0 && y.0 != v.0 {
        return Reading::Same(flag, y);
    }
    if y.0 == v.0 && x.0 != v.0 {
        return Reading::Same(flag, x);
    }
    Reading::Other
}

fn atom_reading(flag: bool, p: PredId, terms: Terms, v: Var) -> Reading
    ensures { IsReadAs v.0 result (signed flag (FAtom p.0 (vars_of terms))) }
{
    match terms {
        Terms::Zero => Reading::Other,
        Terms::One(x) => {
            if x.0 == v.0 {
                Reading::Alone(flag, p)
            } else {
                Reading::Other
            }
        }
        Terms::Two(x, y) => pair_reading(flag, p, x, y, v),
    }
}

fn pair_reading(flag: bool, p: PredId, x: Var, y: Var, v: Var) -> Reading
    ensures { IsReadAs v.0 result (signed flag (FAtom p.0 (x.0 ∷ y.0 ∷ []))) }
{
    if x.0 == v.0 && y.0 != v.0 {
        return Reading::First(flag, p, y);
    }
    if y.0 == v.0 && x.0 != v.0 {
        return Reading::Second(flag, p, x);
    }
    Reading::Other
}

/// Whether the formula is an atom or an equality, or the negation of one.
pub(crate) fn is_literal(f: &Formula) -> bool
    ensures { result ≡ is_literal (form_of f.now) }
{
    match f {
        Formula::Not(g) => is_positive(g),
        _ => is_positive(f),
    }
}

fn is_positive(f: &Formula) -> bool
    ensures { result ≡ is_positive (form_of f.now) }
{
    matches!(f, Formula::Atom(_, _) | Formula::Same(_, _))
}
