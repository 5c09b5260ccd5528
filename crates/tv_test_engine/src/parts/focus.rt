//! Rows of focus.

ghost use Rattle.std.specs.Prelude.{◌≡◌, ◌<◌, ◌≤◌, [], ◌∷◌, IfOk};
ghost use Rattle.tv_model.specs.Form.{form_of};
ghost use Rattle.tv_model.specs.Valid.{IsFormulaOver};
ghost use Rattle.tv_structure_form.specs.StructureForm.{arities_of};

use super::shown::{shown, vocabulary};
use std::alloc::{AllocError, Global};
use std::cmp::Ordering;
use std::test::Fail;
use tv_focus::{atom_count, focus_stage, formulas_have_atoms_over};
use tv_model::{Formula, PredId, Terms, Var};
use tv_struct::{StageError, Structure, Structures};

/// The formulas of the rows.
#[derive(Clone, Copy, Debug)]
enum Focus {
    /// `b()`
    Nullary,
    /// `x(v)`
    Unary,
    /// `x(v) & n(v, w)`
    Behind,
    /// `x(w) & n(v, w)`
    Before,
    /// `(x(v) & y(w)) & n(v, w)`
    Both,
    /// `n(v, w)`
    Unanchored,
    /// `(x(v) & n(v, w)) & n(w, u)`
    Chain,
    /// `(n(v, w) & y(w)) & x(w)`
    First,
    /// `x(v) & n(v, v)`
    Loop,
    /// `x(v) & TC (v, w) (u, t) n(u, t)`
    Closed,
    /// `x(v) & v == w`
    Equal,
    /// `x(v) & isNew(v)`
    New,
}

fn unary(p: u32, v: u8) -> Formula
    requires predicate { (1 ≤ p) }
    requires unary { p < 4 }
    requires variable { v < 32 }
    ensures { IsFormulaOver (0 ∷ 1 ∷ 1 ∷ 1 ∷ 2 ∷ []) (form_of result) }
{
    Formula::Atom(PredId(p), Terms::One(Var(v)))
}

fn edge(v: u8, w: u8) -> Formula
    requires source { v < 32 }
    requires target { w < 32 }
    ensures { IsFormulaOver (0 ∷ 1 ∷ 1 ∷ 1 ∷ 2 ∷ []) (form_of result) }
{
    Formula::Atom(PredId(4), Terms::Two(Var(v), Var(w)))
}

fn both(alloc: Global, f: Formula, g: Formula) -> Result<Formula, AllocError>
    requires first { IsFormulaOver (0 ∷ 1 ∷ 1 ∷ 1 ∷ 2 ∷ []) (form_of f) }
    requires second { IsFormulaOver (0 ∷ 1 ∷ 1 ∷ 1 ∷ 2 ∷ []) (form_of g) }
    ensures { IfOk result (λ f. IsFormulaOver (0 ∷ 1 ∷ 1 ∷ 1 ∷ 2 ∷ []) (form_of f)) }
{
    Ok(Formula::And(Box::new(alloc, f)?, Box::new(alloc, g)?))
}

fn closure(alloc: Global) -> Result<Formula, AllocError>
    ensures { IfOk result (λ f. IsFormulaOver (0 ∷ 1 ∷ 1 ∷ 1 ∷ 2 ∷ []) (form_of f)) }
{
    Ok(Formula::Closure {
        from: Var(0),
        to: Var(1),
        left: Var(2),
        right: Var(3),
        body: Box::new(alloc, edge(2, 3))?,
    })
}

fn formula(alloc: Global, focus: Focus) -> Result<Formula, AllocError>
    ensures { IfOk result (λ f. IsFormulaOver (0 ∷ 1 ∷ 1 ∷ 1 ∷ 2 ∷ []) (form_of f)) }
{
    match focus {
        Focus::Nullary => Ok(Formula::Atom(PredId(0), Terms::Zero)),
        Focus::Unary => Ok(unary(1, 0)),
        Focus::Behind => both(alloc, unary(1, 0), edge(0, 1)),
        Focus::Before => both(alloc, unary(1, 1), edge(0, 1)),
        Focus::Both => both(alloc, both(alloc, unary(1, 0), unary(2, 1))?, edge(0, 1)),
        Focus::Chain => both(alloc, both(alloc, unary(1, 0), edge(0, 1))?, edge(1, 2)),
        Focus::First => both(alloc, both(alloc, edge(0, 1), unary(2, 1))?, unary(1, 1)),
        Focus::Unanchored => Ok(edge(0, 1)),
        Focus::Loop => both(alloc, unary(1, 0), edge(0, 0)),
        Focus::Closed => both(alloc, unary(1, 0), closure(alloc)?),
        Focus::Equal => both(alloc, unary(1, 0), Formula::Same(Var(0), Var(1))),
        Focus::New => both(alloc, unary(1, 0), Formula::IsNew(Var(0))),
    }
}

/// The structures of an atom of the formula; none where it has no such atom.
fn focused(
    alloc: Global,
    focus: Focus,
    atom: usize,
    s: &Structure,
) -> Result<Structures, StageError>
    requires { arities_of s.now ≡ 0 ∷ 1 ∷ 1 ∷ 1 ∷ 2 ∷ [] }
{
    let f = formula(alloc, focus)?;
    let vocab = vocabulary(alloc)?;
    if atom >= atom_count(&f) {
        return Ok(Structures::new(alloc));
    }
    formulas_have_atoms_over();
    focus_stage(alloc, &vocab, &f, atom, s)
}

/// How many focus atoms a formula has: none is under a closure, and equalities and `isNew` are none.
const COUNTS: [(Focus, usize); 12] = [
    (Focus::Nullary, 1),
    (Focus::Unary, 1),
    (Focus::Behind, 2),
    (Focus::Before, 2),
    (Focus::Both, 3),
    (Focus::Unanchored, 1),
    (Focus::Chain, 3),
    (Focus::First, 3),
    (Focus::Loop, 2),
    (Focus::Closed, 1),
    (Focus::Equal, 1),
    (Focus::New, 1),
];

fn count_of(alloc: Global, focus: Focus) -> Result<usize, AllocError> {
    Ok(atom_count(&formula(alloc, focus)?))
}

#[test]
fn atoms_are_counted(rt: HostRuntime) -> Result<(), Fail> {
    for (focus, count) in COUNTS {
        assert!(rt; count_of(rt.alloc(), focus)? == count, "{focus:?}");
    }
    Ok(())
}

/// Structures, and those of an atom's choices. False and true.
const NULLARY: &str = "?; 0, 1
1; 1
? s?00?; 0 s?00?, 1 s?00?";

/// A summary: all of its cells without `x`, all with `x`, or some of each.
const UNARY: &str = "0 s?00?; 0 s000?, 0 s100?, 0 s000?? s100??
0 -?001; 0 -0001, 0 -1001
0 s100?; 0 s100?";

/// From the one individual at which `v` surely stands to all others; from each of two, in vectors of two
/// places; and from none, where nothing surely has `x`.
const BEHIND: &str = "0 -1000? s000??; 0 -10000 s000??, 0 -10001 s000??, 0 -100001 s000??? s000???
0 -10000? -10000? -000000; 0 -100000 -100000 -000000, 0 -100000 -100001 -000000, \
0 -100001 -100000 -000000, 0 -100001 -100001 -000000
0 -?000? s100??; 0 -?000? s100??";

/// A summary that two individuals may lead to: one vector of two values, two of them, three, all four, those
/// of one number in lexicographic order.
const TWO_PLACES: &str = "0 -10000? -10000? s000000; 0 -100000 -100000 s000000, \
0 -100000 -100001 s000000, 0 -100001 -100000 s000000, 0 -100001 -100001 s000000, \
0 -1000000 -1000001 s0000000 s0000000, 0 -1000001 -1000000 s0000000 s0000000, \
0 -1000001 -1000001 s0000000 s0000000, 0 -1000001 -1000010 s0000000 s0000000, \
0 -1000001 -1000011 s0000000 s0000000, 0 -1000011 -1000001 s0000000 s0000000, \
0 -10000001 -10000010 s00000000 s00000000 s00000000, \
0 -10000001 -10000011 s00000000 s00000000 s00000000, \
0 -10000011 -10000001 s00000000 s00000000 s00000000, \
0 -10000011 -10000101 s00000000 s00000000 s00000000, \
0 -100000011 -100000101 s000000000 s000000000 s000000000 s000000000";

/// To the one individual at which `w` surely stands.
const BEFORE: &str = "0 -10000 s000??; 0 -10000 s0000?, 0 -10000 s0001?, 0 -100000 s0000?? s0001??";

/// `v` was given its individual first; what isn't behind it stays unknown. It was given none first.
const BOTH: &str = "0 -1000? -0100?; 0 -10000 -0100?, 0 -10001 -0100?
0 -0000? -0100?; 0 -0000? -0100?";

/// `w` was given the ordinary one of the two behind `x`.
const CHAIN: &str =
    "0 -100011 -00000? s000000; 0 -100011 -000000 s000000, 0 -100011 -000001 s000000, \
0 -1000111 -0000001 s0000000 s0000000";

/// `w` has the ordinary individual of `y`, though `x` comes later and `n` earlier.
const FIRST: &str =
    "0 -100010 -0100?0 s010010; 0 -100010 -010000 s010010, 0 -100010 -010010 s010010";

/// No anchor, or one variable twice.
const PASSED_OVER: &str = "0 -100?; 0 -100?
0 s100?; 0 s100?";

/// The unary atom beside what is no atom.
const BESIDE: &str = "0 -?00?; 0 -000?, 0 -100?
0 -100?; 0 -100?";

/// A formula, the number of an atom, and its rows.
const ROWS: [(Focus, usize, &str); 13] = [
    (Focus::Nullary, 0, NULLARY),
    (Focus::Unary, 0, UNARY),
    (Focus::Behind, 1, BEHIND),
    (Focus::Behind, 1, TWO_PLACES),
    (Focus::Before, 1, BEFORE),
    (Focus::Both, 2, BOTH),
    (Focus::Chain, 2, CHAIN),
    (Focus::First, 0, FIRST),
    (Focus::Unanchored, 0, PASSED_OVER),
    (Focus::Loop, 1, PASSED_OVER),
    (Focus::Closed, 0, BESIDE),
    (Focus::Equal, 0, BESIDE),
    (Focus::New, 0, BESIDE),
];

/// Whether the structures are those of the texts, in order.
fn are_shown(alloc: Global, found: &[Structure], texts: &str) -> Result<bool, AllocError> {
    let mut rest = found;
    for text in texts.split(", ") {
        match rest {
            [] => return Ok(false),
            [t, others @ ..] => {
                if t.compare(&shown(alloc, text)?) != Ordering::Equal {
                    return Ok(false);
                }
                rest = others;
            }
        }
    }
    Ok(rest.is_empty())
}

/// Whether focus gives a row's structures.
fn is_met(alloc: Global, focus: Focus, atom: usize, row: &str) -> Result<bool, Fail> {
    let (text, choices) = row.split_once("; ").ok_or("no row")?;
    let found = focused(alloc, focus, atom, &shown(alloc, text)?)?;
    Ok(are_shown(alloc, found.as_slice(), choices)?)
}

#[test]
fn atoms_become_definite(rt: HostRuntime) -> Result<(), Fail> {
    for (focus, atom, rows) in ROWS {
        for row in rows.lines() {
            assert!(rt; is_met(rt.alloc(), focus, atom, row)?, "{focus:?}: {row}");
        }
    }
    Ok(())
}
