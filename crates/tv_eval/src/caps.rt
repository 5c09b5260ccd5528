//! Which individuals can't make a formula true (or false), whatever some of its variables stand for.

ghost use Rattle.std.specs.Prelude.{ℕ, ◌<◌, ◌*◌};
ghost use Rattle.tv_model.specs.Form.{form_of, IsFree};
ghost use Rattle.tv_model.specs.Valid.{IsFormulaOver};
ghost use Rattle.tv_structure_form.specs.StructureForm.{arities_of};
ghost use Rattle.tv_quantifiers.specs.Sets.{IsOutside};
ghost use Rattle.tv_eval.specs.AssignmentForm.{assignment_of};
ghost use Rattle.tv_eval.specs.Caps.{AreSeen, IsCapRow, IsCapWord, IsRuledOut};

use crate::Assignment;
use crate::leaf_words::{chunks, literal_word, places};
use tv_kleene::K3;
use tv_model::{Formula, Var};
use tv_quantifiers::{Quantifier, Variables, is_literal_without};
use tv_row::{Row, Word};
use tv_struct::Structure;

/// For the individuals from `64 * chunk` on, put for `w`, values that are `No` only where the formula's,
/// negated for "for all", is `No` whatever the hidden variables stand for. Of its conjuncts (of its disjuncts
/// for "for all") literals without a hidden variable count.
pub fn cap_word(
    q: Quantifier,
    f: &Formula,
    hidden: Variables,
    w: Var,
    chunk: u32,
    s: &Structure,
    a: &Assignment,
) -> Word
    requires formula { IsFormulaOver (arities_of s.now) (form_of f.now) }
    requires variable { w.0 < 32 }
    requires seen { AreSeen s.now.size a.now hidden w.0 (form_of f.now) }
    requires chunk { 64 * chunk < s.now.size }
    ensures { IsCapWord s.now.size chunk
        (IsRuledOut s.now (assignment_of a.now) hidden w.0 q (form_of f.now)) result }
{
    let mut caps = Word::of(64, K3::Yes);
    let mut inner = hidden;
    let mut side = q;
    let mut part = f;
    loop {
        match (side, part) {
            (_, Formula::Not(g)) => {
                side = side.other();
                part = g;
            }
            (Quantifier::Exists, Formula::And(g, h)) | (Quantifier::Forall, Formula::Or(g, h)) => {
                caps = caps.and(leaf_cap(side, h, &inner, w, chunk, s, a));
                part = g;
            }
            (Quantifier::Exists, Formula::Exists(y, g))
            | (Quantifier::Forall, Formula::Forall(y, g)) => {
                if y.0 == w.0 {
                    return caps;
                }
                inner = inner.with(*y);
                part = g;
            }
            _ => return caps.and(leaf_cap(side, part, &inner, w, chunk, s, a)),
        }
    }
}

/// The same for a literal, and `Yes` everywhere for another formula, or where it has a hidden variable.
#[inline(always)]
fn leaf_cap(
    q: Quantifier,
    f: &Formula,
    hidden: &Variables,
    w: Var,
    chunk: u32,
    s: &Structure,
    a: &Assignment,
) -> Word
    requires formula { IsFormulaOver (arities_of s.now) (form_of f.now) }
    requires variable { w.0 < 32 }
    requires seen { AreSeen s.now.size a.now hidden.now w.0 (form_of f.now) }
    requires chunk { 64 * chunk < s.now.size }
    ensures { IsCapWord s.now.size chunk
        (IsRuledOut s.now (assignment_of a.now) hidden.now w.0 q (form_of f.now)) result }
{
    if !is_literal_without(f, hidden) {
        return Word::of(64, K3::Yes);
    }
    literal_cap(q, f, hidden, w, chunk, s, a)
}

/// The same for a formula without a hidden variable.
#[inline(never)]
fn literal_cap(
    q: Quantifier,
    f: &Formula,
    hidden: &Variables,
    w: Var,
    chunk: u32,
    s: &Structure,
    a: &Assignment,
) -> Word
    requires formula { IsFormulaOver (arities_of s.now) (form_of f.now) }
    requires variable { w.0 < 32 }
    requires seen { AreSeen s.now.size a.now hidden.now w.0 (form_of f.now) }
    requires without { (v : ℕ) → IsFree v (form_of f.now) → IsOutside hidden.now v }
    requires chunk { 64 * chunk < s.now.size }
    ensures { IsCapWord s.now.size chunk
        (IsRuledOut s.now (assignment_of a.now) hidden.now w.0 q (form_of f.now)) result }
{
    match literal_word(f, w, chunk, s, a) {
        None => Word::of(64, K3::Yes),
        Some(word) => q.turned_word(word, places(s.size(), chunk)),
    }
}

/// The same for all individuals.
pub fn cap_row(
    q: Quantifier,
    f: &Formula,
    hidden: Variables,
    w: Var,
    s: &Structure,
    a: &Assignment,
) -> Row
    requires formula { IsFormulaOver (arities_of s.now) (form_of f.now) }
    requires variable { w.0 < 32 }
    requires seen { AreSeen s.now.size a.now hidden w.0 (form_of f.now) }
    ensures { IsCapRow s.now.size
        (IsRuledOut s.now (assignment_of a.now) hidden w.0 q (form_of f.now)) result }
{
    let mut caps = Row::of(s.size(), K3::No);
    for chunk in 0..chunks(s.size()) {
        caps.put_word(chunk, cap_word(q, f, hidden, w, chunk, s, a));
    }
    caps
}
