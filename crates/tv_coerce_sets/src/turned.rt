//! Which definite values of a predicate came and went, from one structure to another over the same
//! individuals.

ghost use Rattle.std.specs.Prelude.{ℕ, ◌≡◌, ◌≢◌, ◌<◌, ◌≤◌, ◌⊎◌, ◌∷◌, [], length, slice_index_or, IsTrue};
ghost use Rattle.std.specs.Prelude.{MatchBool};
ghost use Rattle.tv_kleene.specs.declared.K3.{K3};
ghost use Rattle.tv_kleene.specs.declared.K3.TheVariants.{No, Yes};
ghost use Rattle.tv_structure_form.specs.StructureForm.{arities_of, value_at};
ghost use Rattle.tv_struct.specs.StructureRows.{HasArity};
ghost use Rattle.tv_coerce_sets.specs.Turned.{HasTurned, Tells};

use tv_eval::places;
use tv_kleene::K3;
use tv_model::PredId;
use tv_row::Word;
use tv_struct::{Structure, Tuple};

/// Which definite values came, and which went: a flag is set where one came or went, and may be set where
/// none did.
#[derive(Clone, Copy, Debug)]
pub struct Turned {
    pub to_yes: bool,
    pub to_no: bool,
    pub from_yes: bool,
    pub from_no: bool,
}

impl Turned {
    /// None came or went.
    #[inline(always)]
    pub fn nothing() -> Turned
        ensures { (x : K3) → Tells result x x }
    {
        Turned {
            to_yes: false,
            to_no: false,
            from_yes: false,
            from_no: false,
        }
    }

    /// Whether none came or went.
    #[inline(always)]
    pub fn is_nothing(self) -> bool
        ensures { IsTrue result → (x y : K3) → Tells self x y → x ≡ y }
    {
        !self.to_yes && !self.to_no && !self.from_yes && !self.from_no
    }

    /// What came or went here or there.
    #[inline(always)]
    fn or(self, other: Turned) -> Turned
        ensures here { (x y : K3) → Tells self x y → Tells result x y }
        ensures there { (x y : K3) → Tells other x y → Tells result x y }
    {
        Turned {
            to_yes: self.to_yes || other.to_yes,
            to_no: self.to_no || other.to_no,
            from_yes: self.from_yes || other.from_yes,
            from_no: self.from_no || other.from_no,
        }
    }
}

/// True only where the words have the same values.
#[inline(always)]
fn are_equal(word: Word, other: Word) -> bool
    ensures { IsTrue result → word ≡ other }
{
    word == other
}

fn is_yes(k: K3) -> bool
    ensures { MatchBool result (k ≡ Yes) (k ≢ Yes) }
{
    k == K3::Yes
}

/// Whether one of the first `n` values became `Yes`.
#[inline(always)]
fn has_new_yes(n: u32, before: Word, now: Word) -> bool
    requires few { n ≤ 64 }
    requires before { length before ≡ 64 }
    requires now { length now ≡ 64 }
    ensures { IsTrue result ⊎ ((i : ℕ) → i < n → slice_index_or now i No ≡ Yes
        → slice_index_or before i No ≡ Yes) }
{
    is_yes(now.unless_no(before.not(n)).greatest())
}

/// Whether one of the first `n` values became `No`.
#[inline(always)]
fn has_new_no(n: u32, before: Word, now: Word) -> bool
    requires few { n ≤ 64 }
    requires before { length before ≡ 64 }
    requires now { length now ≡ 64 }
    ensures { IsTrue result ⊎ ((i : ℕ) → i < n → slice_index_or now i No ≡ No
        → slice_index_or before i No ≡ No) }
{
    is_yes(now.not(n).unless_no(before).greatest())
}

/// What the first `n` values became.
#[inline(always)]
fn turned_word(n: u32, before: Word, now: Word) -> Turned
    requires few { n ≤ 64 }
    requires before { length before ≡ 64 }
    requires now { length now ≡ 64 }
    ensures { (i : ℕ) → i < n → Tells result (slice_index_or before i No) (slice_index_or now i No) }
{
    Turned {
        to_yes: has_new_yes(n, before, now),
        to_no: has_new_no(n, before, now),
        from_yes: has_new_yes(n, now, before),
        from_no: has_new_no(n, now, before),
    }
}

/// The same beside what became of others: most words have the values that they had.
#[inline(always)]
fn with_word(turned: Turned, n: u32, before: Word, now: Word) -> Turned
    requires few { n ≤ 64 }
    requires before { length before ≡ 64 }
    requires now { length now ≡ 64 }
    ensures here { (i : ℕ) → i < n → Tells result (slice_index_or before i No) (slice_index_or now i No) }
    ensures there { (x y : K3) → Tells turned x y → Tells result x y }
{
    if are_equal(before, now) {
        return turned;
    }
    turned.or(turned_word(n, before, now))
}

/// What a value became.
fn turned_value(before: K3, now: K3) -> Turned
    ensures { Tells result before now }
{
    Turned {
        to_yes: now == K3::Yes && before != K3::Yes,
        to_no: now == K3::No && before != K3::No,
        from_yes: before == K3::Yes && now != K3::Yes,
        from_no: before == K3::No && now != K3::No,
    }
}

/// What the values of the unary predicate became.
#[inline(always)]
fn turned_row(s: &Structure, t: &Structure, p: PredId) -> Turned
    requires size { s.now.size ≡ t.now.size }
    requires over { arities_of s.now ≡ arities_of t.now }
    requires one { HasArity s.now p.0 1 }
    requires other { HasArity t.now p.0 1 }
    ensures { HasTurned result p.0 s.now t.now }
{
    let mut turned = Turned::nothing();
    for chunk in 0..s.size().div_ceil(64) {
        let n = places(s.size(), chunk);
        turned = with_word(turned, n, s.unary_word(p, chunk), t.unary_word(p, chunk));
    }
    turned
}

/// What the values of the binary predicate became at the pairs with first member `u`, beside what became of
/// others.
#[inline(always)]
fn turned_at(s: &Structure, t: &Structure, p: PredId, u: u32, others: Turned) -> Turned
    requires size { s.now.size ≡ t.now.size }
    requires over { arities_of s.now ≡ arities_of t.now }
    requires one { HasArity s.now p.0 2 }
    requires other { HasArity t.now p.0 2 }
    requires individual { u < s.now.size }
    ensures here { (w : ℕ) → w < s.now.size
        → Tells result (value_at s.now p.0 (u ∷ w ∷ [])) (value_at t.now p.0 (u ∷ w ∷ [])) }
    ensures there { (x y : K3) → Tells others x y → Tells result x y }
{
    let mut turned = others;
    for chunk in 0..s.size().div_ceil(64) {
        let n = places(s.size(), chunk);
        turned = with_word(turned, n, s.word(p, u, chunk), t.word(p, u, chunk));
    }
    turned
}

/// What the values of the binary predicate became.
fn turned_rows(s: &Structure, t: &Structure, p: PredId) -> Turned
    requires size { s.now.size ≡ t.now.size }
    requires over { arities_of s.now ≡ arities_of t.now }
    requires one { HasArity s.now p.0 2 }
    requires other { HasArity t.now p.0 2 }
    ensures { HasTurned result p.0 s.now t.now }
{
    let mut turned = Turned::nothing();
    for u in 0..s.size() {
        turned = turned_at(s, t, p, u, turned);
    }
    turned
}

/// What the predicate's values became. What is no predicate of theirs has none.
pub fn turned_values(s: &Structure, t: &Structure, p: PredId) -> Turned
    requires size { s.now.size ≡ t.now.size }
    requires over { arities_of s.now ≡ arities_of t.now }
    ensures { HasTurned result p.0 s.now t.now }
{
    if p.0 >= s.pred_count() {
        return Turned::nothing();
    }
    match s.arity(p) {
        0 => turned_value(s.get(p, Tuple::Zero), t.get(p, Tuple::Zero)),
        1 => turned_row(s, t, p),
        _ => turned_rows(s, t, p),
    }
}
