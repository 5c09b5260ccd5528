//! The members of a base rule are counted by words of values.

ghost use Rattle.std.specs.Prelude.{◌≡◌, ◌≢◌, ◌<◌, ◌*◌, ℕ, Bool, List, Option, Some, All, IfSome, length};
ghost use Rattle.std.specs.Prelude.{replicate};
ghost use Rattle.std.specs.Prelude.{slice_get, slice_index_or};
ghost use Rattle.tv_kleene.specs.declared.K3.{K3};
ghost use Rattle.tv_eval.specs.Along.{IsWordOf};
ghost use Rattle.tv_eval.specs.AssignmentForm.{assignment_of};
ghost use Rattle.tv_eval.specs.Bound.{bound_structure, bound_room};
ghost use Rattle.tv_eval.specs.ScratchForm.{ScratchForm};
ghost use Rattle.tv_coerce_members.specs.Members.{AreSteps, MemberForm};
ghost use Rattle.tv_kleene.specs.declared.K3.TheVariants.{No, Half, Yes};
ghost use Rattle.tv_row.specs.Bits.{padded, paired, yes_unless_no};
ghost use Rattle.tv_eval_laws.specs.Value.{value};
ghost use Rattle.tv_model.specs.Truth.{put, Assignment as Individuals};
ghost use Rattle.tv_structure_form.specs.StructureForm.{structure_of};
ghost use Rattle.tv_coerce.specs.Counting.{CanRead, IsBarring, IsCounted, counted, signed_value};
ghost use Rattle.tv_coerce.specs.CountedWords.{AreCounted, CanReadAlong, IsAlong, IsCountedAt, IsCountedWith};
ghost use Rattle.tv_coerce.specs.CountedWords.{IsReadAlong, members_along, structure_along};

use crate::need::at;
use crate::trial::{Span, Trial, is_no};
use tv_coerce_members::{Reading, Step};
use tv_eval::{Assignment, Evaluator, places, same_as};
use tv_kleene::K3;
use tv_model::Var;
use tv_row::Word;
use tv_struct::Structure;

/// The values, negated where the flag is false.
#[inline(always)]
pub(crate) fn signed(s: &Structure, flag: bool, word: Word, chunk: u32) -> Word
    requires { 64 * chunk < s.now.size }
    ensures { (g : ℕ → K3) → IsWordOf s.now.size chunk g word
        → IsWordOf s.now.size chunk (λ u. signed_value flag (g u)) result }
{
    if flag {
        word
    } else {
        word.not(places(s.size(), chunk))
    }
}

/// Of so many individuals each is valued by itself.
const FEW: usize = 3;

/// Whether the word leaves few individuals. A hint, of which nothing is promised.
fn has_few(word: Word) -> bool {
    let mut from = 0;
    for _ in 0..FEW {
        match word.first_possible(from) {
            None => return true,
            Some(i) => from = i + 1,
        }
    }
    word.first_possible(from).is_none()
}

/// How the values count together.
#[inline(always)]
pub(crate) fn counted(word: Word, values: Word) -> Word
    ensures { result ≡ paired counted word values }
{
    let both = word.and(values);
    word.or(values).unless_no(both).and(both)
}

/// Along what members are counted: a variable, some of whose individuals have the values of a word, with what
/// the other variables of a trial stand for.
#[derive(Clone, Copy)]
pub(crate) struct Along<'t, 'p, 'a, 'n> {
    pub trial: &'t Trial<'a, 'n>,
    pub a: &'p Assignment,
    pub span: Span,
}

impl<'t, 'p, 'a, 'n> Along<'t, 'p, 'a, 'n> {
    /// The values of the step's member for the individuals from `64 * chunk` on, at most 64, put for the
    /// variable, as far as the word doesn't rule them out.
    #[inline(always)]
    fn read(&self, evaluator: &mut Evaluator<'_, 'a>, step: &Step, word: Word) -> Word
        requires along { IsAlong self.now evaluator.old word }
        requires can { CanReadAlong self.now (bound_room evaluator.old) step.now }
        ensures word { (m : MemberForm) → slice_get (members_along self.now) step.now.member ≡ Some m
            → IsReadAlong self.now m word result }
        ensures same { evaluator.new ≡ evaluator.old }
    {
        let s = self.trial.structure;
        let a = self.a;
        let chunk = self.span.chunk;
        match &step.reading {
            Reading::Alone(flag, p) => signed(s, *flag, s.unary_word(*p, chunk), chunk),
            Reading::Second(flag, p, x) => signed(s, *flag, s.word(*p, at(a, *x), chunk), chunk),
            Reading::First(flag, p, x) => signed(
                s,
                *flag,
                s.column_word(*p, at(a, *x), chunk),
                chunk,
            ),
            Reading::Same(flag, x) => signed(s, *flag, same_as(at(a, *x), chunk, s), chunk),
            Reading::Other => {
                if step.literal || !has_few(word) {
                    let members = self.trial.shape.members.as_slice();
                    evaluator.word(&members[step.member].formula, self.span.v, chunk, self.a)
                } else {
                    self.read_each(evaluator, step, word)
                }
            }
        }
    }

    /// The value of the step's member for each individual that the word doesn't rule out.
    #[inline(never)]
    fn read_each(&self, evaluator: &mut Evaluator<'_, 'a>, step: &Step, word: Word) -> Word
        requires along { IsAlong self.now evaluator.old word }
        requires can { CanReadAlong self.now (bound_room evaluator.old) step.now }
        ensures word { (m : MemberForm) → slice_get (members_along self.now) step.now.member ≡ Some m
            → IsReadAlong self.now m word result }
        ensures same { evaluator.new ≡ evaluator.old }
    {
        let _ = self.trial.structure.size();
        let mut values = word;
        let mut from = 0;
        while let Some(i) = word.first_possible(from) {
            let k = self.value_with(evaluator, step, 64 * self.span.chunk + i);
            values = values.with(i, k);
            from = i + 1;
        }
        values
    }

    /// The value of the step's member with the individual put for the variable, if there is one of that
    /// number.
    fn value_with(&self, evaluator: &mut Evaluator<'_, 'a>, step: &Step, u: u32) -> K3
        requires structure { bound_structure evaluator.old ≡ structure_along self.now }
        requires can { CanReadAlong self.now (bound_room evaluator.old) step.now }
        ensures exact { (m : MemberForm) → slice_get (members_along self.now) step.now.member ≡ Some m
            → u < (structure_along self.now).size
            → result ≡ value (structure_of (structure_along self.now))
            (put (assignment_of self.now.a.now) self.now.span.v.0 u) m.form }
        ensures same { evaluator.new ≡ evaluator.old }
    {
        if u >= self.trial.structure.size() {
            return K3::No;
        }
        let members = self.trial.shape.members.as_slice();
        let mut here = *self.a;
        here.set(self.span.v, u);
        evaluator.value(&members[step.member].formula, &here)
    }

    /// The word with the step's member counted too.
    #[inline(always)]
    fn counted_step(&self, evaluator: &mut Evaluator<'_, 'a>, step: &Step, word: Word) -> Word
        requires along { IsAlong self.now evaluator.old word }
        requires can { CanReadAlong self.now (bound_room evaluator.old) step.now }
        ensures counted { (m : MemberForm) → slice_get (members_along self.now) step.now.member ≡ Some m
            → IsCountedWith self.now m word result }
        ensures same { evaluator.new ≡ evaluator.old }
    {
        let values = self.read(evaluator, step, word);
        if step.literal {
            counted(word, values)
        } else {
            word.and(values.unless_no(values))
        }
    }

    /// The word with the members counted that are tested together, with its individuals put for the variable.
    #[inline(always)]
    pub(crate) fn counted_all(
        &self,
        evaluator: &mut Evaluator<'_, 'a>,
        steps: &[Step],
        word: Word,
    ) -> Word
        requires along { IsAlong self.now evaluator.old word }
        requires can { All (CanReadAlong self.now (bound_room evaluator.old)) steps.now }
        ensures counted { (left : ℕ) (last : Bool) → AreSteps (members_along self.now) left last steps.now
            → IsCountedAt self.now left last word result }
        ensures same { evaluator.new ≡ evaluator.old }
    {
        if steps.len() == 0 {
            return word;
        }
        self.counted_from(evaluator, steps, 0, word)
    }

    /// The same, where the members that stand first are mostly unary predicates: these are counted without a
    /// call.
    #[inline(always)]
    pub(crate) fn counted_alone(
        &self,
        evaluator: &mut Evaluator<'_, 'a>,
        steps: &[Step],
        word: Word,
    ) -> Word
        requires along { IsAlong self.now evaluator.old word }
        requires can { All (CanReadAlong self.now (bound_room evaluator.old)) steps.now }
        ensures counted { (left : ℕ) (last : Bool) → AreSteps (members_along self.now) left last steps.now
            → IsCountedAt self.now left last word result }
        ensures same { evaluator.new ≡ evaluator.old }
    {
        let mut word = word;
        for k in 0..steps.len() {
            if is_no(word.greatest()) {
                return word;
            }
            match self.counted_unary(&steps[k], word) {
                None => return self.counted_from(evaluator, steps, k, word),
                Some(more) => word = more,
            }
        }
        word
    }

    /// The word with the step's member counted too, if that is a unary predicate.
    #[inline(always)]
    fn counted_unary(&self, step: &Step, word: Word) -> Option<Word>
        requires can { (room : ScratchForm) × (places : List (Option ℕ))
            × CanRead self.now.trial.now room self.now.span.v.0 places step.now }
        requires chunk { 64 * self.now.span.chunk < (structure_along self.now).size }
        requires long { length word ≡ 64 }
        ensures { (a : Individuals) (m : MemberForm)
            → slice_get (members_along self.now) step.now.member ≡ Some m
            → IfSome result (IsCounted (structure_along self.now).size a self.now.span.v.0 self.now.span.chunk
            (λ b. value (structure_of (structure_along self.now)) b m.form ≢ Yes)
            (λ b. IsBarring (structure_along self.now) b m) word) }
    {
        match step.reading {
            Reading::Alone(flag, p) => {
                let s = self.trial.structure;
                let chunk = self.span.chunk;
                let values = signed(s, flag, s.unary_word(p, chunk), chunk);
                Some(counted(word, values))
            }
            _ => None,
        }
    }

    /// The same, where the first member is mostly a row of a binary predicate: that one is counted without a
    /// call.
    #[inline(always)]
    pub(crate) fn counted_by_row(
        &self,
        evaluator: &mut Evaluator<'_, 'a>,
        steps: &[Step],
        word: Word,
    ) -> Word
        requires along { IsAlong self.now evaluator.old word }
        requires can { All (CanReadAlong self.now (bound_room evaluator.old)) steps.now }
        ensures counted { (left : ℕ) (last : Bool) → AreSteps (members_along self.now) left last steps.now
            → IsCountedAt self.now left last word result }
        ensures same { evaluator.new ≡ evaluator.old }
    {
        if steps.len() == 0 {
            return word;
        }
        match self.counted_row(&steps[0], word) {
            None => self.counted_from(evaluator, steps, 0, word),
            Some(more) => {
                if steps.len() == 1 || is_no(more.greatest()) {
                    return more;
                }
                self.counted_from(evaluator, steps, 1, more)
            }
        }
    }

    /// The word with the step's member counted too, if that is a row of a binary predicate.
    #[inline(always)]
    fn counted_row(&self, step: &Step, word: Word) -> Option<Word>
        requires can { (room : ScratchForm) × CanReadAlong self.now room step.now }
        requires chunk { 64 * self.now.span.chunk < (structure_along self.now).size }
        requires long { length word ≡ 64 }
        ensures { (m : MemberForm) → slice_get (members_along self.now) step.now.member ≡ Some m
            → IfSome result (IsCountedWith self.now m word) }
    {
        match step.reading {
            Reading::Second(flag, p, x) => {
                let s = self.trial.structure;
                let chunk = self.span.chunk;
                let values = signed(s, flag, s.word(p, at(self.a, x), chunk), chunk);
                Some(counted(word, values))
            }
            _ => None,
        }
    }

    /// The same, where so many of the members were counted.
    fn counted_from(
        &self,
        evaluator: &mut Evaluator<'_, 'a>,
        steps: &[Step],
        done: usize,
        word: Word,
    ) -> Word
        requires along { IsAlong self.now evaluator.old word }
        requires can { All (CanReadAlong self.now (bound_room evaluator.old)) steps.now }
        ensures counted { (left : ℕ) (last : Bool) (begun : List K3)
            → AreSteps (members_along self.now) left last steps.now
            → AreCounted self.now steps.now done begun word
            → IsCountedAt self.now left last begun result }
        ensures same { evaluator.new ≡ evaluator.old }
    {
        let mut word = word;
        for k in done..steps.len() {
            if is_no(word.greatest()) {
                return word;
            }
            word = self.counted_step(evaluator, &steps[k], word);
        }
        word
    }
}

/// What is counted of the last variable with an individual of another, which counts as `own` says: `sure`
/// has `Yes` where that does, and `halved` what is counted where it is `Half`.
#[inline(always)]
pub(crate) fn begun_with(tail: Word, halved: Word, own: Word, sure: Word, i: u32) -> Word
    requires i { i < 64 }
    requires some { slice_index_or own i No ≢ No }
    requires long { (length tail ≡ 64) × (length own ≡ 64) }
    requires halved { halved ≡ paired counted tail (padded 64 (replicate 64 Half)) }
    requires sure { sure ≡ paired yes_unless_no own own }
    ensures long { length result ≡ 64 }
    ensures each { (j : ℕ) → j < 64
        → slice_index_or result j No ≡ counted (slice_index_or tail j No) (slice_index_or own i No) }
{
    if is_no(sure.get(i)) { halved } else { tail }
}
