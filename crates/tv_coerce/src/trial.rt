//! A rule is tried on a structure, with all that came of the same base rule: its variables get individuals
//! one after the other, and what has to change is noted.

ghost use Rattle.std.specs.Prelude.{◌≡◌, ◌≢◌, ◌<◌, ◌*◌, ◌++◌, [], ◌∷◌, ℕ, All, Contains, IfOk, IsTrue};
ghost use Rattle.std.specs.Prelude.{◌≤◌, MatchBool};
ghost use Rattle.std.specs.Prelude.{Some, ◌↔◌, false, length, slice_get};
ghost use Rattle.tv_kleene.specs.declared.K3.{K3};
ghost use Rattle.tv_kleene.specs.declared.K3.TheVariants.{No, Yes};
ghost use Rattle.tv_eval.specs.AssignmentForm.{assignment_of};
ghost use Rattle.tv_eval_laws.specs.Value.{value};
ghost use Rattle.tv_coerce_members.specs.Members.{numbers_of};
ghost use Rattle.tv_rules.specs.EntryForms.{rules_of};
ghost use Rattle.tv_rules.specs.Kin.{IsKin};
ghost use Rattle.tv_stable_laws.specs.Laws.{IsPlainRule};
ghost use Rattle.tv_structure_form.specs.StructureForm.{arities_of, structure_of};
ghost use Rattle.tv_coerce.specs.Counting.{AreNarrowed, IsBegun, IsWalkStart};
ghost use Rattle.tv_coerce.specs.Counting.{variables_in};
ghost use Rattle.tv_coerce.specs.Ready.{CanCoerce, IsRuleOver};
ghost use Rattle.tv_coerce.specs.Trying.{ArePlaced, DifferOnlyAt, IsNotedOf, IsTold};
ghost use Rattle.tv_coerce.specs.Trying.{IsReadyFor, rule_at, trial_rule};
ghost use Rattle.tv_coerce.specs.Walks.{AreMet, AreTriedFor, GoesOnIn, IsAny, IsInChunk};

use crate::change::Need;
use crate::counting::{Missing, count, lacking};
use crate::narrow::{going_on, narrow};
use crate::need::need;
use crate::noted::{Ask, Queue};
use crate::places::{Along, begun_with, counted};
use std::alloc::AllocError;
use tv_coerce_members::{Level, Shape};
use tv_eval::{Assignment, Evaluator, chunks, places};
use tv_kleene::K3;
use tv_model::Var;
use tv_row::Word;
use tv_rules::Closed;
use tv_struct::Structure;

/// A rule, by its number, and the structure that it is tried on, with all that came of the same base rule.
#[derive(Clone, Copy)]
pub(crate) struct Trial<'a, 'n> {
    pub structure: &'a Structure,
    pub closed: &'a Closed,
    pub number: usize,
    pub shape: &'a Shape,
    /// The last of the rule's variables.
    pub last: Var,
    /// Which individuals it stands for: those from `64 * chunk` on, at most 64.
    pub chunk: u32,
    /// What was narrowed of each of the variables before the last, by how many of these are left then; empty
    /// where none was.
    pub later: &'n [Word],
}

/// A variable, and which individuals are put for it: those from `64 * chunk` on, at most 64.
#[derive(Clone, Copy)]
pub(crate) struct Span {
    pub v: Var,
    pub chunk: u32,
}

/// Whether a structure below can be stable under the rules.
#[derive(Clone, Copy, Debug, PartialEq, Eq)]
pub(crate) enum Outcome {
    Possible,
    Impossible,
}

pub(crate) fn is_no(k: K3) -> bool
    ensures { MatchBool result (k ≡ No) (k ≢ No) }
{
    k == K3::No
}

/// How many of the variables before the last don't stand in the member, none where the last one does. A hint,
/// of which nothing is promised.
fn settled_by(shape: &Shape, member: usize) -> Option<usize> {
    let denied = shape.members.as_slice().get(member)?;
    if denied.last { None } else { Some(denied.left) }
}

/// Notes what the head of the rule of that number needs under the assignment, under which its body is `Yes`.
fn note_head(
    trial: &Trial,
    number: usize,
    settled: Option<usize>,
    a: &Assignment,
    noted: &mut Queue,
) -> Result<Outcome, AllocError>
    requires number { number < length (rules_of trial.now.closed.now) }
    requires over { IsRuleOver (arities_of trial.now.structure.now) (rule_at trial.now.closed.now number) }
    requires placed { ArePlaced trial.now.structure.now.size (rule_at trial.now.closed.now number) [] a.now }
    ensures noted { IfOk result (IsNotedOf trial.now.structure.now (assignment_of a.now) number
        (rule_at trial.now.closed.now number).head noted.old noted.new) }
{
    match need(trial.structure, trial.closed.head(number), a) {
        Need::Nothing => Ok(Outcome::Possible),
        Need::Never => Ok(Outcome::Impossible),
        Need::Put(change) => {
            noted.add(Ask { number, change }, settled)?;
            Ok(Outcome::Possible)
        }
    }
}

/// Notes what the rules ask for under the assignment: where all members are `Yes` no structure below is
/// stable, and where one isn't, the rule that denies it asks for that.
#[inline(never)]
fn note<'a>(
    trial: &Trial<'a, '_>,
    evaluator: &mut Evaluator<'_, 'a>,
    a: &Assignment,
    noted: &mut Queue,
) -> Result<Outcome, AllocError>
    requires ready { IsReadyFor trial.now evaluator.old }
    requires placed { ArePlaced trial.now.structure.now.size (trial_rule trial.now) [] a.now }
    ensures told { IfOk result
        (IsTold trial.now (AreMet trial.now (assignment_of a.now)) noted.old noted.new) }
    ensures same { evaluator.new ≡ evaluator.old }
{
    match lacking(trial, evaluator, a) {
        Missing::Nothing => note_head(trial, trial.number, None, a, noted),
        Missing::Member(member) => match trial.closed.denying(trial.number, member) {
            None => Ok(Outcome::Possible),
            Some(number) => {
                let settled = settled_by(trial.shape, member);
                note_head(trial, number, settled, a, noted)
            }
        },
        Missing::Several => Ok(Outcome::Possible),
    }
}

/// What is tested once all but so many of the variables before the last have individuals.
#[inline(always)]
pub(crate) fn level_of<'a>(trial: &Trial<'a, '_>, left: usize) -> &'a Level
    requires { left < length trial.now.shape.now.levels }
    ensures { slice_get trial.now.shape.now.levels left ≡ Some result.now }
{
    &trial.shape.levels.as_slice()[left]
}

/// Rules with so many variables before the last are narrowed first.
const NARROWED: usize = 4;

/// Whether rules with so many variables before the last are narrowed over so many individuals: words of 64
/// are.
#[inline(always)]
fn is_narrowed(before: usize, size: u32) -> bool
    ensures { IsTrue result → (before ≤ 32) × (size ≤ 64) }
{
    NARROWED <= before && before <= 32 && size <= 64
}

/// A walk over the variables of rules: what they stand for, and what was noted on the way.
#[derive(Drop)]
pub(crate) struct Walk<'s, 'a> {
    pub evaluator: Evaluator<'s, 'a>,
    pub a: Assignment,
    pub noted: Queue,
}

impl<'s, 'a> Walk<'s, 'a> {
    /// Notes what the rules ask for with the individuals put for the last variable that the word doesn't rule
    /// out.
    #[inline(never)]
    fn note_all(&mut self, trial: &Trial<'a, '_>, tail: Word) -> Result<Outcome, AllocError>
        requires ready { IsReadyFor trial.now self.old.evaluator }
        requires walk { IsWalkStart trial.now [] self.old.a tail }
        ensures told { IfOk result
            (IsTold trial.now
            (AreTriedFor trial.now (GoesOnIn trial.now (trial.now.last.0 ∷ []) (assignment_of self.old.a)))
            self.old.noted self.new.noted) }
        ensures keeps { DifferOnlyAt (trial.now.last.0 ∷ []) self.old.a self.new.a }
        ensures same { self.new.evaluator ≡ self.old.evaluator }
    {
        let _ = trial.structure.size();
        let asked = self.noted.asked();
        let mut from = 0;
        while let Some(i) = tail.first_possible(from) {
            self.a.set(trial.last, 64 * trial.chunk + i);
            match note(trial, &mut self.evaluator, &self.a, &mut self.noted)? {
                Outcome::Possible => {
                    if self.noted.has_more(asked, 0) {
                        return Ok(Outcome::Possible);
                    }
                    from = i + 1;
                }
                Outcome::Impossible => return Ok(Outcome::Impossible),
            }
        }
        Ok(Outcome::Possible)
    }

    /// Tries the rules with all individuals put for the variables that are left before the last, and those of
    /// the word for the last one. What these stand for is changed on the way.
    #[cycle(walk)]
    fn walk(
        &mut self,
        trial: &Trial<'a, '_>,
        rest: &[Var],
        tail: Word,
    ) -> Result<Outcome, AllocError>
        requires ready { IsReadyFor trial.now self.old.evaluator }
        requires walk { IsWalkStart trial.now (numbers_of rest.now) self.old.a tail }
        ensures told { IfOk result
            (IsTold trial.now
            (AreTriedFor trial.now
            (GoesOnIn trial.now (numbers_of rest.now ++ trial.now.last.0 ∷ []) (assignment_of self.old.a)))
            self.old.noted self.new.noted) }
        ensures keeps { DifferOnlyAt (numbers_of rest.now ++ trial.now.last.0 ∷ []) self.old.a self.new.a }
        ensures same { self.new.evaluator ≡ self.old.evaluator }
    {
        match rest {
            [] => self.note_all(trial, tail),
            [v, behind @ ..] => {
                let asked = self.noted.asked();
                for chunk in 0..chunks(trial.structure.size()) {
                    match self.walk_chunk(trial, Span { v: *v, chunk }, behind, tail)? {
                        Outcome::Possible => {
                            if self.noted.has_more(asked, rest.len()) {
                                return Ok(Outcome::Possible);
                            }
                        }
                        Outcome::Impossible => return Ok(Outcome::Impossible),
                    }
                }
                Ok(Outcome::Possible)
            }
        }
    }

    /// Tries the rules with the span's individuals put for the variable before those that are left.
    #[cycle(walk)]
    fn walk_chunk(
        &mut self,
        trial: &Trial<'a, '_>,
        span: Span,
        rest: &[Var],
        tail: Word,
    ) -> Result<Outcome, AllocError>
        requires ready { IsReadyFor trial.now self.old.evaluator }
        requires walk { IsWalkStart trial.now (span.v.0 ∷ numbers_of rest.now) self.old.a tail }
        requires chunk { 64 * span.chunk < trial.now.structure.now.size }
        ensures told { IfOk result
            (IsTold trial.now
            (AreTriedFor trial.now
            (λ b. GoesOnIn trial.now (span.v.0 ∷ numbers_of rest.now ++ trial.now.last.0 ∷ [])
            (assignment_of self.old.a) b × IsInChunk span.v.0 span.chunk b))
            self.old.noted self.new.noted) }
        ensures keeps { DifferOnlyAt (span.v.0 ∷ numbers_of rest.now ++ trial.now.last.0 ∷ []) self.old.a
            self.new.a }
        ensures same { self.new.evaluator ≡ self.old.evaluator }
    {
        let asked = self.noted.asked();
        let all = Word::of(places(trial.structure.size(), span.chunk), K3::Yes);
        let level = level_of(trial, rest.len());
        let heads = Along {
            trial,
            a: &self.a,
            span,
        };
        let own = heads.counted_all(&mut self.evaluator, level.own.as_slice(), all);
        let steps = level.last.as_slice();
        let alive = going_on(trial.later, rest.len(), tail, own);
        let halved = counted(tail, Word::of(64, K3::Half));
        let sure = own.unless_no(own);
        let mut from = 0;
        while let Some(i) = alive.first_possible(from) {
            self.a.set(span.v, 64 * span.chunk + i);
            from = i + 1;
            let begun = begun_with(tail, halved, own, sure, i);
            let tails = Along {
                trial,
                a: &self.a,
                span: Span {
                    v: trial.last,
                    chunk: trial.chunk,
                },
            };
            let word = tails.counted_by_row(&mut self.evaluator, steps, begun);
            if !is_no(word.greatest()) {
                match self.walk(trial, rest, word)? {
                    Outcome::Possible => {
                        if self.noted.has_more(asked, rest.len() + 1) {
                            return Ok(Outcome::Possible);
                        }
                    }
                    Outcome::Impossible => return Ok(Outcome::Impossible),
                }
            }
        }
        Ok(Outcome::Possible)
    }

    /// Tries the rules with the individuals of the trial's chunk put for their last variable, if the members
    /// without variables, which count so, don't rule that out.
    fn walk_last(
        &mut self,
        trial: &Trial<'a, '_>,
        before: &[Var],
        own: K3,
    ) -> Result<Outcome, AllocError>
        requires ready { IsReadyFor trial.now self.old.evaluator }
        requires begun { IsBegun trial.now (numbers_of before.now) self.old.a own }
        requires chunk { 64 * trial.now.chunk < trial.now.structure.now.size }
        requires narrowed { AreNarrowed trial.now trial.now.later.now }
        ensures told { IfOk result
            (IsTold trial.now (AreTriedFor trial.now (IsInChunk trial.now.last.0 trial.now.chunk))
            self.old.noted self.new.noted) }
        ensures same { self.new.evaluator ≡ self.old.evaluator }
    {
        let level = level_of(trial, before.len());
        let all = Word::of(places(trial.structure.size(), trial.chunk), own);
        let steps = level.last.as_slice();
        let tails = Along {
            trial,
            a: &self.a,
            span: Span {
                v: trial.last,
                chunk: trial.chunk,
            },
        };
        let tail = tails.counted_alone(&mut self.evaluator, steps, all);
        if is_no(tail.greatest()) {
            return Ok(Outcome::Possible);
        }
        self.walk(trial, before, tail)
    }

    /// Tries rules without variables.
    pub(crate) fn walk_none(&mut self, trial: &Trial<'a, '_>) -> Result<Outcome, AllocError>
        requires ready { IsReadyFor trial.now self.old.evaluator }
        requires variables { variables_in trial.now ≡ [] }
        ensures told { IfOk result
            (IsTold trial.now (AreTriedFor trial.now IsAny) self.old.noted self.new.noted) }
        ensures same { self.new.evaluator ≡ self.old.evaluator }
    {
        let level = level_of(trial, 0);
        if is_no(count(trial, &mut self.evaluator, level.own.as_slice(), &self.a)) {
            return Ok(Outcome::Possible);
        }
        note(trial, &mut self.evaluator, &self.a, &mut self.noted)
    }

    /// Tries rules whose variables are those before and the last, where the members without variables count
    /// as `own` says.
    #[inline(always)]
    fn walk_chunks(
        &mut self,
        trial: &Trial<'a, '_>,
        before: &[Var],
        own: K3,
    ) -> Result<Outcome, AllocError>
        requires ready { IsReadyFor trial.now self.old.evaluator }
        requires begun { IsBegun trial.now (numbers_of before.now) self.old.a own }
        requires narrowed { AreNarrowed trial.now trial.now.later.now }
        ensures told { IfOk result
            (IsTold trial.now (AreTriedFor trial.now IsAny) self.old.noted self.new.noted) }
        ensures same { self.new.evaluator ≡ self.old.evaluator }
    {
        for chunk in 0..chunks(trial.structure.size()) {
            let here = Trial { chunk, ..*trial };
            match self.walk_last(&here, before, own)? {
                Outcome::Possible => {}
                Outcome::Impossible => return Ok(Outcome::Impossible),
            }
        }
        Ok(Outcome::Possible)
    }

    /// Narrows the variables before the last, as far as words of 64 individuals do, and tries the rules then.
    #[inline(never)]
    fn walk_narrowed(
        &mut self,
        trial: &Trial<'a, '_>,
        before: &[Var],
        own: K3,
    ) -> Result<Outcome, AllocError>
        requires ready { IsReadyFor trial.now self.old.evaluator }
        requires begun { IsBegun trial.now (numbers_of before.now) self.old.a own }
        requires few { (length before.now ≤ 32) × (trial.now.structure.now.size ≤ 64) }
        ensures told { IfOk result
            (IsTold trial.now (AreTriedFor trial.now IsAny) self.old.noted self.new.noted) }
        ensures same { self.new.evaluator ≡ self.old.evaluator }
    {
        let words = narrow(trial, before);
        let narrowed = Trial {
            later: words.as_slice(),
            ..*trial
        };
        self.walk_chunks(&narrowed, before, own)
    }

    /// Tries rules whose variables are those before and the last.
    pub(crate) fn walk_some(
        &mut self,
        trial: &Trial<'a, '_>,
        before: &[Var],
    ) -> Result<Outcome, AllocError>
        requires ready { IsReadyFor trial.now self.old.evaluator }
        requires variables { variables_in trial.now ≡ numbers_of before.now ++ trial.now.last.0 ∷ [] }
        requires narrowed { AreNarrowed trial.now trial.now.later.now }
        ensures told { IfOk result
            (IsTold trial.now (AreTriedFor trial.now IsAny) self.old.noted self.new.noted) }
        ensures same { self.new.evaluator ≡ self.old.evaluator }
    {
        let level = level_of(trial, before.len());
        let own = count(trial, &mut self.evaluator, level.own.as_slice(), &self.a);
        if is_no(own) {
            return Ok(Outcome::Possible);
        }
        if is_narrowed(before.len(), trial.structure.size()) {
            return self.walk_narrowed(trial, before, own);
        }
        self.walk_chunks(trial, before, own)
    }
}
