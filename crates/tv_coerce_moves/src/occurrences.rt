//! For each change the members of rules that it may make greater.

ghost use Rattle.std.specs.Prelude.{◌≡◌, [], replicate, IfOk, OnOk, true, false, slice_index_or};
ghost use Rattle.tv_model.specs.Form.{form_of};
ghost use Rattle.tv_model.specs.Program.{head_of};
ghost use Rattle.tv_coerce_moves.specs.Moves.{IsEquality, MayMove, MayTell, Shows, Turns};
ghost use Rattle.tv_coerce_moves.specs.Occurrences.{AreNoted, HasPlaces, list_for};

use crate::list::{Member, Occurrence, OccurrenceList};
use std::alloc::{AllocError, Global};
use std::marker::Model;
use tv_model::{Formula, Head, PredId};

/// For each change the members of rules that were noted as moved by it: lists for each predicate, and one for
/// summaries that become ordinary individuals.
#[derive(Debug, Drop)]
pub struct Occurrences {
    to_yes: Vec<OccurrenceList>,
    to_no: Vec<OccurrenceList>,
    ordinary: OccurrenceList,
}

impl Model for Occurrences {
    ghost use Rattle.tv_coerce_moves.specs.Occurrences.{OccurrenceLists, lists_of};

    ghost Value = { OccurrenceLists };

    ghost view = { λ m. lists_of m.to_yes.items m.to_no.items m.ordinary };
}

/// So many empty lists.
fn no_lists(alloc: Global, count: usize) -> Result<Vec<OccurrenceList>, AllocError>
    ensures { IfOk result (λ lists. lists.items ≡ replicate count []) }
{
    let mut lists = Vec::with_capacity(alloc, count)?;
    for _ in 0..count {
        lists.push(OccurrenceList::new(alloc))?;
    }
    Ok(lists)
}

fn list_at(lists: &[OccurrenceList], p: PredId) -> &[Occurrence]
    ensures { result.now ≡ slice_index_or lists.now p.0 [] }
{
    if (p.0 as usize) < lists.len() {
        lists[p.0 as usize].as_slice()
    } else {
        &[]
    }
}

impl Occurrences {
    /// No members, of rules over so many predicates.
    pub fn new(alloc: Global, preds: usize) -> Result<Occurrences, AllocError>
        ensures { IfOk result (HasPlaces preds) }
    {
        Ok(Occurrences {
            to_yes: no_lists(alloc, preds)?,
            to_no: no_lists(alloc, preds)?,
            ordinary: OccurrenceList::new(alloc),
        })
    }

    /// The rules of which the changes that the head asks for may make members greater.
    pub fn by_change(&self, head: Head) -> &[Occurrence]
        ensures { result.now ≡ list_for self.now (head_of head) }
    {
        match head {
            Head::Never => &[],
            Head::Atom(true, p, _) => list_at(self.to_yes.as_slice(), p),
            Head::Atom(false, p, _) => list_at(self.to_no.as_slice(), p),
            Head::Same(_, _, _) => self.ordinary.as_slice(),
        }
    }

    /// Notes a member that grows as the predicate becomes `Yes`, if there is a list for the predicate.
    fn note_yes(&mut self, p: PredId, member: Member) -> Result<(), AllocError>
        ensures { OnOk result (AreNoted (λ head. Turns head true p.0) member self.old self.new) }
    {
        let place = p.0 as usize;
        if place >= self.to_yes.len() {
            return Ok(());
        }
        let list = &mut self.to_yes[place];
        list.note(member)
    }

    /// Notes a member that grows as the predicate becomes `No`, if there is a list for the predicate.
    fn note_no(&mut self, p: PredId, member: Member) -> Result<(), AllocError>
        ensures { OnOk result (AreNoted (λ head. Turns head false p.0) member self.old self.new) }
    {
        let place = p.0 as usize;
        if place >= self.to_no.len() {
            return Ok(());
        }
        let list = &mut self.to_no[place];
        list.note(member)
    }

    /// Notes a member that grows as summaries become ordinary individuals.
    fn note_ordinary(&mut self, member: Member) -> Result<(), AllocError>
        ensures { OnOk result (AreNoted IsEquality member self.old self.new) }
    {
        self.ordinary.note(member)
    }

    /// Notes a member that grows with each change of what stands in the formula.
    fn note_shown(&mut self, f: &Formula, member: Member) -> Result<(), AllocError>
        ensures { OnOk result (AreNoted (λ head. Shows head (form_of f.now)) member self.old self.new) }
    {
        match f {
            Formula::Zero | Formula::One | Formula::IsNew(_) => Ok(()),
            Formula::Atom(p, _) => {
                self.note_yes(*p, member)?;
                self.note_no(*p, member)
            }
            Formula::Same(_, _) => self.note_ordinary(member),
            Formula::Not(g) | Formula::Exists(_, g) | Formula::Forall(_, g) => {
                self.note_shown(g, member)
            }
            Formula::And(g, h) | Formula::Or(g, h) | Formula::Iff(g, h) => {
                self.note_shown(g, member)?;
                self.note_shown(h, member)
            }
            Formula::Cond(c, g, h) => {
                self.note_shown(c, member)?;
                self.note_shown(g, member)?;
                self.note_shown(h, member)
            }
            Formula::Closure { body, .. } => self.note_shown(body, member),
        }
    }

    /// Notes a member for each change that may make the formula greater, or smaller where `up` is false.
    pub fn note_moves(&mut self, f: &Formula, up: bool, member: Member) -> Result<(), AllocError>
        ensures { OnOk result (AreNoted (λ head. MayMove head up (form_of f.now)) member self.old self.new) }
    {
        match f {
            Formula::Zero | Formula::One | Formula::IsNew(_) => Ok(()),
            Formula::Atom(p, _) => {
                if up {
                    self.note_yes(*p, member)
                } else {
                    self.note_no(*p, member)
                }
            }
            Formula::Same(_, _) => {
                if up {
                    self.note_ordinary(member)?;
                }
                Ok(())
            }
            Formula::Not(g) => self.note_moves(g, !up, member),
            Formula::And(g, h) | Formula::Or(g, h) => {
                self.note_moves(g, up, member)?;
                self.note_moves(h, up, member)
            }
            Formula::Iff(g, h) => {
                self.note_shown(g, member)?;
                self.note_shown(h, member)
            }
            Formula::Cond(c, g, h) => {
                self.note_shown(c, member)?;
                self.note_moves(g, up, member)?;
                self.note_moves(h, up, member)
            }
            Formula::Exists(_, g) | Formula::Forall(_, g) => self.note_moves(g, up, member),
            Formula::Closure { body, .. } => self.note_moves(body, up, member),
        }
    }

    /// Notes a member for each change that may make the head known.
    pub fn note_head(&mut self, head: Head, member: Member) -> Result<(), AllocError>
        ensures { OnOk result (AreNoted (MayTell (head_of head)) member self.old self.new) }
    {
        self.note_ordinary(member)?;
        match head {
            Head::Never | Head::Same(_, _, _) => Ok(()),
            Head::Atom(_, p, _) => {
                self.note_yes(p, member)?;
                self.note_no(p, member)
            }
        }
    }
}
