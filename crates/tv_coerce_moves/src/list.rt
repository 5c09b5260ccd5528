//! The members of rules that a change moves, rule by rule.

ghost use Rattle.std.specs.Prelude.{ℕ, ◌≡◌, [], ◌∷◌, IsTrue, OnOk, Option};
ghost use Rattle.tv_coerce_moves.specs.Occurrences.{IsAmong, IsNoted, MovesOther};

use std::alloc::{AllocError, Global};
use std::marker::Model;

/// A conjunct of a rule's body, or the negation of its head.
#[derive(Clone, Copy, Debug)]
pub struct Member {
    /// The number of the rule.
    pub rule: usize,
    /// The place of the conjunct; none for the head.
    pub place: Option<usize>,
}

/// Which members of a rule a change moves.
#[derive(Clone, Copy, Debug)]
pub enum Moving {
    /// The member at this place alone.
    Alone(Option<usize>),
    /// Several of them.
    Several,
}

/// A rule, and which of its members a change moves.
#[derive(Clone, Copy, Debug)]
pub struct Occurrence {
    /// The number of the rule.
    pub rule: usize,
    /// Its members.
    pub moving: Moving,
}

/// The rules of which a change moves members, each once where its members are noted one after the other.
#[derive(Debug, Drop)]
pub struct OccurrenceList {
    occurrences: Vec<Occurrence>,
}

impl Model for OccurrenceList {
    ghost use Rattle.std.specs.Prelude.{List};
    ghost use Rattle.tv_coerce_moves.specs.declared.list.Occurrence.{Occurrence};

    ghost Value = { List Occurrence };

    ghost view = { λ l. l.occurrences.items };
}

fn is_same_place(a: Option<usize>, b: Option<usize>) -> bool
    ensures { IsTrue result → a ≡ b }
{
    match (a, b) {
        (None, None) => true,
        (Some(k), Some(l)) => k == l,
        (None, Some(_)) | (Some(_), None) => false,
    }
}

/// One place more.
fn with_place(moving: Moving, place: Option<usize>) -> Moving
    ensures kept { (other : Option ℕ) → IsAmong other moving → IsAmong other result }
    ensures there { IsAmong place result }
{
    match moving {
        Moving::Several => Moving::Several,
        Moving::Alone(other) => {
            if is_same_place(other, place) {
                Moving::Alone(other)
            } else {
                Moving::Several
            }
        }
    }
}

impl Moving {
    /// True wherever members at other places than this one are moved; that it is true promises nothing.
    pub fn moves_other(self, place: Option<usize>) -> bool
        ensures { MovesOther place self → IsTrue result }
    {
        match self {
            Moving::Several => true,
            Moving::Alone(other) => !is_same_place(other, place),
        }
    }
}

impl OccurrenceList {
    /// No rules; takes no memory.
    pub(crate) fn new(alloc: Global) -> OccurrenceList
        ensures { result ≡ [] }
    {
        OccurrenceList {
            occurrences: Vec::new(alloc),
        }
    }

    /// The rules in the order in which they were noted.
    pub(crate) fn as_slice(&self) -> &[Occurrence]
        ensures { result.now ≡ self.now }
    {
        self.occurrences.as_slice()
    }

    /// Notes a member that the change moves.
    pub(crate) fn note(&mut self, member: Member) -> Result<(), AllocError>
        ensures { OnOk result (IsNoted member self.old self.new) }
    {
        let count = self.occurrences.len();
        if count > 0 && self.occurrences[count - 1].rule == member.rule {
            let moving = with_place(self.occurrences[count - 1].moving, member.place);
            self.occurrences[count - 1].moving = moving;
            return Ok(());
        }
        self.occurrences.push(Occurrence {
            rule: member.rule,
            moving: Moving::Alone(member.place),
        })?;
        Ok(())
    }
}
