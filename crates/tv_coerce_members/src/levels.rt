//! Which members of a rule are tested together while its variables get individuals.

ghost use Rattle.std.specs.Prelude.{◌≡◌, ◌<◌, ◌+◌, length, true, false, IfOk, IsTrue, OnOk, ◌↔◌};
ghost use Rattle.tv_coerce_members.specs.Members.{AreLevels, AreSteps, member_of, members_of};
ghost use Rattle.tv_coerce_members.specs.Pushing.{ArePushed, IsTestedAt, is_other};

use crate::members::Member;
use crate::readings::{Reading, is_literal};
use std::alloc::{AllocError, Global};
use tv_model::Items;

/// A member that is tested at a level, by its number.
#[derive(Clone, Copy, Debug)]
pub struct Step {
    pub member: usize,
    pub reading: Reading,
    /// Whether the member is a literal: an atom, an equality, or the negation of one.
    pub literal: bool,
}

/// Members that are tested together.
pub type Steps = Items<Step>;

/// What is tested once all but so many of the variables before the last have individuals.
#[derive(Debug, Drop)]
pub struct Level {
    /// Of the variable that got one: the last variable doesn't stand in these.
    pub own: Steps,
    /// Of the last variable.
    pub last: Steps,
}

/// The levels of a rule, by how many variables before the last are left.
pub type Levels = Items<Level>;

/// So many levels of a rule with these members.
pub(crate) fn levels_of(
    alloc: Global,
    members: &[Member],
    count: usize,
) -> Result<Levels, AllocError>
    ensures { IfOk result (AreLevels (members_of members.now) count) }
{
    let mut levels = Items::new(alloc);
    for left in 0..count {
        levels.push(Level {
            own: level_of(alloc, members, left, false)?,
            last: level_of(alloc, members, left, true)?,
        })?;
    }
    Ok(levels)
}

/// The members of one level about the last variable, or those that aren't. Literals stand first: the others
/// take longer, and are mostly passed over.
fn level_of(alloc: Global, members: &[Member], left: usize, last: bool) -> Result<Steps, AllocError>
    ensures { IfOk result (AreSteps (members_of members.now) left last) }
{
    let mut steps = Items::new(alloc);
    push_steps(members, left, last, false, &mut steps)?;
    push_steps(members, left, last, true, &mut steps)?;
    Ok(steps)
}

/// Puts those behind the list that are literals, or those that aren't, if `other` says so.
#[tactic(auto, using(crate::proofs::Gathering::more_pushed, crate::proofs::Gathering::nothing_pushed))]
fn push_steps(
    members: &[Member],
    left: usize,
    last: bool,
    other: bool,
    steps: &mut Steps,
) -> Result<(), AllocError>
    ensures { OnOk result
        (ArePushed (members_of members.now) left last other 0 (length members.now) steps.old steps.new) }
{
    for number in 0..members.len() {
        push_step(members, number, left, last, other, steps)?;
    }
    Ok(())
}

fn push_step(
    members: &[Member],
    number: usize,
    left: usize,
    last: bool,
    other: bool,
    steps: &mut Steps,
) -> Result<(), AllocError>
    requires { number < length members.now }
    ensures { OnOk result
        (ArePushed (members_of members.now) left last other number (number + 1) steps.old steps.new) }
{
    let member = &members[number];
    if is_tested_at(member, left, last, other) {
        steps.push(Step {
            member: number,
            reading: member.reading,
            literal: is_literal(&member.formula),
        })?;
    }
    Ok(())
}

fn is_tested_at(member: &Member, left: usize, last: bool, other: bool) -> bool
    ensures { IsTrue result ↔ IsTestedAt left last other (member_of member.now) }
{
    member.left == left && member.last == last && is_other(member.reading) == other
}

fn is_other(reading: Reading) -> bool
    ensures { result ≡ is_other reading }
{
    matches!(reading, Reading::Other)
}
