//! Laws of choices that aren't made yet: functions that do nothing, and whose contracts are the laws.

ghost use Rattle.tv_focus_step_laws.specs.Above.{StructuresLead, SinglesLead, SplitsLead, VectorsLead};
ghost use Rattle.tv_focus_step_laws.specs.Above.{VectorsRefute, OrdinariesRefute, SharpenedLead};
ghost use Rattle.tv_focus_step_laws.specs.Above.{WholeCoerceAlike};

use tv_focus_laws::lists_are_exact;

/// A structure leads to each of its choices.
pub fn structures_lead()
    ensures { StructuresLead }
{
    lists_are_exact();
}

/// What leads to a choice that gives the next individual one vector does so still.
pub fn singles_lead()
    ensures { SinglesLead }
{}

/// What leads to a choice does so too once the next individual is split into a copy for each vector.
pub fn splits_lead()
    ensures { SplitsLead }
{}

/// So it does once copies have values of the vectors that they are given.
pub fn vectors_lead()
    ensures { VectorsLead }
{
    lists_are_exact();
}

/// Where what leads to a choice has another definite value than a vector of the next individual, no stable
/// structure lies below the choice.
pub fn vectors_refute()
    ensures { VectorsRefute }
{}

/// Nor does one where the next individual is given several vectors, and is no summary there.
pub fn ordinaries_refute()
    ensures { OrdinariesRefute }
{}

/// The greatest stable structure below what leads to a choice does so too; where there is none, no stable
/// structure lies below the choice.
pub fn sharpened_lead()
    ensures { SharpenedLead }
{}

/// Coerce makes of a choice what it makes of what leads to it, once all its vectors are given.
pub fn whole_coerce_alike()
    ensures { WholeCoerceAlike }
{}
