//! Laws of the definitions: functions that do nothing, and whose contracts are the laws.

ghost use Rattle.tv_expand.specs.Limits.{LimitsAreExact};
ghost use Rattle.tv_expand.specs.Origins.{EachRuleHasOrigin};

/// A program that has a flat form, however much room that takes, has it within the limits of the language
/// where it has at most 65,536 items and at most 1,048,576 formula nodes in them, and else it is
/// `TooManyItems`.
#[tactic(auto, using(crate::proofs::LimitLaws::limits_exact))]
pub fn limits_are_exact()
    ensures { LimitsAreExact }
{}

/// Where a program has a flat form, each of its rules has an origin.
pub fn each_rule_has_origin()
    ensures { EachRuleHasOrigin }
{}
