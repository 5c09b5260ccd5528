//! Laws of splits: functions that do nothing, and whose contracts are the laws.

ghost use Rattle.tv_coerce_laws.specs.Limits.{SplitLimits};
ghost use Rattle.tv_coerce_laws.specs.Laws.{SplitsKeepValues, SplitsAreStable, SplitsOfSummariesAreStable};
ghost use Rattle.tv_coerce_laws.specs.Laws.{UntouchedRulesStayStable};

/// A map onto that keeps every value of the predicates that a formula mentions keeps the formula's value,
/// closures included, where no equality stands in it and it doesn't speak of a fresh individual.
pub fn splits_keep_values()
    ensures { SplitsKeepValues }
{}

/// A split of a structure that is stable under a rule is stable under it, where no equality stands in the
/// rule, its head hasn't one variable twice, and the split keeps the values of the predicates that stand in
/// the rule.
pub fn splits_are_stable()
    ensures { SplitsAreStable }
{}

/// The same of a rule whose head has one variable twice, where what goes to a summary is a summary.
pub fn splits_of_summaries_are_stable()
    ensures { SplitsOfSummariesAreStable }
{}

/// Without these premises splits may lose stability.
pub fn splits_have_limits()
    ensures { SplitLimits }
{}

/// A structure that differs from another only in predicates that don't stand in a rule is stable under it
/// where the other is.
pub fn untouched_rules_stay_stable()
    ensures { UntouchedRulesStayStable }
{}
