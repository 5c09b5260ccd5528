//! Laws of the closed rules: functions that do nothing, and whose contracts are the laws.

ghost use Rattle.tv_rules.specs.Laws.{BaseRulesAreMet, ClosingKeepsMeaning, ClosedRulesAreMet};
ghost use Rattle.tv_rules.specs.Laws.{FurtherRulesFollow, DroppingKeepsMeaning, TestsAreRight};
ghost use Rattle.tv_rules.specs.Laws.{SwapsAreOfConjuncts, ClosedRulesAreRules, ConjunctsCarryFormulas};
ghost use Rattle.tv_rules.specs.Defining.{DefinedValuesAreStable};
ghost use Rattle.tv_rules.specs.Samples.{Samples};

/// Each further rule holds in every heap in which its base rule holds.
pub fn further_rules_follow()
    ensures { FurtherRulesFollow }
{}

/// A heap meets a rule exactly where it meets the rule with its Exists dropped.
pub fn dropping_keeps_meaning()
    ensures { DroppingKeepsMeaning }
{}

/// A concrete heap that meets the program meets each of its base rules.
pub fn base_rules_are_met()
    ensures { BaseRulesAreMet }
{}

/// A heap meets the closed rules exactly where it meets the base rules.
pub fn closing_keeps_meaning()
    ensures { ClosingKeepsMeaning }
{}

/// A concrete heap that meets the program meets each of its closed rules.
pub fn closed_rules_are_met()
    ensures { ClosedRulesAreMet }
{}

/// The closed rules of small rules, written out.
pub fn samples_are_closed()
    ensures { Samples }
{}

/// The tests of the dropping say which variables stand free and which in the head.
pub fn tests_are_right()
    ensures { TestsAreRight }
{}

/// A swap is of one conjunct, and leaves the others as they are.
pub fn swaps_are_of_conjuncts()
    ensures { SwapsAreOfConjuncts }
{}

/// The closed rules of a valid program are valid rules over its vocabulary.
pub fn closed_rules_are_rules()
    ensures { ClosedRulesAreRules }
{}

/// The value of a formula is Yes exactly where those of its conjuncts are, and its conjuncts ask for no more
/// than it does.
pub fn conjuncts_carry_formulas()
    ensures { ConjunctsCarryFormulas }
{}

/// Where a predicate has the values of its definition, a structure is stable under the rules of that.
pub fn defined_values_are_stable()
    ensures { DefinedValuesAreStable }
{}
