//! Laws of updates: functions that do nothing, and whose contracts are the laws.

ghost use Rattle.tv_update_laws.specs.Choices.{ChoicesAreExact};
ghost use Rattle.tv_update_laws.specs.Examples.{Examples};
ghost use Rattle.tv_update_laws.specs.Laws.{SomeChoiceHasHeap, UpdateLosesNoHeap, PreconditionPasses};
ghost use Rattle.tv_update_laws.specs.Laws.{OnlyPicksMatter, NewStructuresAreDetermined};
ghost use Rattle.tv_update_laws.specs.Laws.{EachChoiceHasNewStructure, ActionLosesNoHeap};
ghost use Rattle.tv_update_laws.specs.Tables.{TablesAreMiddle, TablesAreKept, GivenTablesAreOne};
ghost use Rattle.tv_update_laws.specs.Tables.{ChoicesAreCounted, OneMiddleIsAsGood};

/// Where a concrete heap embeds in a structure, each heap that a fair step of an action makes of it
/// embeds in the new structure of some choice of the individuals that stay.
pub fn some_choice_has_heap()
    ensures { SomeChoiceHasHeap }
{}

/// So it embeds in one of the structures that the action gives, one for each choice.
pub fn update_loses_no_heap()
    ensures { UpdateLosesNoHeap }
{}

/// Where there is such a step, the precondition isn't No under the individuals that are picked.
pub fn precondition_passes()
    ensures { PreconditionPasses }
{}

/// Where a concrete heap embeds in a structure, each heap that a fair step of an action makes of it
/// embeds in one of the structures that the action gives, under some picks that pass the precondition.
pub fn action_loses_no_heap()
    ensures { ActionLosesNoHeap }
{}

/// What an action gives depends only on what the picked variables stand for.
pub fn only_picks_matter()
    ensures { OnlyPicksMatter }
{}

/// The new structure of a choice is determined but for the names of its individuals.
pub fn new_structures_are_determined()
    ensures { NewStructuresAreDetermined }
{}

/// Each choice of the individuals that stay has a new structure.
pub fn each_choice_has_new_structure()
    ensures { EachChoiceHasNewStructure }
{}

/// A structure in tables, with a further individual where the action adds one, is a middle structure.
pub fn tables_are_middle()
    ensures { TablesAreMiddle }
{}

/// A structure in tables without some of its individuals has those that are kept.
pub fn tables_are_kept()
    ensures { TablesAreKept }
{}

/// The tables that an action gives are determined.
pub fn given_tables_are_one()
    ensures { GivenTablesAreOne }
{}

/// The listed choices are exactly those of the individuals that stay, each in their order.
pub fn choices_are_exact()
    ensures { ChoicesAreExact }
{}

/// How many choices of the individuals that stay there are, without the choices.
pub fn choices_are_counted()
    ensures { ChoicesAreCounted }
{}

/// Numbers of individuals and of choices are the same in each middle structure.
pub fn one_middle_is_as_good()
    ensures { OneMiddleIsAsGood }
{}

/// Updates of small structures, worked out by hand.
pub fn examples_are_right()
    ensures { Examples }
{}
