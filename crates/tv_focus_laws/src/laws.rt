//! Laws of focus: functions that do nothing, and whose contracts are the laws.

ghost use Rattle.tv_focus_laws.specs.Counts.{ChoicesAreCounted, FewChoicesHaveFewHalves};
ghost use Rattle.tv_focus_laws.specs.Tables.{TablesLoseNoHeap, SplitsShowChoices};
ghost use Rattle.tv_focus_laws.specs.Examples.{Examples};
ghost use Rattle.tv_focus_laws.specs.Written.{ChosenTablesShow, StageTablesAreStage};
ghost use Rattle.tv_focus_laws.specs.Exact.{ListsAreExact};
ghost use Rattle.tv_focus_laws.specs.Laws.{FocusLosesNoHeap, SplitsLoseNoHeap, StagesLoseNoHeap};

/// Each heap that embeds in a structure embeds in that of one of its choices.
pub fn focus_loses_no_heap()
    ensures { FocusLosesNoHeap }
{}

/// Each heap that embeds in a structure embeds in one of those that a split makes of it.
pub fn splits_lose_no_heap()
    ensures { SplitsLoseNoHeap }
{}

/// Each heap that embeds in a structure embeds in one of those of any focus atom of any formula.
pub fn stages_lose_no_heap()
    ensures { StagesLoseNoHeap }
{}

/// The number of choices, as far as 4,097, and the individuals of the largest, without the choices.
pub fn choices_are_counted()
    ensures { ChoicesAreCounted }
{}

/// There is at most one list of tables of a focus atom, and each heap of a table is one of one of these.
pub fn tables_lose_no_heap()
    ensures { TablesLoseNoHeap }
{}

/// A table that is split by a choice, with the values of its vectors, shows the structure of the choice.
pub fn splits_show_choices()
    ensures { SplitsShowChoices }
{}

/// Focus on small structures, worked out by hand: one summary, seven and eight of them, two individuals, the
/// sets of a summary with two unknown values, and a list with an anchor.
pub fn examples_are_right()
    ensures { Examples }
{}

/// Where there are at most 4,096 choices, no individual has many unknown values.
pub fn few_choices_have_few_halves()
    ensures { FewChoicesHaveFewHalves }
{}

/// A split table, in which the vectors' values are put one after the other, shows the structure of the
/// choice.
pub fn chosen_tables_show()
    ensures { ChosenTablesShow }
{}

/// The tables of a focus atom show its structures, where none is too large.
pub fn stage_tables_are_stage()
    ensures { StageTablesAreStage }
{}

/// The listed vectors, sets and choices are exactly those that agree with the values, each list in its order.
pub fn lists_are_exact()
    ensures { ListsAreExact }
{}
