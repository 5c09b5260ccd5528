//! Laws of coerce: functions that do nothing, and whose contracts are the laws.

ghost use Rattle.tv_coerce.specs.Laws.{ClosedRulesCanBeTried, CoercingIsDetermined, CoercingLosesNoHeap};

/// The closed rules of a valid program can be tried on structures over its vocabulary, with a scratch that
/// was made for it.
pub fn closed_rules_can_be_tried()
    ensures { ClosedRulesCanBeTried }
{}

/// What a structure coerces to is one, and a stable structure coerces to itself.
pub fn coercing_is_determined()
    ensures { CoercingIsDetermined }
{}

/// Each heap that meets the rules and embeds in a structure embeds in what that coerces to.
pub fn coercing_loses_no_heap()
    ensures { CoercingLosesNoHeap }
{}
