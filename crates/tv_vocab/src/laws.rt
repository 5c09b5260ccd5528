//! Laws of the definitions: functions that do nothing, and whose contracts are the laws.

ghost use Rattle.tv_flat.specs.FlatForm.{FlatForm, IsFlat};
ghost use Rattle.tv_vocab.specs.Premise.{IsResolvable};
ghost use Rattle.tv_vocab.specs.Cycles.{CyclesAreFound, AcyclicHasRanks};
ghost use Rattle.tv_vocab.specs.Variables.{ItemsHave32Variables};

/// A cycle of definitions is found exactly where a predicate rests on itself, over one or more
/// steps from a predicate to one that its definition mentions.
pub fn cycles_are_found()
    ensures { CyclesAreFound }
{}

/// No predicate rests on itself exactly where predicates have ranks that fall from each one to
/// those that its definition mentions.
pub fn acyclic_definitions_have_ranks()
    ensures { AcyclicHasRanks }
{}

/// What expansion gives of a program that was read meets the premise of resolution.
#[tactic(auto, using(crate::proofs::Premises::flat_resolvable))]
pub fn flat_forms_are_resolvable()
    ensures { (f : FlatForm) → IsFlat f → IsResolvable f }
{}

/// An item of at most 32 variables isn't refused for their number, and one of more isn't resolved:
/// `TooManyVariables` comes exactly where there are more than 32 and no other refusal comes first. Each name
/// counts once; so do the variables that a step picks, each own variable of a definition or an update, the
/// two that all `p*` and `p+` of the item share, and the one that stands for the individual in a retain
/// formula where none but picked ones is free.
#[tactic(auto, using(crate::proofs::items::Rooms::items_have_room))]
pub fn items_have_32_variables()
    ensures { ItemsHave32Variables }
{}
