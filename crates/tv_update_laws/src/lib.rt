//! What an action does to a structure, as mathematics: the structures that it gives, one for each choice
//! of the individuals that stay (compare Sagiv, Reps and Wilhelm 2002, sections 4.4 and 5), and the laws
//! about them. The definitions stand in `specs/`; the functions do nothing, and their contracts are the
//! laws.
#![tactic(auto)]

mod laws;

pub use laws::{
    action_loses_no_heap, choices_are_counted, choices_are_exact, each_choice_has_new_structure,
    examples_are_right, given_tables_are_one, new_structures_are_determined, one_middle_is_as_good,
    only_picks_matter, precondition_passes, some_choice_has_heap, tables_are_kept,
    tables_are_middle, update_loses_no_heap,
};
