//! Focus as mathematics (Sagiv, Reps and Wilhelm 2002, section 6.3): the focus atoms of a formula, the
//! anchors by which they split a structure, the choices of an atom in their order, and the structure of a
//! choice. The definitions stand in `specs/`; the functions do nothing, and their contracts are the laws.
#![tactic(auto)]

mod laws;

pub use laws::{
    choices_are_counted, chosen_tables_show, examples_are_right, few_choices_have_few_halves,
    focus_loses_no_heap, lists_are_exact, splits_lose_no_heap, splits_show_choices,
    stage_tables_are_stage, stages_lose_no_heap, tables_lose_no_heap,
};
