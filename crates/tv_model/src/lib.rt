//! The model: vocabularies, formulas, programs, and what they mean over concrete heaps.
//!
//! The types here are what the front end answers and what the analysis reads. The definitions of
//! heap, truth, step and run stand in `specs/`, in classical two-valued logic alone.
#![tactic(auto)]

mod copies;
mod formula;
mod items;
mod laws;
mod program;
mod properties;
mod quantifiers;
mod walk;

pub use copies::{copy_bytes, copy_pred, copy_rule};
pub use formula::{Formula, Formulas, PredId, Terms, Var, Vars};
pub use items::{Bytes, Items, Names};
pub use laws::{Cover, runs_stay_covered, truth_is_kept, truth_is_local, valid_formulas_fit};
pub use program::{
    Action, Actions, Change, Edge, Edges, Head, Kind, Message, Messages, Mode, NO_PROPS, Pred,
    Preds, Program, Props, Retain, Rule, Rules, Update, Updates, Vocab,
};
pub use properties::push_properties;
pub use quantifiers::{Binding, bound_by};
pub use walk::{copy, depth, free, mentions, push_mentioned};
