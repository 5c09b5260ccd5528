//! The syntax trees of programs, their printed form, and the texts of names.
#![tactic(auto)]

mod lines;
mod names;
mod print;
pub mod trees;

pub use lines::{print_edge, print_program};
pub use names::{is_among, name_text};
pub use trees::{
    ActionTree, ActionTrees, Decl, Decls, EdgeTree, EdgeTrees, FormulaTree, FormulaTrees, Name,
    Part, Parts, Piece, Pieces, PredDecl, PropWord, PropWords, RuleDecl, SetSign, SetStep, SetTerm,
    SetTree, Spelling, Spellings, Tree, UpdateTree, UpdateTrees,
};
pub use tv_model::Items;
