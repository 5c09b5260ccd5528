//! Programs of a small pointer language, once their names are known.
#![tactic(auto)]

mod source;

pub use source::{Assign, Block, FieldId, Source, Statement, Test, VarId};
