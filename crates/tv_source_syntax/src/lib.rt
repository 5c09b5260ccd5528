//! Source programs of the small pointer language, read from their tokens. Names stay as they are written.
#![tactic(auto)]

mod assign;
mod depth;
mod laws;
mod source;
mod statements;
mod test;
mod tree;
mod words;

pub use laws::{one_source, one_statement};
pub use source::parse_source;
pub use tree::{AssignTree, BlockTree, NameTokens, SourceTree, StatementTree, TestTree};
