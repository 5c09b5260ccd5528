//! Phrases that the readers of programs, structures and reports share.
#![tactic(auto)]

mod error;
mod kinds;
mod laws;
mod lists;
mod numbers;
mod repeated;
mod tokens;

pub use error::{FormError, PhraseError, Read, SyntaxError};
pub use kinds::{Brackets, Item};
pub use laws::{decimal_numbers, identifiers};
pub use lists::{NamePhrase, name, optional_list, optional_list_in, pair, params, variables};
pub use numbers::{number, optional_numbers};
pub use repeated::{Part, all_parts};
pub use tokens::{
    after, begins_item, begins_string, begins_with, below, expect, identifier, is_spelled, string,
    unquoted, word,
};
