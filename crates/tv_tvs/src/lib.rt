//! Texts of three-valued structures.
#![tactic(auto)]

mod build;
mod draft;
mod error;
mod individuals;
mod laws;
mod names;
mod numbers;
mod read;
mod row;
mod short;
mod syntax;
mod write;

pub use error::TvsError;
pub use laws::{one_reading, structures_are_read_again, valid_programs_fit};
pub use numbers::{write_number, write_numbers};
pub use read::{OneRead, StructureReader, read_one, read_tvs, skip_structure};
pub use tv_struct::Structures;
pub use write::{StructureWriter, write_tvs};
