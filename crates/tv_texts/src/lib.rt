//! From files and texts to what they mean: programs, initial structures, heaps, traces, reports, source
//! programs.
#![tactic(auto)]

mod fault;
mod files;
mod laws;
mod source;
mod structures;
mod texts;

pub use fault::TextFault;
pub use files::{load_initial, load_program, load_report, load_source, load_start, load_trace};
pub use laws::one_meaning_each;
pub use source::{SourceText, load_source_text};
pub use structures::{StructuresText, load_structures_text};
pub use texts::{initial_in, program_in};
