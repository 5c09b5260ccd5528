//! The front end as one call: from the text of a program to the program.
#![tactic(auto)]

mod fault;
mod front;
mod laws;
mod understood;

pub use fault::ProgramFault;
pub use front::read_program;
pub use laws::{one_meaning, one_refusal, programs_are_read_again};
pub use understood::{Understood, understand};

#[cfg(test)]
mod tests;
