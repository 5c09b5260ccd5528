//! Rows of files, include lines, tokens and places, and of structures, tables and texts of structures,
//! through the public calls of the crates below.
#![tactic(auto)]

#[cfg(test)]
mod structures;
#[cfg(test)]
mod texts;
