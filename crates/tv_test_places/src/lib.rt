//! Rows of programs with includes, and the lines of files in which their edges stand.
#![tactic(auto)]

#[cfg(test)]
mod places;
