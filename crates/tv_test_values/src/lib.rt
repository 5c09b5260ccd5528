//! Rows of truth values, formulas, truth on heaps and steps between heaps, and of values of formulas in
//! structures, through the public calls of the crates below.
#![tactic(auto)]

#[cfg(test)]
mod model;
#[cfg(test)]
mod values;
