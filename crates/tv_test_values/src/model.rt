//! Rows of truth values, formulas, truth on heaps and steps between heaps. The verdicts were worked out by
//! hand.

mod formulas;
mod kleene;
mod reader;
mod steps;
mod truth;
