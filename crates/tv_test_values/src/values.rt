//! Rows of values of formulas, one by one and at once.

mod chain;
mod formulas;
mod setting;
mod values;
