//! Rows of abstract steps.

mod budgets;
mod rows;
mod stepped;
