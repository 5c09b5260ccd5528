//! Rows of coerce.

mod chains;
mod coerced;
mod rows;
