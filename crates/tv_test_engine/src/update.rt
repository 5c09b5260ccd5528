//! Rows of what actions do to structures.

mod given;
mod limits;
mod rows;
