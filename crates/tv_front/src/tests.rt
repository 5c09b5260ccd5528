//! Programs by their texts. A row is a text and, behind a tab, what comes of it.
mod expansion;
mod flat;
mod formulas;
mod limits;
mod resolution;
mod rows;
mod show;
mod trees;
