//! Rows of programs by their texts and their closed rules.

mod closing;
mod show;
