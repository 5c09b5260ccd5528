//! Rows of structures, tables, texts and lines of structures.

mod lines;
mod nested;
mod reader;
mod structures;
mod tables;
mod texts;
