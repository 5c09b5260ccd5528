//! Rows of analyses, of reports and traces that are read and refused, and of reports that are judged.

mod analyses;
mod analyzed;
mod budgets;
mod judged;
mod lines;
mod lists;
mod many;
mod read;
mod reports;
mod traced;
mod traces;
mod trails;
mod verdicts;
