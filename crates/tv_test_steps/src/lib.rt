//! Rows of abstract steps and analyses, of reports and traces that are read and refused, and of reports that
//! are judged, through the public calls of the crates below.
#![tactic(auto)]

#[cfg(test)]
mod report;
#[cfg(test)]
mod step;
