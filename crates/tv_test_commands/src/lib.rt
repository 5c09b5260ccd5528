//! Rows of whole calls of the commands beside `analyze`, `check` and `demo`, over files and sinks in memory.
#![tactic(auto)]

#[cfg(test)]
mod delta;
#[cfg(test)]
mod join;
#[cfg(test)]
mod replay;
#[cfg(test)]
mod source;
