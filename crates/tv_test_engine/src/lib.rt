//! Rows of focus, embeddings and blur, of closed rules, of coerce and of updates, through the public calls of
//! the crates below.
#![tactic(auto)]

#[cfg(test)]
mod coerce;
#[cfg(test)]
mod parts;
#[cfg(test)]
mod rules;
#[cfg(test)]
mod update;
