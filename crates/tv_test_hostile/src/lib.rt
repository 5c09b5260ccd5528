//! Tests of whole calls: rows of limits and options, calls outside that fail, and texts made to harm.
#![tactic(auto)]

#[cfg(test)]
mod call;
#[cfg(test)]
mod faults;
#[cfg(test)]
mod limits;
#[cfg(test)]
mod list;
#[cfg(test)]
mod malice;
#[cfg(test)]
mod rows;
#[cfg(test)]
mod writer;
