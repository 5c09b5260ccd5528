//! Tests of whole calls.
#![tactic(auto)]

#[cfg(test)]
mod calls;
