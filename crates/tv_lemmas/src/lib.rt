//! Lemmas on tests, options, lists and orderings that several crates cite and the standard library doesn't
//! state. There is no code; the lemmas stand in `proofs/`, one file for each type.
#![tactic(auto)]
