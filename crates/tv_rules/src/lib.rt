//! The closed rules of a program: its base rules, and what follows from each of them about one conjunct
//! of its body. Each holds in every heap that the program's rules hold in.
#![tactic(auto)]

mod base;
mod closed;
mod conjuncts;
mod defined;
mod entries;
mod laws;
mod mentioned;
mod moved;
mod shapes;
mod turns;
mod watch;

pub use closed::{Closed, close_rules};
pub use laws::{
    base_rules_are_met, closed_rules_are_met, closed_rules_are_rules, closing_keeps_meaning,
    conjuncts_carry_formulas, defined_values_are_stable, dropping_keeps_meaning,
    further_rules_follow, samples_are_closed, swaps_are_of_conjuncts, tests_are_right,
};
pub use watch::Numbers;
