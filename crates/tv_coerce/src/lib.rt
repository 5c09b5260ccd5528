//! Coerce: the greatest stable structure below a structure, in which rules have made values definite (Sagiv,
//! Reps and Wilhelm 2002, section 6.4). What is stable is defined in `tv_stable_laws`.
#![tactic(auto)]

mod attempt;
mod change;
mod counting;
mod finding;
mod greatest;
mod laws;
mod lower;
mod narrow;
mod need;
mod noted;
mod places;
mod rule_set;
mod sharpen;
mod trial;

pub use greatest::{coerce, coerce_in_place};
pub use laws::{closed_rules_can_be_tried, coercing_is_determined, coercing_loses_no_heap};
pub use rule_set::RuleSet;
