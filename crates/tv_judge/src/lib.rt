//! The checker: whether a report on a program is closed under the abstract steps of all that it lists.
#![tactic(auto)]

mod found;
mod index;
mod items;
mod laws;
mod setting;
mod steps;
mod verdict;

pub use laws::{closed_listings_are_closed_reports, closed_reports_are_accepted};
pub use verdict::{Verdict, first_unmet, judge};

/// What a report is rejected for.
pub use tv_listing::Rejection;
