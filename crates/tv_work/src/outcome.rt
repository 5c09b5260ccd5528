//! How an analysis ends.

use tv_listing::{Analysis, Listing};

/// How an analysis ends: with all that is reached, or with what was listed up to the first structure that was
/// more than allowed.
#[derive(Drop)]
pub enum Outcome {
    Finished(Analysis),
    Stopped(Listing),
}
