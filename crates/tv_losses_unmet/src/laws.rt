//! Laws of declarations that a structure contradicts. Each function does nothing of its own: its clauses are
//! what it shows.

ghost use Rattle.tv_losses_unmet.specs.Unmet.{UnmetLeavesNone};

/// A structure that contradicts a declaration alone contradicts the program.
pub fn unmet_leaves_none()
    ensures { UnmetLeavesNone }
{}
