//! What a precondition is asked in.

use tv_model::Action;
use tv_struct::Structure;

/// An action of a program, and a structure of which it is asked whether the action is enabled there.
#[derive(Clone, Copy)]
pub struct Case<'a, 'b> {
    pub action: &'a Action,
    pub from: &'b Structure,
}
