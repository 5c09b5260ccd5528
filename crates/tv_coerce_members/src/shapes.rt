//! What trying the rules of a family goes by that doesn't depend on a structure.

ghost use Rattle.std.specs.Prelude.{IfOk};
ghost use Rattle.tv_coerce_members.specs.Members.{IsShapeOf, forms_of, numbers_of};

use crate::levels::{Levels, levels_of};
use crate::members::{Members, own_members};
use std::alloc::{AllocError, Global};
use tv_model::{Formula, Vars};

/// What trying a base rule, or a further rule of it, goes by.
#[derive(Debug, Drop)]
pub struct Shape {
    /// The variables that are free in the rule.
    pub variables: Vars,
    /// The conjuncts of the base rule's body, and the negation of its head behind them.
    pub members: Members,
    /// What is tested once all but so many of the variables before the last have individuals; one level where
    /// there is no variable.
    pub levels: Levels,
}

/// The shape of a rule with these variables and members. It takes memory for copies of the members.
pub fn lay_out(alloc: Global, variables: Vars, members: &[&Formula]) -> Result<Shape, AllocError>
    ensures { IfOk result (IsShapeOf (numbers_of variables) (forms_of members.now)) }
{
    let members = own_members(alloc, members, variables.as_slice())?;
    let levels = levels_of(alloc, members.as_slice(), variables.len().max(1))?;
    Ok(Shape {
        variables,
        members,
        levels,
    })
}
