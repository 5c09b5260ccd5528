//! The predicates that the actions of edges evaluate anew.

ghost use Rattle.std.specs.Prelude.{◌≡◌, [], IfOk, length, slice_index_or};
ghost use Rattle.tv_model.specs.Program.{program_of};
ghost use Rattle.tv_model.specs.Valid.{IsValid};
ghost use Rattle.tv_plan.specs.Orders.{ArePlansTo, is_held};

use std::alloc::{AllocError, Global};
use tv_model::{Mode, PredId, Program};
use tv_update::{Plan, order_of, plan_for};

/// For each edge, by number, the predicates that its action evaluates anew.
pub fn plans(alloc: Global, program: &Program, mode: Mode) -> Result<Vec<Plan>, AllocError>
    requires { IsValid (program_of program.now) }
    ensures { IfOk result (λ orders. ArePlansTo program.now mode (length program.now.edges) orders.items) }
{
    let order = order_of(alloc, program)?;
    let mut plans = Vec::with_capacity(alloc, program.edges.len())?;
    for edge in program.edges.as_slice() {
        plans.push(plan_for(alloc, program, &order, edge.action, mode)?)?;
    }
    Ok(plans)
}

/// The predicates of this number; none where there are none.
pub fn order_at(plans: &[Plan], number: usize) -> &[PredId]
    ensures { result.now ≡ slice_index_or plans.now number [] }
{
    match plans.get(number) {
        Some(plan) => plan.as_slice(),
        None => &[],
    }
}

/// Whether the predicate of this number is among these.
pub fn is_held(order: &[PredId], q: usize) -> bool
    ensures { result ≡ is_held order.now q }
{
    order.iter().any(|p| p.0 as usize == q)
}
