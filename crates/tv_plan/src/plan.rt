//! The plan of a program: what becomes of each defined predicate along each edge.

ghost use Rattle.std.specs.Prelude.{◌≡◌, ◌++◌, IfOk, OnOk, length, slice_get};
ghost use Rattle.tv_model.specs.Program.{program_of};
ghost use Rattle.tv_model.specs.Valid.{IsValid};
ghost use Rattle.tv_plan.specs.Orders.{is_held_at};
ghost use Rattle.tv_plan.specs.Texts.{IsPlanText, edge_fates, edge_head_line, plan_lines};

use crate::fates::{Planned, append_fates};
use crate::orders::{order_at, plans};
use std::alloc::{AllocError, Global};
use tv_file_lines::append_numbered;
use tv_model::{Bytes, Mode, Program};
use tv_update::Plan;

/// A program in a mode, and for each edge the predicates that its action evaluates anew.
#[derive(Clone, Copy)]
struct Planning<'a> {
    program: &'a Program,
    mode: Mode,
    plans: &'a [Plan],
}

/// Appends the line of an edge.
fn append_head(out: &mut Vec<u8>, number: usize, head: &[u8]) -> Result<(), AllocError>
    ensures { OnOk result (out.new.items ≡ out.old.items ++ edge_head_line number head.now) }
{
    append_numbered(out, b"edge ", number)?;
    out.extend_from_slice(b"  ")?;
    out.extend_from_slice(head)?;
    out.extend_from_slice(b"\n")
}

/// Appends the lines of the predicates along the edge of this number.
fn append_along(out: &mut Vec<u8>, x: &Planning, number: usize) -> Result<(), AllocError>
    ensures { OnOk result
        (out.new.items ≡ out.old.items ++ edge_fates (program_of x.now.program.now) x.now.mode
        (is_held_at x.now.plans.now number) (slice_get (program_of x.now.program.now).edges number)) }
{
    let Some(edge) = x.program.edges.as_slice().get(number) else {
        return Ok(());
    };
    let Some(action) = x.program.actions.as_slice().get(edge.action as usize) else {
        return Ok(());
    };
    append_fates(
        out,
        &Planned {
            program: x.program,
            mode: x.mode,
            action,
            anew: order_at(x.plans, number),
        },
    )
}

/// Appends the edges by their heads, each with the lines of the predicates.
fn append_edges(out: &mut Vec<u8>, x: &Planning, heads: &[Bytes]) -> Result<(), AllocError>
    ensures { OnOk result
        (out.new.items ≡ out.old.items ++ plan_lines (program_of x.now.program.now) x.now.mode
        (is_held_at x.now.plans.now) 0 heads.now) }
{
    for number in 0..heads.len() {
        append_head(out, number, heads[number].as_slice())?;
        append_along(out, x, number)?;
    }
    Ok(())
}

/// The plan of a program in a mode, whose edges have these heads, in their order. Each edge stands in a line,
/// behind its number, and behind it a line for each defined predicate: `  r[n,x] updated: r[n,x](v) = ..`
/// with the update that is written, `  is[n] kept` where the action changes nothing that the definition
/// mentions, `  c[n] evaluated anew` where the definition gives the values.
///
/// # Errors
/// Lack of memory.
pub fn plan_text(
    alloc: Global,
    program: &Program,
    mode: Mode,
    heads: &[Bytes],
) -> Result<Vec<u8>, AllocError>
    requires { IsValid (program_of program.now) }
    ensures { IfOk result (λ text. IsPlanText (program_of program.now) mode heads.now text.items) }
{
    let plans = plans(alloc, program, mode)?;
    let planning = Planning {
        program,
        mode,
        plans: &plans,
    };
    let mut out = Vec::new(alloc);
    append_edges(&mut out, &planning, heads)?;
    Ok(out)
}
