//! All definitions, evaluated anew.

ghost use Rattle.std.specs.Prelude.{◌≡◌, map, IfOk, OnOk};
ghost use Rattle.tv_model.specs.Program.{action_of, program_of};
ghost use Rattle.tv_model.specs.Valid.{IsValid};
ghost use Rattle.tv_structure_form.specs.StructureForm.{IsOver};
ghost use Rattle.tv_eval.specs.ScratchForm.{IsMadeFor};
ghost use Rattle.tv_update.specs.Redefined.{AreAllDefined, IsRedefined, adding_action};

use crate::application::Application;
use crate::define::define_all;
use crate::order::likely_order;
use crate::plan::{Order, changed_definitions};
use crate::rows::Rows;
use std::alloc::{AllocError, Global};
use tv_eval::{Assignment, Scratch};
use tv_model::{Action, Items, Mode, PredId, Program};
use tv_struct::Structure;

/// An action that does nothing but add an individual: all definitions are then evaluated anew.
fn adding(alloc: Global) -> Action
    ensures { action_of result ≡ adding_action }
{
    Action {
        pre: None,
        picks: Items::new(alloc),
        focus: Items::new(alloc),
        messages: Items::new(alloc),
        fresh: true,
        retain: None,
        updates: Items::new(alloc),
    }
}

/// The predicates that have a definition, in an order in which each rests on none behind it. It is found in
/// the time that reading the definitions takes.
pub fn order_of(alloc: Global, program: &Program) -> Result<Order, AllocError>
    requires valid { IsValid (program_of program.now) }
    ensures { IfOk result (λ order. AreAllDefined (program_of program.now) (map (λ p. p.0) order)) }
{
    let likely = likely_order(alloc, program)?;
    let adding = adding(alloc);
    let applied = Application {
        program,
        action: &adding,
        mode: Mode::Recompute,
        picks: &Assignment::new(),
    };
    let order = changed_definitions(alloc, &applied, likely.as_slice())?;
    Ok(Order::from_vec(order))
}

/// Gives each predicate of `t` that has a definition the values of the definition in the structure that comes
/// of it, by an order of the definitions that `order_of` gives. All else stays. Where there is no memory, `t`
/// may be in between.
pub fn redefine(
    alloc: Global,
    program: &Program,
    order: &Order,
    t: &mut Structure,
    scratch: &mut Scratch,
) -> Result<(), AllocError>
    requires valid { IsValid (program_of program.now) }
    requires order { AreAllDefined (program_of program.now) (map (λ p. p.0) order.now) }
    requires over { IsOver program.now.vocab t.old }
    requires scratch { IsMadeFor (program_of program.now) 256 scratch.old }
    ensures redefined { OnOk result (IsRedefined (program_of program.now) t.old t.new) }
    ensures scratch { scratch.new ≡ scratch.old }
{
    let mut rows = Rows::new(alloc, t.size());
    define_all(program, order.as_slice(), t, &mut rows, scratch)
}
