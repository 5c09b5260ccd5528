//! Which defined predicates an action changes, in an order in which they can be evaluated.

ghost use Rattle.std.specs.Prelude.{ℕ, ◌≡◌, ◌↔◌, ◌<◌, false, length, IsTrue, IfOk};
ghost use Rattle.tv_model.specs.Program.{program_of, action_of};
ghost use Rattle.tv_model.specs.Valid.{IsValid, IsAction};
ghost use Rattle.tv_update_laws.specs.Applied.{kind_at, moves_individuals};
ghost use Rattle.tv_update.specs.Applying.{IsPlanOf};
ghost use Rattle.tv_update.specs.Plan.{IsPlanFor, is_set, IsDefined, AreUpdated, AreWaiting};
ghost use Rattle.tv_update.specs.Update.{action_at};

use crate::application::Application;
use crate::draft::{Draft, moves, settle_hinted, settle_rest};
use crate::updates::counts;
use std::alloc::{AllocError, Global};
use tv_eval::Assignment;
use tv_model::{Action, Items, Kind, Mode, PredId, Program};

/// The defined predicates of a program, each behind those that its definition rests on.
pub type Order = Items<PredId>;

/// The predicates whose definitions an action evaluates anew, in an order in which they can be: each
/// rests on none behind it.
pub type Plan = Items<PredId>;

/// The flags of the predicates with an update that counts.
fn updated_flags(alloc: Global, applied: &Application) -> Result<Vec<bool>, AllocError>
    requires { IsAction (program_of applied.now.program.now) (action_of applied.now.action.now) }
    ensures { IfOk result (λ flags. AreUpdated (program_of applied.now.program.now) applied.now.mode
        (action_of applied.now.action.now) flags.items) }
{
    let mut flags = vec![in alloc; false; applied.program.vocab.preds.len()]?;
    let updates = applied.action.updates.as_slice();
    for w in updates {
        flags[w.pred.0 as usize] = counts(applied.program, applied.mode, w.pred);
    }
    Ok(flags)
}

fn is_defined(program: &Program, p: usize) -> bool
    requires { p < length program.now.vocab.preds }
    ensures { IsTrue result ↔ IsDefined (kind_at (program_of program.now) p) }
{
    matches!(program.vocab.preds.as_slice()[p].kind, Kind::Defined { .. })
}

/// The flags of those that have a definition and aren't changed yet.
fn waiting_flags(
    alloc: Global,
    program: &Program,
    changed: &[bool],
) -> Result<Vec<bool>, AllocError>
    requires { length changed.now ≡ length program.now.vocab.preds }
    ensures { IfOk result (λ flags. AreWaiting (program_of program.now) changed.now flags.items) }
{
    let mut flags = Vec::with_capacity(alloc, changed.len())?;
    for p in 0..changed.len() {
        flags.push(!changed[p] && is_defined(program, p))?;
    }
    Ok(flags)
}

/// Whether none of the flags is set.
fn are_clear(flags: &[bool]) -> bool
    ensures { IsTrue result → (q : ℕ) → is_set flags.now q ≡ false }
{
    for flag in flags {
        if *flag {
            return false;
        }
    }
    true
}

/// Whether no individual comes or goes, and none of the flags is set.
fn changes_nothing(action: &Action, changed: &[bool]) -> bool
    ensures stays { IsTrue result → moves_individuals (action_of action.now) ≡ false }
    ensures clear { IsTrue result → (q : ℕ) → is_set changed.now q ≡ false }
{
    !moves(action) && are_clear(changed)
}

/// The predicates whose definitions are evaluated anew, in an order in which they can be: each
/// rests on none behind it. They are those without an update that counts whose definition mentions
/// a changed predicate, or all, where individuals may come or go. They are looked for in the order of the
/// hint, and then in any.
pub fn changed_definitions(
    alloc: Global,
    applied: &Application,
    hint: &[PredId],
) -> Result<Vec<PredId>, AllocError>
    requires valid { IsValid (program_of applied.now.program.now) }
    requires action { IsAction (program_of applied.now.program.now)
        (action_of applied.now.action.now) }
    ensures { IfOk result (λ order. IsPlanOf applied.now order.items) }
{
    let changed = updated_flags(alloc, applied)?;
    if changes_nothing(applied.action, changed.as_slice()) {
        return Ok(Vec::new(alloc));
    }
    let waiting = waiting_flags(alloc, applied.program, changed.as_slice())?;
    let mut draft = Draft {
        waiting,
        changed,
        plan: Vec::new(alloc),
    };
    settle_hinted(applied, hint, &mut draft)?;
    settle_rest(applied, &mut draft)?;
    let Draft { plan, .. } = draft;
    Ok(plan)
}

/// The plan of an action of the program in a mode, for any structure and any individuals that are picked:
/// those without an update that counts whose definition mentions a changed predicate, or all, where
/// individuals may come or go. By an order of the program's definitions, of which no clause speaks, it takes
/// no longer than reading these.
pub fn plan_for(
    alloc: Global,
    program: &Program,
    order: &Order,
    action: u32,
    mode: Mode,
) -> Result<Plan, AllocError>
    requires valid { IsValid (program_of program.now) }
    requires action { action < length program.now.actions }
    ensures { IfOk result (IsPlanFor (program_of program.now) mode (action_at program.now action)) }
{
    let applied = Application {
        program,
        action: &program.actions.as_slice()[action as usize],
        mode,
        picks: &Assignment::new(),
    };
    let plan = changed_definitions(alloc, &applied, order.as_slice())?;
    Ok(Plan::from_vec(plan))
}
