//! The joined analysis.

ghost use Rattle.std.specs.Prelude.{◌≡◌, ◌≤◌, ◌<◌, ◌^◌, [], ℕ, All, IfOk, IfErr, length};
ghost use Rattle.tv_listing.specs.ListingForm.{AreSorted};
ghost use Rattle.tv_model.specs.Program.{pred_of, program_of};
ghost use Rattle.tv_model.specs.Valid.{IsValid};
ghost use Rattle.tv_structure_form.specs.StructureForm.{IsStructure, IsOver};
ghost use Rattle.tv_step_laws.specs.Closed.{IsClosed, CoversRuns};
ghost use Rattle.tv_work.specs.Told.{AreLines};
ghost use Rattle.tv_join.specs.Flags.{is_counted, key_flags};
ghost use Rattle.tv_join.specs.Joined.{IsJoined, IsJoinCause};
ghost use Rattle.tv_join.specs.State.{listing_of};

use crate::keyed::KeyedTask;
use crate::rounds::{Ended, all_rounds};
use std::alloc::{AllocError, Global};
use tv_listing::Analysis;
use tv_model::{Mode, Pred, Program};
use tv_step::Stepper;
use tv_struct::Structures;
use tv_work::{Task, WorkError, analysis_of, leaving_edges};

/// For each predicate whether it counts for keys: it is nullary, or individuals are told apart by it.
fn key_flags(alloc: Global, program: &Program) -> Result<Vec<bool>, AllocError>
    ensures { IfOk result (λ flags. flags.items ≡ key_flags (program_of program.now)) }
{
    let mut flags = Vec::new(alloc);
    for pred in program.vocab.preds.as_slice() {
        flags.push(is_counted(pred))?;
    }
    Ok(flags)
}

fn is_counted(pred: &Pred) -> bool
    ensures { result ≡ is_counted (pred_of pred.now) }
{
    pred.arity == 0 || (pred.arity == 1 && pred.abs)
}

/// What was listed, in order, with a line for each message that may be true.
fn answer(alloc: Global, ended: Ended) -> Result<Analysis, AllocError>
    requires few { length ended.joins.nodes < 2 ^ 32 }
    requires edges { length ended.told ≤ 16384 }
    ensures listing { IfOk result (λ a. AreSorted (listing_of ended.joins.nodes) a.listing) }
    ensures messages { IfOk result (λ a. AreLines ended.told a.messages) }
    ensures maps { IfOk result (λ a. a.maps ≡ []) }
{
    let Ended { joins, told } = ended;
    let listing = joins.into_listing(alloc)?;
    analysis_of(alloc, listing, told)
}

/// What the rounds of the joined analysis come to, and the messages that may be true there; it names no
/// maps. At most one structure is listed for a node and a key. The listing covers all runs, and isn't exact:
/// it may list what no abstract step reaches. `Structures` only where a round lists over `max` structures,
/// `Splits` and `Individuals` only where the step of a structure that a round lists meets that budget.
pub fn analyze_joined(
    alloc: Global,
    program: &Program,
    initial: &Structures,
    mode: Mode,
    max: u64,
) -> Result<Analysis, WorkError>
    requires valid { IsValid (program_of program.now) }
    requires initial { All (IsOver program.now.vocab) initial.now }
    ensures exact { IfOk result (λ a. IsJoined (program_of program.now) mode initial.now max a.listing
        a.messages) }
    ensures over { IfOk result (λ a. All (All (λ s. IsStructure s × IsOver program.now.vocab s)) a.listing) }
    ensures maps { IfOk result (λ a. a.maps ≡ []) }
    ensures closed { IfOk result (λ a. IsClosed (program_of program.now) mode initial.now a.listing
        a.messages) }
    ensures runs { IfOk result (λ a. CoversRuns (program_of program.now) mode initial.now a.listing
        a.messages) }
    ensures cause { IfErr result (IsJoinCause (program_of program.now) mode initial.now max) }
{
    let mut stepper = Stepper::new(alloc, program, mode)?;
    let leaving = leaving_edges(alloc, program)?;
    let counted = key_flags(alloc, program)?;
    let task = Task {
        alloc,
        program,
        leaving: &leaving,
        initial: initial.as_slice(),
        mode,
        max,
    };
    let keyed = KeyedTask {
        task,
        counted: &counted,
    };
    let ended = all_rounds(&keyed, &mut stepper)?;
    Ok(answer(alloc, ended)?)
}
