//! The analysis.

ghost use Rattle.std.specs.Prelude.{ℕ, ◌≡◌, ◌≤◌, [], length, replicate, All, IfOk, IfErr};
ghost use Rattle.tv_listing.specs.ListingForm.{AreSorted, at_node};
ghost use Rattle.tv_model.specs.Program.{program_of};
ghost use Rattle.tv_model.specs.Valid.{IsValid};
ghost use Rattle.tv_structure_form.specs.StructureForm.{IsStructure, IsOver};
ghost use Rattle.tv_step_laws.specs.Closed.{IsClosed, CoversRuns};
ghost use Rattle.tv_work.specs.Analyzed.{IsAnalysis, IsWorkCause};
ghost use Rattle.tv_work.specs.Explored.{IsExplored};
ghost use Rattle.tv_work.specs.Reach.{IsReached};
ghost use Rattle.tv_work.specs.Search.{IsOnce};
ghost use Rattle.tv_work.specs.Stopped.{IfCut, IfFinished, IfStopped, IfWhole, IsStepsCause, ListsPast};
ghost use Rattle.tv_work.specs.Stopped.{IsTaskStop};
ghost use Rattle.tv_work.specs.Task.{task_of, IsReady, reached_in};
ghost use Rattle.tv_work.specs.Told.{AreLines};

use crate::WorkError;
use crate::follow::{follow_all, open_all};
use crate::leaving::leaving_edges;
use crate::outcome::Outcome;
use crate::search::Search;
use crate::task::Task;
use crate::told::Told;
use std::alloc::{AllocError, Global};
use tv_listing::{Analysis, Listing};
use tv_model::{Items, Mode, Program};
use tv_step::Stepper;
use tv_struct::Structures;

/// What was listed, and what was told of messages.
#[derive(Drop)]
struct Found {
    listing: Listing,
    told: Told,
}

/// What was found, or what was listed up to the first structure that was more than allowed.
#[derive(Drop)]
enum Explored {
    Whole(Found),
    Cut(Listing),
}

/// Meets all that is reached, and tells the values of messages there.
fn reach(x: &Task, stepper: &mut Stepper, search: &mut Search) -> Result<Told, WorkError>
    requires ready { IsReady x.now stepper.old }
    requires fresh { search.old ≡ record {
      listing = replicate (length x.now.program.now.nodes) [];
      waiting = [];
      count = 0;
    } }
    ensures found { IfOk result (λ told. ((node : ℕ) → IsOnce (at_node search.new.listing node))
        → IsExplored (task_of x.now) search.new.listing told) }
    ensures cause { IfErr result (IsTaskStop (task_of x.now) search.new.listing) }
{
    let mut told = Told::new(x.alloc, x.program.edges.len())?;
    open_all(x, stepper, search)?;
    follow_all(x, stepper, search, &mut told)?;
    Ok(told)
}

/// All that is reached, in the order in which it was met, or what was met up to the first structure that is
/// more than allowed.
fn explore(x: &Task, stepper: &mut Stepper) -> Result<Explored, WorkError>
    requires { IsReady x.now stepper.old }
    ensures whole { IfOk result (IfWhole
        (λ found. IsExplored (task_of x.now) found.listing found.told)) }
    ensures cut { IfOk result
        (IfCut (ListsPast (program_of x.now.program.now) x.now.mode x.now.initial.now x.now.max)) }
    ensures cause { IfErr result
        (IsStepsCause (program_of x.now.program.now) (reached_in (task_of x.now))) }
{
    let mut search = Search::new(x.alloc, x.program.nodes.len() as u32)?;
    match reach(x, stepper, &mut search) {
        Ok(told) => Ok(Explored::Whole(Found {
            listing: search.into_listing(),
            told,
        })),
        Err(WorkError::Structures) => Ok(Explored::Cut(search.into_listing())),
        Err(error) => Err(error),
    }
}

/// The listing in order, with a line for each message that was told; it names no maps. The only error is want
/// of memory.
pub fn analysis_of(alloc: Global, listing: Listing, told: Told) -> Result<Analysis, AllocError>
    requires { length told ≤ 16384 }
    ensures listing { IfOk result (λ a. AreSorted listing a.listing) }
    ensures messages { IfOk result (λ a. AreLines told a.messages) }
    ensures maps { IfOk result (λ a. a.maps ≡ []) }
{
    Ok(Analysis {
        listing: listing.sorted()?,
        messages: told.lines(alloc)?,
        maps: Items::new(alloc),
    })
}

/// What was found, in order, with a line for each message that may be true.
fn answer(alloc: Global, found: Found) -> Result<Analysis, AllocError>
    requires { length found.told ≤ 16384 }
    ensures listing { IfOk result (λ a. AreSorted found.listing a.listing) }
    ensures messages { IfOk result (λ a. AreLines found.told a.messages) }
    ensures maps { IfOk result (λ a. a.maps ≡ []) }
{
    let Found { listing, told } = found;
    analysis_of(alloc, listing, told)
}

/// All that abstract steps reach from the openings of the initial structures, listed by node, and the
/// messages that may be true there; it names no maps. Where over `max` structures are reached, it stops, with
/// what it listed until then: one more than `max` of these, each of which is reached through listed ones.
/// `Structures` is never the error, `Splits` and `Individuals` are only where the step of a reached structure
/// meets that budget.
pub fn analyze_or_stop(
    alloc: Global,
    program: &Program,
    initial: &Structures,
    mode: Mode,
    max: u64,
) -> Result<Outcome, WorkError>
    requires valid { IsValid (program_of program.now) }
    requires initial { All (IsOver program.now.vocab) initial.now }
    ensures exact { IfOk result (IfFinished (λ a. IsAnalysis (program_of program.now) mode initial.now max
        a.listing a.messages)) }
    ensures over { IfOk result (IfFinished
        (λ a. All (All (λ s. IsStructure s × IsOver program.now.vocab s)) a.listing)) }
    ensures maps { IfOk result (IfFinished (λ a. a.maps ≡ [])) }
    ensures closed { IfOk result (IfFinished
        (λ a. IsClosed (program_of program.now) mode initial.now a.listing a.messages)) }
    ensures runs { IfOk result (IfFinished
        (λ a. CoversRuns (program_of program.now) mode initial.now a.listing a.messages)) }
    ensures stopped { IfOk result (IfStopped (ListsPast (program_of program.now) mode initial.now max)) }
    ensures cause { IfErr result (IsStepsCause (program_of program.now)
        (IsReached (program_of program.now) mode initial.now)) }
{
    let mut stepper = Stepper::new(alloc, program, mode)?;
    let leaving = leaving_edges(alloc, program)?;
    let task = Task {
        alloc,
        program,
        leaving: &leaving,
        initial: initial.as_slice(),
        mode,
        max,
    };
    match explore(&task, &mut stepper)? {
        Explored::Whole(found) => Ok(Outcome::Finished(answer(alloc, found)?)),
        Explored::Cut(listing) => Ok(Outcome::Stopped(listing)),
    }
}

/// All that abstract steps reach from the openings of the initial structures, listed by node, and the
/// messages that may be true there; it names no maps. `Structures` only where over `max` structures are
/// reached, `Splits` and `Individuals` only where the step of a reached structure meets that budget.
pub fn analyze(
    alloc: Global,
    program: &Program,
    initial: &Structures,
    mode: Mode,
    max: u64,
) -> Result<Analysis, WorkError>
    requires valid { IsValid (program_of program.now) }
    requires initial { All (IsOver program.now.vocab) initial.now }
    ensures exact { IfOk result (λ a. IsAnalysis (program_of program.now) mode initial.now max a.listing
        a.messages) }
    ensures over { IfOk result (λ a. All (All (λ s. IsStructure s × IsOver program.now.vocab s)) a.listing) }
    ensures maps { IfOk result (λ a. a.maps ≡ []) }
    ensures closed { IfOk result (λ a. IsClosed (program_of program.now) mode initial.now a.listing
        a.messages) }
    ensures runs { IfOk result (λ a. CoversRuns (program_of program.now) mode initial.now a.listing
        a.messages) }
    ensures cause { IfErr result (IsWorkCause (program_of program.now) max
        (IsReached (program_of program.now) mode initial.now)) }
{
    match analyze_or_stop(alloc, program, initial, mode, max)? {
        Outcome::Finished(found) => Ok(found),
        Outcome::Stopped(_) => Err(WorkError::Structures),
    }
}
