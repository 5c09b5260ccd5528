//! Shortest trails.

ghost use Rattle.std.specs.Prelude.{ℕ, ◌≡◌, ◌<◌, length, IfOk, IfErr, IfSome, IfNone, All};
ghost use Rattle.tv_model.specs.Program.{program_of};
ghost use Rattle.tv_model.specs.Valid.{IsValid};
ghost use Rattle.tv_structure_form.specs.StructureForm.{IsOver};
ghost use Rattle.tv_work.specs.Analyzed.{IsWorkCause};
ghost use Rattle.tv_work.specs.Reach.{Point, IsReached};
ghost use Rattle.tv_work.specs.Explored.{IsTaskCause};
ghost use Rattle.tv_work.specs.Task.{task_of, IsReady};
ghost use Rattle.tv_trail.specs.Asked.{goal_of};
ghost use Rattle.tv_trail.specs.Over.{IsTrailOver};
ghost use Rattle.tv_trail.specs.Reasons.{StaysWithin};
ghost use Rattle.tv_trail.specs.Searched.{IsState, AnswersTrail};
ghost use Rattle.tv_trail_laws.specs.Met.{IsTrailFrom};
ghost use Rattle.tv_trail_laws.specs.Trails.{IsShortest, IsGoal};

use crate::follow::open_all;
use crate::level::find;
use crate::quest::{Quest, Request};
use crate::search::Search;
use std::alloc::{AllocError, Global};
use tv_model::{Items, Mode, Program};
use tv_step::Stepper;
use tv_struct::Structures;
use tv_trail_laws::{Goal, Link, Origin, Trail};
use tv_work::{Task, WorkError, leaving_edges};

/// The trail to what was met at the place. The only error is lack of memory.
fn trail_to(x: &Task, search: &Search, place: usize) -> Result<Trail, AllocError>
    requires place { place < length search.now.found }
    requires kept { IsState (task_of x.now) search.now }
    ensures trail { IfOk result (IsTrailFrom (task_of x.now) search.now.found place) }
    ensures over { IfOk result (IsTrailOver x.now.program.now.vocab) }
{
    let mut links = Vec::new(x.alloc);
    let mut last = place;
    loop {
        let seen = search.at(last);
        let structure = seen.structure.copy(x.alloc)?;
        match seen.origin {
            Origin::Initial(initial) => {
                links.reverse();
                return Ok(Trail {
                    initial,
                    opening: structure,
                    links: Items::from_vec(links),
                });
            }
            Origin::Step { before, edge } => {
                links.push(Link { edge, structure })?;
                last = before;
            }
        }
    }
}

/// The trail to the goal.
fn search_for(x: &Quest, stepper: &mut Stepper) -> Result<Option<Trail>, WorkError>
    requires { IsReady x.now.task stepper.old }
    ensures answer { IfOk result (AnswersTrail (task_of x.now.task) (goal_of x.now)) }
    ensures over { IfOk result (λ found. IfSome found (IsTrailOver x.now.task.program.now.vocab)) }
    ensures cause { IfErr result (IsTaskCause (task_of x.now.task)) }
    ensures same { stepper.new ≡ stepper.old }
{
    let mut search = Search::new(x.task.alloc, x.task.program.nodes.len() as u32)?;
    open_all(&x.task, stepper, &mut search)?;
    match find(x, stepper, &mut search)? {
        None => Ok(None),
        Some(place) => Ok(Some(trail_to(&x.task, &search, place)?)),
    }
}

/// The trail that the stepper finds to a goal that is met in as few steps as any, if one is reached.
pub(crate) fn trail_by(
    stepper: &mut Stepper,
    x: &Request,
    goal: &Goal,
) -> Result<Option<Trail>, WorkError>
    requires stepper { stepper.old ≡ record { program = x.now.program.now; mode = x.now.mode } }
    requires valid { IsValid (program_of x.now.program.now) }
    requires initial { All (IsOver x.now.program.now.vocab) x.now.initial.now }
    ensures some { IfOk result (λ found. IfSome found (IsShortest (program_of x.now.program.now) x.now.mode
        x.now.initial.now (IsGoal (program_of x.now.program.now) goal.now))) }
    ensures none { IfOk result (λ found. IfNone found ((y : Point)
        → IsReached (program_of x.now.program.now) x.now.mode x.now.initial.now y
        → ¬ IsGoal (program_of x.now.program.now) goal.now y)) }
    ensures ends { IfOk result (λ found. IfNone found
        (StaysWithin (program_of x.now.program.now) x.now.mode x.now.initial.now x.now.max)) }
    ensures over { IfOk result (λ found. IfSome found (IsTrailOver x.now.program.now.vocab)) }
    ensures cause { IfErr result (IsWorkCause (program_of x.now.program.now) x.now.max
        (IsReached (program_of x.now.program.now) x.now.mode x.now.initial.now)) }
    ensures same { stepper.new ≡ stepper.old }
{
    let leaving = leaving_edges(x.alloc, x.program)?;
    let task = Task {
        alloc: x.alloc,
        program: x.program,
        leaving: &leaving,
        initial: x.initial.as_slice(),
        mode: x.mode,
        max: x.max,
    };
    let quest = Quest { task, goal: *goal };
    search_for(&quest, stepper)
}

/// The trail to a goal that is met in as few steps as any, none where no goal is reached. `Structures` only
/// where over `max` structures are reached, `Splits` and `Individuals` only where the step of a reached
/// structure meets that budget.
pub fn shortest_trail(
    alloc: Global,
    program: &Program,
    initial: &Structures,
    mode: Mode,
    max: u64,
    goal: &Goal,
) -> Result<Option<Trail>, WorkError>
    requires valid { IsValid (program_of program.now) }
    requires initial { All (IsOver program.now.vocab) initial.now }
    ensures some { IfOk result (λ found. IfSome found (IsShortest (program_of program.now) mode initial.now
        (IsGoal (program_of program.now) goal.now))) }
    ensures none { IfOk result (λ found. IfNone found ((x : Point)
        → IsReached (program_of program.now) mode initial.now x
        → ¬ IsGoal (program_of program.now) goal.now x)) }
    ensures over { IfOk result (λ found. IfSome found (IsTrailOver program.now.vocab)) }
    ensures cause { IfErr result (IsWorkCause (program_of program.now) max
        (IsReached (program_of program.now) mode initial.now)) }
{
    let mut stepper = Stepper::new(alloc, program, mode)?;
    let request = Request {
        alloc,
        program,
        initial,
        mode,
        max,
    };
    trail_by(&mut stepper, &request, goal)
}
