//! Structures are opened and followed.

ghost use Rattle.std.specs.Prelude.{◌≡◌, ◌<◌, [], All, Contains, length, IfErr, OnOk};
ghost use Rattle.tv_listing.specs.ListingForm.{at_node};
ghost use Rattle.tv_work.specs.Leaving.{LeavesBy};
ghost use Rattle.tv_work.specs.Search.{Grows};
ghost use Rattle.tv_work.specs.Task.{task_of, IsReady};
ghost use Rattle.tv_work.specs.Explored.{IsSearchState, AreSaid, Advances, IsOpenedIn, AreDone, DoesAlong};
ghost use Rattle.tv_work.specs.Explored.{Does, KeepsListed};
ghost use Rattle.tv_work.specs.Stopped.{IsTaskStop};

use crate::WorkError;
use crate::search::{Search, Waiting};
use crate::task::Task;
use crate::told::Told;
use tv_step::Stepper;
use tv_struct::Structure;

/// Meets the opening of an initial structure at the start node, if it has one.
fn open(
    x: &Task,
    s: &Structure,
    stepper: &mut Stepper,
    search: &mut Search,
) -> Result<(), WorkError>
    requires ready { IsReady x.now stepper.old }
    requires initial { Contains x.now.initial.now s.now }
    requires kept { IsSearchState (task_of x.now) search.old }
    ensures kept { OnOk result (IsSearchState (task_of x.now) search.new) }
    ensures grows { OnOk result (Grows search.old search.new) }
    ensures opened { OnOk result (IsOpenedIn (task_of x.now) search.new.listing s.now) }
    ensures cause { IfErr result (IsTaskStop (task_of x.now) search.new.listing) }
    ensures same { stepper.new ≡ stepper.old }
{
    match stepper.opening(s)? {
        None => Ok(()),
        Some(t) => search.meet(0, t, x.max),
    }
}

/// Meets the openings of all initial structures at the start node.
pub fn open_all(x: &Task, stepper: &mut Stepper, search: &mut Search) -> Result<(), WorkError>
    requires ready { IsReady x.now stepper.old }
    requires kept { IsSearchState (task_of x.now) search.old }
    ensures kept { OnOk result (IsSearchState (task_of x.now) search.new) }
    ensures grows { OnOk result (Grows search.old search.new) }
    ensures opened { OnOk result (All (IsOpenedIn (task_of x.now) search.new.listing) x.now.initial.now) }
    ensures cause { IfErr result (IsTaskStop (task_of x.now) search.new.listing) }
    ensures same { stepper.new ≡ stepper.old }
{
    for s in x.initial {
        open(x, s, stepper, search)?;
    }
    Ok(())
}

/// Follows a listed structure along an edge: its results are met at the edge's target, and the values of
/// messages are noted.
fn follow_edge(
    x: &Task,
    w: Waiting,
    edge: u32,
    stepper: &mut Stepper,
    search: &mut Search,
    told: &mut Told,
) -> Result<(), WorkError>
    requires ready { IsReady x.now stepper.old }
    requires place { w.place < length (at_node search.old.listing w.node) }
    requires edge { LeavesBy x.now.program.now.edges w.node edge }
    requires kept { IsSearchState (task_of x.now) search.old }
    requires said { AreSaid (task_of x.now) search.old.listing told.old }
    ensures kept { OnOk result (IsSearchState (task_of x.now) search.new) }
    ensures said { OnOk result (AreSaid (task_of x.now) search.new.listing told.new) }
    ensures advances { OnOk result (Advances search.old told.old search.new told.new) }
    ensures done { OnOk result (DoesAlong (task_of x.now) w edge search.old search.new told.new) }
    ensures cause { IfErr result (IsTaskStop (task_of x.now) search.new.listing) }
    ensures same { stepper.new ≡ stepper.old }
{
    let to = x.program.edges.as_slice()[edge as usize].to;
    let out = stepper.stable_step(edge, search.at(w))?;
    told.note(edge, &out.messages)?;
    search.meet_all(to, out.results, x.max)
}

/// Follows a listed structure along each edge that leaves its node.
fn follow(
    x: &Task,
    w: Waiting,
    stepper: &mut Stepper,
    search: &mut Search,
    told: &mut Told,
) -> Result<(), WorkError>
    requires ready { IsReady x.now stepper.old }
    requires place { w.place < length (at_node search.old.listing w.node) }
    requires kept { IsSearchState (task_of x.now) search.old }
    requires said { AreSaid (task_of x.now) search.old.listing told.old }
    ensures kept { OnOk result (IsSearchState (task_of x.now) search.new) }
    ensures said { OnOk result (AreSaid (task_of x.now) search.new.listing told.new) }
    ensures advances { OnOk result (Advances search.old told.old search.new told.new) }
    ensures done { OnOk result (Does (task_of x.now) w search.old search.new told.new) }
    ensures cause { IfErr result (IsTaskStop (task_of x.now) search.new.listing) }
    ensures same { stepper.new ≡ stepper.old }
{
    for edge in x.leaving[w.node as usize].as_slice() {
        follow_edge(x, w, *edge, stepper, search, told)?;
    }
    Ok(())
}

/// Follows all that waits, and what is met by that, until nothing waits.
pub fn follow_all(
    x: &Task,
    stepper: &mut Stepper,
    search: &mut Search,
    told: &mut Told,
) -> Result<(), WorkError>
    requires ready { IsReady x.now stepper.old }
    requires kept { IsSearchState (task_of x.now) search.old }
    requires said { AreSaid (task_of x.now) search.old.listing told.old }
    requires done { AreDone (task_of x.now) search.old told.old }
    ensures kept { OnOk result (IsSearchState (task_of x.now) search.new) }
    ensures said { OnOk result (AreSaid (task_of x.now) search.new.listing told.new) }
    ensures listed { OnOk result (KeepsListed search.old.listing search.new.listing) }
    ensures done { OnOk result (AreDone (task_of x.now) search.new told.new) }
    ensures none { OnOk result (search.new.waiting ≡ []) }
    ensures cause { IfErr result (IsTaskStop (task_of x.now) search.new.listing) }
{
    while let Some(w) = search.pop() {
        follow(x, w, stepper, search, told)?;
    }
    Ok(())
}
