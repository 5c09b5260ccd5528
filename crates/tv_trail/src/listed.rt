//! A shortest abstract run to a structure that an analysis lists.

ghost use Rattle.std.specs.Prelude.{◌≡◌, ◌<◌, ◌≤◌, All, Some, length, slice_get, IfErr, IfNone, IfOk, IfSome};
ghost use Rattle.tv_listing.specs.ListingForm.{at_node};
ghost use Rattle.tv_model.specs.Program.{program_of};
ghost use Rattle.tv_model.specs.Valid.{IsValid};
ghost use Rattle.tv_structure_form.specs.StructureForm.{IsOver};
ghost use Rattle.tv_trail.specs.Over.{IsTrailOver};
ghost use Rattle.tv_work.specs.Analyzed.{IsWorkCause};
ghost use Rattle.tv_work.specs.Reach.{IsReached};
ghost use Rattle.tv_trail.specs.Reasons.{HasNone, IsLedToBy};

use crate::trail::shortest_trail;
use std::alloc::Global;
use tv_listing::Listing;
use tv_model::{Mode, Program};
use tv_struct::{Structure, Structures};
use tv_trail_laws::{Goal, Trail};
use tv_work::{WorkError, analyze};

/// The structure at this place of the node, if there is one.
fn listed_at(listing: &Listing, node: u32, index: u32) -> Option<&Structure>
    requires { node < length listing.now }
    ensures some { IfSome result (λ s. slice_get (at_node listing.now node) index ≡ Some s.now) }
    ensures none { IfNone result (length (at_node listing.now node) ≤ index) }
{
    let index = index as usize;
    if index < listing.count(node) {
        Some(listing.at(node, index))
    } else {
        None
    }
}

/// A shortest trail to the structure that the analysis lists at this place of the node, none where it lists
/// none there.
///
/// # Errors
/// `Structures` only where over `max` structures are reached, `Splits` and `Individuals` only where the step
/// of a reached structure meets that budget. Or memory ran out.
pub fn trail_to_listed(
    alloc: Global,
    program: &Program,
    initial: &Structures,
    mode: Mode,
    max: u64,
    node: u32,
    index: u32,
) -> Result<Option<Trail>, WorkError>
    requires valid { IsValid (program_of program.now) }
    requires initial { All (IsOver program.now.vocab) initial.now }
    requires node { node < length program.now.nodes }
    ensures some { IfOk result (λ found. IfSome found
        (IsLedToBy (program_of program.now) mode initial.now max node index)) }
    ensures none { IfOk result (λ found. IfNone found
        (HasNone (program_of program.now) mode initial.now max node index)) }
    ensures over { IfOk result (λ found. IfSome found (IsTrailOver program.now.vocab)) }
    ensures cause { IfErr result (IsWorkCause (program_of program.now) max
        (IsReached (program_of program.now) mode initial.now)) }
{
    let found = analyze(alloc, program, initial, mode, max)?;
    let Some(structure) = listed_at(&found.listing, node, index) else {
        return Ok(None);
    };
    let goal = Goal::Structure { node, structure };
    shortest_trail(alloc, program, initial, mode, max, &goal)
}
