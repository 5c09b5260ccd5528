//! A shortest abstract run to the greatest value of a message, and what raises it at its end.

ghost use Rattle.std.specs.Prelude.{◌≡◌, ◌<◌, All, length, IfErr, IfNone, IfOk};
ghost use Rattle.std.specs.Prelude.{IfSome};
ghost use Rattle.tv_model.specs.Program.{program_of};
ghost use Rattle.tv_model.specs.Valid.{IsValid};
ghost use Rattle.tv_structure_form.specs.StructureForm.{IsOver};
ghost use Rattle.tv_trail.specs.Over.{IsTrailOver};
ghost use Rattle.tv_work.specs.Analyzed.{IsWorkCause};
ghost use Rattle.tv_work.specs.Reach.{IsReached};
ghost use Rattle.tv_trail.specs.Reasons.{StaysWithin, IsNeverRaised, IsRaisedBy, LeadsToGreatest};

use crate::cause::{Valued, cause_of};
use crate::quest::Request;
use crate::trail::trail_by;
use std::alloc::Global;
use tv_kleene::K3;
use tv_model::{Mode, Program};
use tv_step::Stepper;
use tv_struct::{Structure, Structures};
use tv_trail_laws::{Goal, Trail};
use tv_work::WorkError;

/// A trail to a structure for which a message has its greatest value, the value, and a structure at hand
/// there at which the message's condition has it.
#[derive(Debug, Drop)]
pub struct Raised {
    pub trail: Trail,
    pub value: K3,
    pub at_hand: Structure,
}

/// A shortest trail to the greatest value of the message, none where it is No at each reached structure.
/// First `Yes` is looked for, and then `Half`.
fn trail_to_greatest(
    stepper: &mut Stepper,
    x: &Request,
    edge: u32,
    number: u32,
) -> Result<Option<Valued>, WorkError>
    requires stepper { stepper.old ≡ record { program = x.now.program.now; mode = x.now.mode } }
    requires valid { IsValid (program_of x.now.program.now) }
    requires initial { All (IsOver x.now.program.now.vocab) x.now.initial.now }
    ensures some { IfOk result (λ found. IfSome found (λ valued. LeadsToGreatest
        (program_of x.now.program.now) x.now.mode x.now.initial.now edge number valued.trail valued.value)) }
    ensures none { IfOk result (λ found. IfNone found
        (IsNeverRaised (program_of x.now.program.now) x.now.mode x.now.initial.now edge number)) }
    ensures ends { IfOk result (λ found. IfNone found
        (StaysWithin (program_of x.now.program.now) x.now.mode x.now.initial.now x.now.max)) }
    ensures over { IfOk result (λ found. IfSome found
        (λ valued. IsTrailOver x.now.program.now.vocab valued.trail)) }
    ensures cause { IfErr result (IsWorkCause (program_of x.now.program.now) x.now.max
        (IsReached (program_of x.now.program.now) x.now.mode x.now.initial.now)) }
    ensures same { stepper.new ≡ stepper.old }
{
    let surely = Goal::Message {
        edge,
        number,
        value: K3::Yes,
    };
    if let Some(trail) = trail_by(stepper, x, &surely)? {
        return Ok(Some(Valued {
            trail,
            value: K3::Yes,
        }));
    }
    let maybe = Goal::Message {
        edge,
        number,
        value: K3::Half,
    };
    let Some(trail) = trail_by(stepper, x, &maybe)? else {
        return Ok(None);
    };
    Ok(Some(Valued {
        trail,
        value: K3::Half,
    }))
}

/// A shortest trail to a structure for which the message of this number among those of the edge's action has
/// its greatest value at reached structures, which a report tells, and a structure that coerce and focus
/// leave at hand there, at which the message's condition has it. None where the message is No at each reached
/// structure.
///
/// # Errors
/// `Structures` only where over `max` structures are reached, `Splits` and `Individuals` only where the step
/// of a reached structure meets that budget. Or memory ran out.
pub fn trail_to_message(
    alloc: Global,
    program: &Program,
    initial: &Structures,
    mode: Mode,
    max: u64,
    edge: u32,
    number: u32,
) -> Result<Option<Raised>, WorkError>
    requires valid { IsValid (program_of program.now) }
    requires initial { All (IsOver program.now.vocab) initial.now }
    requires edge { edge < length program.now.edges }
    ensures some { IfOk result (λ found. IfSome found (λ raised. IsRaisedBy (program_of program.now) mode
        initial.now edge number raised.trail raised.value raised.at_hand)) }
    ensures none { IfOk result (λ found. IfNone found
        (IsNeverRaised (program_of program.now) mode initial.now edge number)) }
    ensures ends { IfOk result (λ found. IfNone found
        (StaysWithin (program_of program.now) mode initial.now max)) }
    ensures over { IfOk result (λ found. IfSome found
        (λ raised. IsTrailOver program.now.vocab raised.trail)) }
    ensures at_hand { IfOk result (λ found. IfSome found
        (λ raised. IsOver program.now.vocab raised.at_hand)) }
    ensures cause { IfErr result (IsWorkCause (program_of program.now) max
        (IsReached (program_of program.now) mode initial.now)) }
{
    let mut stepper = Stepper::new(alloc, program, mode)?;
    let request = Request {
        alloc,
        program,
        initial,
        mode,
        max,
    };
    let Some(found) = trail_to_greatest(&mut stepper, &request, edge, number)? else {
        return Ok(None);
    };
    let Some(at_hand) = cause_of(&mut stepper, program, edge, number, &found)? else {
        return Ok(None);
    };
    Ok(Some(Raised {
        trail: found.trail,
        value: found.value,
        at_hand,
    }))
}
