//! Openings.

ghost use Rattle.std.specs.Prelude.{◌≡◌, IfOk, IfSome, IfNone, Some};
ghost use Rattle.tv_eval.specs.ScratchForm.{IsMadeFor};
ghost use Rattle.tv_model.specs.Program.{program_of};
ghost use Rattle.tv_model.specs.Valid.{IsValid};
ghost use Rattle.tv_rules.specs.Closing.{closed_rules};
ghost use Rattle.tv_rules.specs.EntryForms.{rules_of};
ghost use Rattle.tv_structure_form.specs.StructureForm.{StructureForm, IsOver};
ghost use Rattle.tv_step_laws.specs.Settled.{IsSettled};
ghost use Rattle.tv_step_laws.specs.Transfer.{IsOpening, HasNoOpening};
ghost use Rattle.tv_step.specs.Starts.{HasStarts};

use std::alloc::{AllocError, Global};
use tv_blur::into_blurred;
use tv_coerce::coerce;
use tv_eval::Scratch;
use tv_model::Program;
use tv_rules::Closed;
use tv_struct::Structure;

/// The opening of a structure: the greatest stable structure below it, blurred; none exactly where no stable
/// structure lies below. It is settled, and each heap of the program that embeds in the structure embeds in
/// it. The only error is lack of memory.
pub fn opening(
    alloc: Global,
    program: &Program,
    closed: &Closed,
    s: &Structure,
    scratch: &mut Scratch,
) -> Result<Option<Structure>, AllocError>
    requires valid { IsValid (program_of program.now) }
    requires closed { rules_of closed.now ≡ closed_rules (program_of program.now) }
    requires over { IsOver program.now.vocab s.now }
    requires scratch { IsMadeFor (program_of program.now) 256 scratch.old }
    ensures some { IfOk result (λ found. IfSome found (IsOpening (program_of program.now) s.now)) }
    ensures none { IfOk result (λ found. IfNone found (HasNoOpening (program_of program.now) s.now)) }
    ensures only { IfOk result (λ found. (t : StructureForm) → IsOpening (program_of program.now) s.now t
        → found ≡ Some t) }
    ensures settled { IfOk result (λ found. IfSome found (IsSettled (program_of program.now))) }
    ensures heaps { IfOk result (HasStarts (program_of program.now) s.now) }
    ensures scratch { scratch.new ≡ scratch.old }
{
    let _ = s.size();
    match coerce(alloc, closed, s, scratch)? {
        None => Ok(None),
        Some(t) => Ok(Some(into_blurred(alloc, &program.vocab, t)?)),
    }
}
