//! What the action of a program gives.

ghost use Rattle.std.specs.Prelude.{◌<◌, map, All, IsTrue, IsSomeAnd, length};
ghost use Rattle.tv_model.specs.Program.{program_of};
ghost use Rattle.tv_model.specs.Valid.{IsValid};
ghost use Rattle.tv_structure_form.specs.StructureForm.{IsOver};
ghost use Rattle.tv_eval.specs.AssignmentForm.{IsAssigned};

use std::alloc::Global;
use std::test::Fail;
use tv_eval::{Assignment, Scratch};
use tv_model::{Mode, Program, Var};
use tv_struct::{StageError, Structure, Structures};
use tv_update::update;

/// These variables stand for these individuals, digits in order.
fn picks_of(vars: &[Var], individuals: &str) -> Assignment {
    let mut picks = Assignment::new();
    for (v, digit) in vars.iter().zip(individuals.as_bytes()) {
        if v.0 < 32 {
            picks = picks.with(*v, u32::from(digit.saturating_sub(b'0')));
        }
    }
    picks
}

fn is_below(u: Option<u32>, size: u32) -> bool
    ensures { IsTrue result → IsSomeAnd u (λ u. u < size) }
{
    match u {
        None => false,
        Some(u) => u < size,
    }
}

/// Whether each of these variables stands for an individual of a structure of that size.
fn are_assigned(vars: &[Var], size: u32, picks: &Assignment) -> bool
    ensures { IsTrue result → All (IsAssigned size picks.now) (map (λ v. v.0) vars.now) }
{
    match vars {
        [] => true,
        [v, rest @ ..] => is_below(picks.get(*v), size) && are_assigned(rest, size, picks),
    }
}

/// What the program's first action gives from the structure, where its picked variables stand for these
/// individuals.
pub fn given(
    alloc: Global,
    program: &Program,
    mode: Mode,
    s: &Structure,
    individuals: &str,
) -> Result<Result<Structures, StageError>, Fail>
    requires valid { IsValid (program_of program.now) }
    requires over { IsOver program.now.vocab s.now }
{
    let actions = program.actions.as_slice();
    if actions.len() == 0 {
        return Err(Fail::new("no action"));
    }
    let vars = actions[0].picks.as_slice();
    let picks = picks_of(vars, individuals);
    if !are_assigned(vars, s.size(), &picks) {
        return Err(Fail::new("not picked"));
    }
    let mut scratch = Scratch::new(alloc, program, 256)?;
    Ok(update(alloc, program, 0, mode, s, &picks, &mut scratch))
}
