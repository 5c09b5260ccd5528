//! New structures, one for each choice of the individuals that stay.

ghost use Rattle.std.specs.Prelude.{◌≡◌, ◌∷◌, [], true, None, length, map, replicate, All, IfOk, OnOk};
ghost use Rattle.tv_model.specs.Program.{program_of};
ghost use Rattle.tv_structure_form.specs.StructureForm.{IsStructure};
ghost use Rattle.tv_update.specs.New.{CanFinish, IsFinished, AreFinished};

use crate::define::define_all;
use crate::kept::StayFlags;
use crate::rows::Rows;
use std::alloc::{AllocError, Global};
use tv_eval::Scratch;
use tv_model::{PredId, Program};
use tv_struct::{Structure, Structures};

/// How the structure of a choice is made: of the updated one, by the definitions that are evaluated
/// anew, in their order.
#[derive(Clone, Copy, Debug)]
pub struct Recipe<'a> {
    pub program: &'a Program,
    pub order: &'a [PredId],
    pub updated: &'a Structure,
}

/// The structure of a choice.
fn new_structure(
    alloc: Global,
    recipe: &Recipe,
    flags: &[bool],
    rows: &mut Rows,
    scratch: &mut Scratch,
) -> Result<Structure, AllocError>
    requires can { CanFinish recipe.now.program.now recipe.now.order.now recipe.now.updated.now
        scratch.old }
    requires flags { length flags.now ≡ recipe.now.updated.now.size }
    ensures finished { IfOk result (IsFinished (program_of recipe.now.program.now)
        (map (λ p. p.0) recipe.now.order.now) recipe.now.updated.now flags.now) }
    ensures scratch { scratch.new ≡ scratch.old }
{
    let mut t = recipe.updated.without(alloc, flags)?;
    rows.resize(t.size());
    define_all(recipe.program, recipe.order, &mut t, rows, scratch)?;
    Ok(t)
}

/// The structures of all choices, in order.
#[tactic(auto, using(crate::proofs::NewLaws::finished_more))]
pub fn new_structures(
    alloc: Global,
    recipe: &Recipe,
    choices: &[StayFlags],
    scratch: &mut Scratch,
) -> Result<Structures, AllocError>
    requires can { CanFinish recipe.now.program.now recipe.now.order.now recipe.now.updated.now
        scratch.old }
    requires flags { All (λ flags. length flags ≡ recipe.now.updated.now.size) choices.now }
    ensures structures { IfOk result (AreFinished (program_of recipe.now.program.now)
        (map (λ p. p.0) recipe.now.order.now) recipe.now.updated.now choices.now) }
    ensures scratch { scratch.new ≡ scratch.old }
{
    let mut rows = Rows::new(alloc, recipe.updated.size());
    let mut out = Structures::new(alloc);
    for flags in choices {
        out.push(new_structure(alloc, recipe, flags.as_slice(), &mut rows, scratch)?)?;
    }
    Ok(out)
}

/// Evaluates the definitions in the updated structure, where all individuals stay and none is marked.
pub fn finish_whole(
    alloc: Global,
    program: &Program,
    order: &[PredId],
    t: &mut Structure,
    scratch: &mut Scratch,
) -> Result<(), AllocError>
    requires can { CanFinish program.now order.now t.old scratch.old }
    requires unmarked { t.old.fresh ≡ None }
    ensures structures { OnOk result (AreFinished (program_of program.now) (map (λ p. p.0) order.now) t.old
        (replicate t.old.size true ∷ []) (t.new ∷ [])) }
    ensures scratch { scratch.new ≡ scratch.old }
{
    let _ = t.size();
    if order.is_empty() {
        return Ok(());
    }
    let mut rows = Rows::new(alloc, t.size());
    define_all(program, order, t, &mut rows, scratch)?;
    let _ = t.size();
    Ok(())
}

/// The updated structure alone, where all individuals stay and none is marked.
pub fn whole_structure(
    alloc: Global,
    program: &Program,
    order: &[PredId],
    updated: Structure,
    scratch: &mut Scratch,
) -> Result<Structures, AllocError>
    requires can { CanFinish program.now order.now updated scratch.old }
    requires unmarked { updated.fresh ≡ None }
    ensures structures { IfOk result (AreFinished (program_of program.now) (map (λ p. p.0) order.now) updated
        (replicate updated.size true ∷ [])) }
    ensures scratch { scratch.new ≡ scratch.old }
{
    let mut t = updated;
    finish_whole(alloc, program, order, &mut t, scratch)?;
    let mut only = Vec::with_capacity(alloc, 1)?;
    only.push(t)?;
    Ok(Structures::from_vec(only))
}
