//! Words of stages without structures.

ghost use Rattle.std.specs.Prelude.{◌≡◌, ◌++◌, OnOk};
ghost use Rattle.tv_stages_text.specs.Texts.{each_from, for_text, picked_word, precondition_text};
ghost use Rattle.tv_stages_text.specs.Texts.{value_word};

use std::alloc::AllocError;
use tv_file_lines::append_numbered;
use tv_kleene::K3;
use tv_stages_laws::PickedUpdate;

/// A value as reports have it.
fn value_word(value: K3) -> &'static [u8]
    ensures { result.now ≡ value_word value }
{
    match value {
        K3::Yes => b"1",
        K3::Half => b"1/2",
        K3::No => b"0",
    }
}

/// Appends numbers of individuals.
fn append_individuals(out: &mut Vec<u8>, individuals: &[u32]) -> Result<(), AllocError>
    ensures { OnOk result
        (out.new.items ≡ out.old.items ++ each_from picked_word 0 individuals.now) }
{
    for k in 0..individuals.len() {
        append_numbered(out, b" #", individuals[k] as usize)?;
    }
    Ok(())
}

/// Appends for which individuals it is, if there are any.
fn append_for(out: &mut Vec<u8>, individuals: &[u32]) -> Result<(), AllocError>
    ensures { OnOk result (out.new.items ≡ out.old.items ++ for_text individuals.now) }
{
    if individuals.is_empty() {
        return Ok(());
    }
    out.extend_from_slice(b" for")?;
    append_individuals(out, individuals)
}

/// Appends the value of the precondition for picked individuals.
pub fn append_precondition(out: &mut Vec<u8>, pick: &PickedUpdate) -> Result<(), AllocError>
    ensures { OnOk result
        (out.new.items ≡ out.old.items ++ precondition_text pick.now.value pick.now.individuals) }
{
    out.extend_from_slice(b"stage     precondition is ")?;
    out.extend_from_slice(value_word(pick.value))?;
    append_for(out, pick.individuals.as_slice())?;
    out.extend_from_slice(b"\n")
}
