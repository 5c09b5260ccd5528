//! The texts of a demonstration program.

ghost use Rattle.std.specs.Prelude.{◌≡◌, ◌≤◌, IfOk};
ghost use Rattle.tv_demo.specs.Texts.{program_text, lists_text};

use crate::list::{actions, lists, predicates};
use crate::walks::{write_set, write_walks};
use std::alloc::{AllocError, Global};

/// A program's text, and that of the structures which it begins with.
#[derive(Debug, Drop)]
pub struct DemoTexts {
    pub program: Vec<u8>,
    pub initial: Vec<u8>,
}

/// The text of the program in which that many variables walk along a list, one after the other, and that of
/// the lists which it begins with.
///
/// # Errors
/// `AllocError` where memory ran out.
pub fn demo_texts(alloc: Global, number: u64) -> Result<DemoTexts, AllocError>
    requires some { 1 ≤ number }
    requires few { number ≤ 16 }
    ensures program { IfOk result (λ texts. texts.program.items ≡ program_text number) }
    ensures initial { IfOk result (λ texts. texts.initial.items ≡ lists_text) }
{
    let mut program = Vec::new(alloc);
    write_set(&mut program, number)?;
    program.extend_from_slice(predicates())?;
    program.extend_from_slice(b"%%\n")?;
    program.extend_from_slice(actions())?;
    program.extend_from_slice(b"%%\n")?;
    write_walks(&mut program, number)?;
    let initial = Vec::from_slice(alloc, lists())?;
    Ok(DemoTexts { program, initial })
}
