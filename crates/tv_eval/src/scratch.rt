//! The room that evaluation needs.

ghost use Rattle.std.specs.Prelude.{◌≡◌, All, IfOk, length, replicate};
ghost use Rattle.tv_model.specs.Program.{program_of};
ghost use Rattle.tv_eval.specs.Formulas.{sizes_of};
ghost use Rattle.tv_eval.specs.ScratchForm.{IsMadeFor};

use crate::kept::PLACES;
use std::alloc::{AllocError, Global};
use std::marker::Model;
use std::mem;
use tv_model::Program;
use tv_quantifiers::{Relation, program_height};

/// How much higher than the program's highest formula a formula may be. Fewer closures stand inside one
/// another than a formula is high.
const SPARE_LEVELS: usize = 4;

/// Room for evaluation: a relation for each closure of those that stand inside one another, and some for
/// closures that are kept while a formula is evaluated.
#[derive(Drop)]
pub struct Scratch {
    alloc: Global,
    rooms: Vec<Relation>,
    shared: Vec<Relation>,
    size: u32,
}

impl Model for Scratch {
    ghost use Rattle.std.specs.Prelude.{◌≡◌, length, All};
    ghost use Rattle.tv_eval.specs.Formulas.{sizes_of};
    ghost use Rattle.tv_eval.specs.ScratchForm.{ScratchForm};

    ghost Value = { ScratchForm };

    ghost view = { λ s. record { levels = length s.rooms.items; size = s.size } };

    ghost invariant = { λ s. All (λ room. room ≡ s.size) (sizes_of s.rooms.items) };
}

impl Scratch {
    /// Room for structures of up to `size` individuals, and for every formula that is at most four higher
    /// than the highest of the program.
    pub fn new(alloc: Global, program: &Program, size: u32) -> Result<Scratch, AllocError>
        ensures { IfOk result (IsMadeFor (program_of program.now) size) }
    {
        let height = program_height(program);
        if height > usize::MAX - SPARE_LEVELS {
            return Err(AllocError);
        }
        Scratch::with_levels(alloc, height + SPARE_LEVELS, size)
    }

    fn with_levels(alloc: Global, levels: usize, size: u32) -> Result<Scratch, AllocError>
        ensures { IfOk result (λ s. s ≡ record { levels = levels; size = size }) }
    {
        let rooms = relations(alloc, levels, size)?;
        let shared = relations(alloc, PLACES, size)?;
        Ok(Scratch {
            alloc,
            rooms,
            shared,
            size,
        })
    }

    /// The rooms, the relations for closures that are kept, and their size; none are left here.
    pub(crate) fn take(&mut self) -> (Vec<Relation>, Vec<Relation>, u32)
        ensures form { record { levels = length result.0.items; size = result.2 } ≡ self.old }
        ensures sizes { All (λ room. room ≡ result.2) (sizes_of result.0.items) }
    {
        let rooms = mem::replace(&mut self.rooms, Vec::new(self.alloc));
        let shared = mem::replace(&mut self.shared, Vec::new(self.alloc));
        (rooms, shared, self.size)
    }

    /// Has these relations instead of its own.
    pub(crate) fn give(&mut self, rooms: Vec<Relation>, shared: Vec<Relation>, size: u32)
        requires { All (λ room. room ≡ size) (sizes_of rooms.items) }
        ensures { self.new ≡ record { levels = length rooms.items; size = size } }
    {
        self.rooms = rooms;
        self.shared = shared;
        self.size = size;
    }
}

/// So many relations of that size.
fn relations(alloc: Global, count: usize, size: u32) -> Result<Vec<Relation>, AllocError>
    ensures { IfOk result (λ rooms. sizes_of rooms.items ≡ replicate count size) }
{
    let mut rooms = Vec::new(alloc);
    for _ in 0..count {
        rooms.push(Relation::new(alloc, size as usize)?)?;
    }
    Ok(rooms)
}
