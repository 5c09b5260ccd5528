//! The values of messages that steps told, kept for each structure.

ghost use Rattle.std.specs.Prelude.{◌≡◌, ◌<◌, [], IfOk, IfSome, IfNone, OnOk, length, replicate};
ghost use Rattle.std.specs.Prelude.{slice_index_or};
ghost use Rattle.tv_join.specs.Values.{values_at, ChangesAlong, ChangesPlace, AreValuesAsBefore};

use std::alloc::{AllocError, Global};
use std::marker::Model;
use tv_model::Items;
use tv_step::Values;

/// The values of an edge's messages at the structures of its source, by place; there may be fewer than
/// structures, and where there are none, none were told.
#[derive(Drop)]
struct ValuesByPlace {
    places: Vec<Values>,
}

impl Model for ValuesByPlace {
    ghost use Rattle.std.specs.Prelude.{List};
    ghost use Rattle.tv_kleene.specs.declared.K3.{K3};

    ghost Value = { List (List K3) };

    ghost view = { λ r. r.places.items };
}

impl ValuesByPlace {
    /// No values; takes no memory.
    fn new(alloc: Global) -> ValuesByPlace
        ensures { result ≡ [] }
    {
        ValuesByPlace {
            places: Vec::new(alloc),
        }
    }

    /// Puts the values at the place, in place of those that stood there.
    fn put(&mut self, alloc: Global, place: usize, values: Values) -> Result<(), AllocError>
        ensures here { OnOk result (slice_index_or self.new place [] ≡ values) }
        ensures others { OnOk result (ChangesPlace place self.old self.new) }
    {
        if values.len() == 0 && self.places.len() <= place {
            return Ok(());
        }
        reach(alloc, &mut self.places, place)?;
        self.places[place] = values;
        Ok(())
    }

    /// The values at the place.
    fn get(&self, place: usize) -> Option<&Values>
        ensures some { IfSome result (λ values. values.now ≡ slice_index_or self.now place []) }
        ensures none { IfNone result (slice_index_or self.now place [] ≡ []) }
    {
        self.places.get(place)
    }
}

/// Goes on with places without values until there is this one.
fn reach(alloc: Global, places: &mut Vec<Values>, place: usize) -> Result<(), AllocError>
    ensures long { OnOk result (place < length places.new.items) }
    ensures same { OnOk result (AreValuesAsBefore places.old.items places.new.items) }
{
    while places.len() <= place {
        places.push(Items::new(alloc))?;
    }
    Ok(())
}

/// For each edge the values of its messages at each structure of its source, as they were told when the
/// structure was followed last.
#[derive(Drop)]
pub(crate) struct MessageValues {
    rows: Vec<ValuesByPlace>,
}

impl Model for MessageValues {
    ghost use Rattle.std.specs.Prelude.{List};
    ghost use Rattle.tv_kleene.specs.declared.K3.{K3};

    ghost Value = { List (List (List K3)) };

    ghost view = { λ v. v.rows.items };
}

impl MessageValues {
    /// No values, for so many edges.
    pub fn new(alloc: Global, edges: usize) -> Result<MessageValues, AllocError>
        ensures { IfOk result (λ values. values ≡ replicate edges []) }
    {
        let mut rows = Vec::with_capacity(alloc, edges)?;
        for _ in 0..edges {
            rows.push(ValuesByPlace::new(alloc))?;
        }
        Ok(MessageValues { rows })
    }

    /// Keeps the values of the edge's messages at the structure with that place, in place of earlier ones.
    pub fn keep(
        &mut self,
        alloc: Global,
        edge: u32,
        place: usize,
        values: Values,
    ) -> Result<(), AllocError>
        requires { edge < length self.old }
        ensures here { OnOk result (values_at self.new edge place ≡ values) }
        ensures others { OnOk result (ChangesAlong edge place self.old self.new) }
    {
        let row = &mut self.rows[edge as usize];
        row.put(alloc, place, values)?;
        Ok(())
    }

    /// The values that are kept for the edge and the structure with that place.
    pub fn get(&self, edge: u32, place: usize) -> Option<&Values>
        requires { edge < length self.now }
        ensures some { IfSome result (λ values. values.now ≡ values_at self.now edge place) }
        ensures none { IfNone result (values_at self.now edge place ≡ []) }
    {
        self.rows[edge as usize].get(place)
    }
}
