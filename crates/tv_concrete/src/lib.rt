//! Plain programs and laws for the definitions of the model: evidence that they say what they should.
#![tactic(auto)]

mod enumerate;
mod fair;
mod heap_list;
mod laws;
mod properties;
mod rules;
mod setting;
mod shape;
mod step;
mod truth;

pub(crate) use enumerate::{put_tuple, tuples};
pub use fair::is_fair_through;
pub(crate) use heap_list::same;
pub use heap_list::{HeapList, Tuple, Values};
pub use laws::{at_least_one_is_concrete, at_most_one_is_concrete, truth_is_decided};
pub(crate) use properties::meets_all_properties;
pub(crate) use rules::{meets_program, meets_rules};
pub use setting::{Acting, Step};
pub(crate) use shape::{is_concrete, is_heap};
pub(crate) use step::{allows_change, find_update, is_core, steps_through};
pub use truth::holds;
