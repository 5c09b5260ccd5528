//! Keys that were seen, looked up by hash.

ghost use Rattle.std.specs.Prelude.{◌≡◌, ◌≢◌, AllPairs, Contains, IfOk, MatchOption, Some, slice_get};
ghost use Rattle.tv_report.specs.Once.{IsSeen};
ghost use Rattle.tv_tvs.specs.Views.{names_of};

use indexmap::IndexSet;
use std::alloc::{AllocError, Global};
use tv_listing::Item;
use tv_model::Bytes;

/// Names, each once; the number of a name is its place.
pub(crate) type NameSet<'a> = IndexSet<&'a [u8]>;

/// Edges, each with the number of a message of its action.
pub(crate) type Pairs = IndexSet<(u32, u32)>;

/// Items of maps.
pub(crate) type Keys = IndexSet<Item>;

/// Puts a name behind the others, unless it is among them, and answers whether it wasn't.
pub(crate) fn see_name<'a>(names: &mut NameSet<'a>, name: &'a [u8]) -> Result<bool, AllocError>
    ensures { IfOk result (IsSeen (names_of names.old.keys) (names_of names.new.keys) name.now) }
{
    let (_, new) = names.insert_full(name)?;
    Ok(new)
}

/// Puts an edge and a number behind the others, unless they are among them, and answers whether they weren't.
pub(crate) fn see_pair(pairs: &mut Pairs, pair: (u32, u32)) -> Result<bool, AllocError>
    ensures { IfOk result (IsSeen pairs.old.keys pairs.new.keys pair) }
{
    let (_, new) = pairs.insert_full(pair)?;
    Ok(new)
}

/// Puts an item behind the others, unless it is among them, and answers whether it wasn't.
pub(crate) fn see_item(items: &mut Keys, item: Item) -> Result<bool, AllocError>
    ensures { IfOk result (IsSeen items.old.keys items.new.keys item) }
{
    let (_, new) = items.insert_full(item)?;
    Ok(new)
}

/// The number of a name.
pub(crate) fn number_of(names: &NameSet<'_>, name: &[u8]) -> Option<usize>
    ensures { MatchOption result (¬ Contains (names_of names.now.keys) name.now)
        (λ n. slice_get (names_of names.now.keys) n ≡ Some name.now) }
{
    names.get_index_of(name)
}

/// Names of which no two are the same.
pub(crate) fn all_names(alloc: Global, names: &[Bytes]) -> Result<NameSet<'_>, AllocError>
    requires { AllPairs ◌≢◌ names.now }
    ensures { IfOk result (λ found. names_of found.keys ≡ names.now) }
{
    let mut found = IndexSet::new(alloc);
    for name in names {
        see_name(&mut found, name.as_slice())?;
    }
    Ok(found)
}
