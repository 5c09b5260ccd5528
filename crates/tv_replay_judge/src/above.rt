//! The first structure of a list in which a heap embeds.

ghost use Rattle.std.specs.Prelude.{◌≡◌, ◌<◌, ◌^◌, All, IfOk, length};
ghost use Rattle.tv_listing.specs.ListingForm.{at_node};
ghost use Rattle.tv_structure_form.specs.StructureForm.{IsStructure, arities_of};
ghost use Rattle.tv_two_valued.specs.TwoValued.{IsTwoValued};
ghost use Rattle.tv_replay_laws.specs.Above.{IsFirstAbove};

use std::alloc::{AllocError, Global};
use tv_embed::find;
use tv_listing::Listing;
use tv_replay_laws::ListedCover;
use tv_struct::Structure;

/// The first of the structures in which the heap that `s` stands for embeds, with its least map; none where
/// it embeds in none.
pub fn first_above(
    alloc: Global,
    s: &Structure,
    structures: &[Structure],
) -> Result<Option<ListedCover>, AllocError>
    requires heap { IsStructure s.now × IsTwoValued s.now }
    requires vocabulary { All (λ t. arities_of s.now ≡ arities_of t) structures.now }
    requires few { length structures.now < 2 ^ 32 }
    ensures { IfOk result (IsFirstAbove s.now structures.now) }
{
    for (place, t) in structures.iter().enumerate() {
        if let Some(map) = find(alloc, s, t)? {
            return Ok(Some(ListedCover {
                structure: place as u32,
                map,
            }));
        }
    }
    Ok(None)
}

/// The first of the structures listed at the node in which the heap that `s` stands for embeds, with its
/// least map; none where it embeds in none.
pub fn first_listed(
    alloc: Global,
    s: &Structure,
    listing: &Listing,
    node: u32,
) -> Result<Option<ListedCover>, AllocError>
    requires heap { IsStructure s.now × IsTwoValued s.now }
    requires node { node < length listing.now }
    requires vocabulary { All (λ t. arities_of s.now ≡ arities_of t) (at_node listing.now node) }
    requires few { length (at_node listing.now node) < 2 ^ 32 }
    ensures { IfOk result (IsFirstAbove s.now (at_node listing.now node)) }
{
    for place in 0..listing.count(node) {
        if let Some(map) = find(alloc, s, listing.at(node, place))? {
            return Ok(Some(ListedCover {
                structure: place as u32,
                map,
            }));
        }
    }
    Ok(None)
}
