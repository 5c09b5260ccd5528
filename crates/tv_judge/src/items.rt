//! Items, and the maps that cover them.

ghost use Rattle.std.specs.Prelude.{◌≡◌, ◌<◌, ◌++◌, ◌∷◌, [], ◌↔◌, IsTrue, All, length, IfOk};
ghost use Rattle.std.specs.Prelude.{IfErr, IfSome, IfNone, IsSome, None, OnOk};
ghost use Rattle.tv_listing.specs.ListingForm.{at_node};
ghost use Rattle.tv_model.specs.Program.{program_of};
ghost use Rattle.tv_model.specs.Valid.{program_arities};
ghost use Rattle.tv_structure_form.specs.StructureForm.{arities_of};
ghost use Rattle.tv_step_laws.specs.Closed.{IsCovered};
ghost use Rattle.tv_cover.specs.Covers.{IsFirstCover};
ghost use Rattle.tv_judge.specs.Items.{Covers, IsMet, own_line};
ghost use Rattle.tv_judge.specs.Judged.{IsThere, demand_order, Covering};
ghost use Rattle.tv_judge.specs.Found.{IsStableIn, IsTestedTo};
ghost use Rattle.tv_judge.specs.Progress.{IsLineFor, IsStop, behind, rejection_for};
ghost use Rattle.tv_judge.specs.Setting.{IsReadyToJudge, case_in};

use crate::found::{Found, note_stable};
use crate::index::line_of;
use crate::setting::{Setting, Stop};
use std::alloc::{AllocError, Global};
use tv_embed::check_map;
use tv_listing::{Item, Listing, MapLine, MapLines, Rejection};
use tv_struct::{Numbers, Structure};

/// Whether the line's map embeds `s` in the structure of the node that the line names.
fn is_covered_by(listing: &Listing, node: u32, s: &Structure, line: &MapLine) -> bool
    requires node { node < length listing.now }
    requires vocabulary { All (λ t. arities_of s.now ≡ arities_of t) (at_node listing.now node) }
    ensures { IsTrue result ↔ Covers (at_node listing.now node) s.now line.now.target line.now.map }
{
    let target = line.target as usize;
    target < listing.count(node) && check_map(s, listing.at(node, target), line.map.as_slice())
}

/// A copy of the line.
fn copied(alloc: Global, line: &MapLine) -> Result<MapLine, AllocError>
    ensures { IfOk result (λ copy. copy ≡ line.now) }
{
    let map = line.map.as_slice().to_vec(alloc)?;
    Ok(MapLine {
        item: line.item,
        target: line.target,
        map: Numbers::from_vec(map),
    })
}

/// The first structure of the node in which `s` embeds, by its place, with the least embedding.
///
/// Even where `s` itself is listed, an earlier structure may cover it.
fn first_cover(x: &Setting, node: u32, s: &Structure) -> Result<Option<(u32, Numbers)>, AllocError>
    requires ready { IsReadyToJudge x.now }
    requires node { node < length x.now.analysis.now.listing }
    requires over { arities_of s.now ≡ program_arities (program_of x.now.program.now) }
    ensures some { IfOk result (λ found. IfSome found (λ y.
        IsFirstCover (at_node x.now.analysis.now.listing node) s.now y.0 y.1)) }
    ensures none { IfOk result
        (λ found. IfNone found (¬ IsCovered (at_node x.now.analysis.now.listing node) s.now)) }
{
    x.targets[node as usize].first_cover(x.alloc, s)
}

/// The line that the item is owed: a copy of its own, if the map of that is an embedding, or that of the
/// first cover where it has none of its own; none where the item isn't met.
fn owed_line(
    x: &Setting,
    item: Item,
    node: u32,
    s: &Structure,
) -> Result<Option<MapLine>, AllocError>
    requires ready { IsReadyToJudge x.now }
    requires node { node < length x.now.analysis.now.listing }
    requires over { arities_of s.now ≡ program_arities (program_of x.now.program.now) }
    ensures some { IfOk result (λ found. IfSome found (IsLineFor x.now.analysis.now.maps item
        (at_node x.now.analysis.now.listing node) s.now)) }
    ensures none { IfOk result (λ found. IfNone found (¬ IsMet x.now.analysis.now.maps item
        (at_node x.now.analysis.now.listing node) s.now)) }
{
    let Some(line) = line_of(x.lines, item) else {
        let found = first_cover(x, node, s)?;
        return Ok(found.map(|(target, map)| MapLine { item, target, map }));
    };
    if !is_covered_by(&x.analysis.listing, node, s, line) {
        return Ok(None);
    }
    Ok(Some(copied(x.alloc, line)?))
}

/// What the item is called where it isn't met.
fn rejection_of(item: Item) -> Rejection
    ensures { result ≡ rejection_for item }
{
    match item {
        Item::Initial(number) => Rejection::Initial(number),
        Item::Result {
            edge,
            structure,
            result,
        } => Rejection::Result {
            edge,
            structure,
            result,
        },
    }
}

/// Puts the line behind the others, where lines are asked for.
fn put_line(asked: bool, line: MapLine, lines: &mut MapLines) -> Result<(), AllocError>
    ensures { OnOk result (IsTrue asked → lines.new ≡ lines.old ++ line ∷ []) }
{
    if asked {
        lines.push(line)?;
    }
    Ok(())
}

/// Whether the item is met without a search: no lines are asked for, it has none of its own, and its
/// structure is listed.
fn is_plain(x: &Setting, item: Item, place: Option<u32>) -> bool
    requires { IsReadyToJudge x.now }
    ensures asked { IsTrue result → ¬ IsTrue x.now.asked }
    ensures own { IsTrue result → own_line x.now.analysis.now.maps item ≡ None }
    ensures listed { IsTrue result → IsSome place }
{
    !x.asked && place.is_some() && line_of(x.lines, item).is_none()
}

/// Tests the item whose structure is `s`, which is stable, and puts its line behind the others, where lines
/// are asked for. A structure that is listed is covered by itself, if by no other before.
pub fn test_item(
    x: &Setting,
    item: Item,
    node: u32,
    s: &Structure,
    found: &mut Found,
) -> Result<(), Stop>
    requires ready { IsReadyToJudge x.now }
    requires node { node < length x.now.analysis.now.listing }
    requires over { arities_of s.now ≡ program_arities (program_of x.now.program.now) }
    requires stable { IsStableIn (case_in x.now) s.now }
    requires there { IsThere (case_in x.now) item s.now (at_node x.now.analysis.now.listing node) }
    requires so_far { IsTestedTo (case_in x.now) x.now.asked (demand_order (Covering item)) found.old }
    ensures next { OnOk result (IsTestedTo (case_in x.now) x.now.asked (behind item) found.new) }
    ensures stop { IfErr result (IsStop (case_in x.now)) }
{
    let place = note_stable(x, node, s, found)?;
    if is_plain(x, item, place) {
        return Ok(());
    }
    match owed_line(x, item, node, s)? {
        None => Err(Stop::Rejected(rejection_of(item))),
        Some(line) => {
            put_line(x.asked, line, &mut found.maps)?;
            Ok(())
        }
    }
}
