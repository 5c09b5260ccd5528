//! The nodes of a report, by the program's names, and their structures.

ghost use Rattle.std.specs.Prelude.{◌≡◌, ◌≢◌, ◌<◌, ◌≤◌, ◌++◌, ◌⊎◌, ℕ, List, [], true, All, AllPairs};
ghost use Rattle.std.specs.Prelude.{Contains, IfOk, IfErr, OnOk, Some, map, length, slice_get, slice_set};
ghost use Rattle.tv_lex.specs.Token.{text_of, spec_tokens};
ghost use Rattle.tv_listing.specs.ListingForm.{at_node};
ghost use Rattle.tv_model.specs.Program.{program_of};
ghost use Rattle.tv_model.specs.Valid.{IsValid};
ghost use Rattle.tv_phrases.specs.Reading.{GivesReading, Told};
ghost use Rattle.tv_structure_form.specs.StructureForm.{StructureForm};
ghost use Rattle.tv_tvs.specs.Reading.{structure_at};
ghost use Rattle.tv_tvs.specs.Targets.{IsRead};
ghost use Rattle.tv_tvs.specs.Views.{names_of};
ghost use Rattle.tv_report.specs.Meaning.{NamedNode, ListsNodes};
ghost use Rattle.tv_report.specs.Nodes.{AreRead, IsPut, CannotPut};
ghost use Rattle.tv_report.specs.Once.{IsSeen};
ghost use Rattle.tv_report.specs.Reading.{structures_at, marked_node};
ghost use Rattle.tv_report.specs.Views.{node_mark, node_marks};

use crate::names::{NameSet, all_names, number_of, see_name};
use crate::syntax::NodeText;
use indexmap::IndexSet;
use std::alloc::{AllocError, Global};
use tv_lex::{Token, text};
use tv_listing::Listing;
use tv_model::Program;
use tv_phrases::{PhraseError, Read};
use tv_struct::Structure;
use tv_tvs::StructureReader;

/// The number of a node that is the program's and wasn't named before; now it was.
fn new_number<'a, 'b>(
    names: &NameSet<'_>,
    seen: &mut NameSet<'b>,
    bytes: &'b [u8],
    node: &NodeText<'a>,
) -> Result<u32, PhraseError<'a>>
    requires few { length names.now.keys ≤ 4096 }
    ensures found { IfOk result
        (λ n. slice_get (names_of names.now.keys) n ≡ Some (text_of bytes.now node.now.name)) }
    ensures seen { IfOk result (λ n. IsSeen (names_of seen.old.keys) (names_of seen.new.keys)
        (text_of bytes.now node.now.name) true) }
    ensures fault { IfErr result
        (λ e. Told e ((¬ Contains (names_of names.now.keys) (text_of bytes.now node.now.name))
        ⊎ Contains (names_of seen.old.keys) (text_of bytes.now node.now.name))) }
{
    let name = text(bytes, &node.name);
    match number_of(names, name) {
        None => Err(PhraseError::Unexpected(node.here)),
        Some(number) => {
            if see_name(seen, name)? {
                Ok(number as u32)
            } else {
                Err(PhraseError::Unexpected(node.here))
            }
        }
    }
}

/// The structure that begins the tokens, and those behind it. One that is refused is told of by the
/// tokens of its node.
fn structure<'a>(
    alloc: Global,
    reader: &StructureReader<'_>,
    bytes: &[u8],
    tokens: &'a [Token],
    node: &'a [Token],
) -> Read<'a, Structure>
    ensures value { GivesReading (λ x. (x.0, spec_tokens bytes.now x.1.now)) result
        (structure_at reader.now (spec_tokens bytes.now tokens.now)) }
    ensures kept { IfOk result (λ x. IsRead reader.now x.0) }
{
    match reader.take_structure(alloc, bytes, tokens) {
        Ok(taken) => Ok(taken),
        Err(PhraseError::Memory) => Err(PhraseError::Memory),
        Err(PhraseError::Unexpected(_)) => Err(PhraseError::Unexpected(node)),
    }
}

/// The structures of a node.
fn structures<'a>(
    alloc: Global,
    reader: &StructureReader<'_>,
    bytes: &[u8],
    node: &NodeText<'a>,
) -> Result<Vec<Structure>, PhraseError<'a>>
    ensures value { GivesReading (λ x. x.items) result
        (structures_at reader.now node.now.count (spec_tokens bytes.now node.now.structures.now)) }
    ensures kept { IfOk result (λ x. AreRead reader.now x.items) }
{
    let mut list = Vec::new(alloc);
    let mut rest = node.structures;
    for _ in 0..node.count {
        let (found, behind) = structure(alloc, reader, bytes, rest, node.here)?;
        list.push(found)?;
        rest = behind;
    }
    Ok(list)
}

/// Puts structures behind those that are listed at a node.
fn list(listing: &mut Listing, node: u32, structures: Vec<Structure>) -> Result<(), AllocError>
    requires { node < length listing.old }
    ensures { OnOk result
        (listing.new ≡ slice_set listing.old node (at_node listing.old node ++ structures.items)) }
{
    for s in structures {
        listing.push(node, s)?;
    }
    Ok(())
}

/// Lists the structures of a node at its number.
fn put_node<'a, 'b>(
    alloc: Global,
    reader: &StructureReader<'_>,
    names: &NameSet<'_>,
    seen: &mut NameSet<'b>,
    listing: &mut Listing,
    bytes: &'b [u8],
    node: &NodeText<'a>,
) -> Result<(), PhraseError<'a>>
    requires few { length names.now.keys ≤ 4096 }
    requires nodes { length listing.old ≡ length names.now.keys }
    requires kept { All (AreRead reader.now) listing.old }
    requires empty { (number : ℕ)
        → slice_get (names_of names.now.keys) number ≡ Some (text_of bytes.now node.now.name) → ¬ Contains
        (names_of seen.old.keys) (text_of bytes.now node.now.name) → at_node listing.old number ≡ [] }
    ensures put { OnOk result (IsPut (names_of names.now.keys) (names_of seen.old.keys)
        (names_of seen.new.keys) listing.old listing.new
        (marked_node reader.now (node_mark bytes.now node.now))) }
    ensures kept { OnOk result (All (AreRead reader.now) listing.new) }
    ensures fault { IfErr result (λ e. Told e (CannotPut (names_of names.now.keys) (names_of seen.old.keys)
        (marked_node reader.now (node_mark bytes.now node.now)))) }
{
    let number = new_number(names, seen, bytes, node)?;
    let found = structures(alloc, reader, bytes, node)?;
    list(listing, number, found)?;
    Ok(())
}

/// The listing of nodes, each of which is the program's and stands there once.
pub(crate) fn listing<'a>(
    alloc: Global,
    program: &Program,
    bytes: &[u8],
    nodes: Vec<NodeText<'a>>,
) -> Result<Listing, PhraseError<'a>>
    requires valid { IsValid (program_of program.now) }
    ensures listed { IfOk result (ListsNodes program.now
        (map (marked_node program.now.vocab) (node_marks bytes.now nodes.entry.items))) }
    ensures kept { IfOk result (All (AreRead program.now.vocab)) }
    ensures fault { IfErr result (λ e. Told e ((l : List (List StructureForm)) → ¬ ListsNodes program.now
        (map (marked_node program.now.vocab) (node_marks bytes.now nodes.entry.items)) l)) }
{
    let reader = StructureReader::new(alloc, &program.vocab)?;
    let names = all_names(alloc, program.nodes.as_slice())?;
    let mut seen = IndexSet::new(alloc);
    let mut listing = Listing::new(alloc, program.nodes.len() as u32)?;
    for node in nodes {
        put_node(
            alloc,
            &reader,
            &names,
            &mut seen,
            &mut listing,
            bytes,
            &node,
        )?;
    }
    Ok(listing)
}
