//! What is told of the structures in a text: their individuals, and the predicates that they name.

ghost use Rattle.std.specs.Prelude.{◌≡◌, List, Ok, map, IfOk};
ghost use Rattle.tv_lex.specs.Token.{text_of, spec_tokens};
ghost use Rattle.tv_phrases.specs.Reading.{GivesReading};
ghost use Rattle.tv_tvs.specs.Grammar.{AreStructs, begins_name, begins_struct};
ghost use Rattle.tv_tvs.specs.Tree.{NameTree, StructTree, name_text};
ghost use Rattle.tv_tvs.specs.Views.{name_tree};
ghost use Rattle.tv_complete_text.specs.Ends.{entry_name};
ghost use Rattle.tv_complete_text.specs.Named.{NamedForm, AreNamed, entry_name_tree, named_at, named_form};
ghost use Rattle.tv_complete_text.specs.Named.{text_of_named};

use crate::ends::{block, entry_name};
use std::alloc::{AllocError, Global};
use tv_formula::name_of_phrase;
use tv_lex::Token;
use tv_phrases::{
    Item, NamePhrase, Part, PhraseError, Read, all_parts, begins_item, begins_with, expect,
    optional_list,
};
use tv_tree::{Spelling, name_text};

/// The name of an entry.
#[derive(Debug, Drop)]
struct EntryName {
    name: NamePhrase,
}

impl<'a> Part<'a> for EntryName {
    ghost Tree = { NameTree };

    ghost starts = { begins_name };

    ghost part_at = { entry_name };

    ghost tree = { entry_name_tree };

    fn begins(bytes: &[u8], tokens: &[Token]) -> bool {
        begins_item(bytes, tokens, Item::Identifier)
    }

    fn read(alloc: Global, bytes: &[u8], tokens: &'a [Token]) -> Read<'a, EntryName> {
        let (name, rest) = entry_name(alloc, bytes, tokens)?;
        Ok((EntryName { name }, rest))
    }
}

/// A name as one text.
fn spelled(alloc: Global, bytes: &[u8], name: &NamePhrase) -> Result<Spelling, AllocError>
    ensures { IfOk result (λ s. s ≡ name_text (name_tree bytes.now name.now)) }
{
    let name = name_of_phrase(alloc, bytes, name)?;
    Ok(Spelling(name_text(alloc, &name)?))
}

fn all_spelled(
    alloc: Global,
    bytes: &[u8],
    entries: &[EntryName],
) -> Result<Vec<Spelling>, AllocError>
    ensures { IfOk result
        (λ xs. xs.items ≡ map name_text (map (entry_name_tree bytes.now) entries.now)) }
{
    let mut names = Vec::new(alloc);
    for entry in entries {
        names.push(spelled(alloc, bytes, &entry.name)?)?;
    }
    Ok(names)
}

/// What is told of a structure in a text.
#[derive(Debug, Drop)]
pub struct NamedText {
    /// Its individuals, in order.
    pub individuals: Vec<Token>,
    /// The predicates that it names.
    pub names: Vec<Spelling>,
    /// How many tokens stand behind it.
    pub behind: usize,
}

#[tactic(auto, unfolding(crate::specs::Named::named_at))]
fn named<'a>(alloc: Global, bytes: &[u8], tokens: &'a [Token]) -> Read<'a, NamedText>
    ensures { GivesReading (λ x. (named_form bytes.now x.0, spec_tokens bytes.now x.1.now)) result
        (named_at (spec_tokens bytes.now tokens.now)) }
{
    let inside = block(bytes, tokens, b"%n")?;
    let (individuals, end) = optional_list(alloc, bytes, inside, Item::Word)?;
    let behind = expect(bytes, end, b"}")?;
    let within = block(bytes, behind, b"%p")?;
    let (entries, last) = all_parts::<EntryName>(alloc, bytes, within)?;
    let rest = expect(bytes, last, b"}")?;
    let found = NamedText {
        individuals,
        names: all_spelled(alloc, bytes, &entries)?,
        behind: rest.len(),
    };
    Ok((found, rest))
}

impl<'a> Part<'a> for NamedText {
    ghost Tree = { NamedForm };

    ghost starts = { begins_struct };

    ghost part_at = { named_at };

    ghost tree = { named_form };

    fn begins(bytes: &[u8], tokens: &[Token]) -> bool {
        begins_with(bytes, tokens, b"%n")
    }

    fn read(alloc: Global, bytes: &[u8], tokens: &'a [Token]) -> Read<'a, NamedText> {
        named(alloc, bytes, tokens)
    }
}

/// What is told of the structures that all the tokens are.
#[tactic(auto, unfolding(crate::specs::Named::text_of_named))]
fn all_named<'a>(
    alloc: Global,
    bytes: &[u8],
    tokens: &'a [Token],
) -> Result<Vec<NamedText>, PhraseError<'a>>
    ensures { GivesReading (λ xs. map (named_form bytes.now) xs.items) result
        (text_of_named (spec_tokens bytes.now tokens.now)) }
{
    let (list, rest) = all_parts::<NamedText>(alloc, bytes, tokens)?;
    if !rest.is_empty() {
        return Err(PhraseError::Unexpected(rest));
    }
    Ok(list)
}

/// What is told of each structure, where the tokens are structures.
pub fn named_structures(
    alloc: Global,
    bytes: &[u8],
    tokens: &[Token],
) -> Result<Vec<NamedText>, AllocError>
    requires { (trees : List StructTree) × AreStructs (spec_tokens bytes.now tokens.now) trees }
    ensures { IfOk result
        (λ xs. AreNamed (spec_tokens bytes.now tokens.now) (map (named_form bytes.now) xs.items)) }
{
    match all_named(alloc, bytes, tokens) {
        Ok(list) => Ok(list),
        Err(PhraseError::Memory) => Err(AllocError),
        Err(PhraseError::Unexpected(_)) => unreachable!(),
    }
}
