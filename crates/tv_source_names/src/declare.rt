//! Declared names, looked up by hash.

ghost use Rattle.std.specs.Prelude.{◌≡◌, ◌<◌, ◌++◌, ◌∷◌, [], true, not, map, length, IfOk, OnOk, IfSome};
ghost use Rattle.tv_lex.specs.Token.{text_of};
ghost use Rattle.tv_tree.specs.Names.{is_among, names_of, number_of};
ghost use Rattle.tv_source_names.specs.Meaning.{is_taken, may_be_declared, declared};
ghost use Rattle.tv_source_names.specs.Answers.{Answers};

use crate::error::SourceReadError;
use indexmap::IndexSet;
use std::alloc::{AllocError, Global};
use tv_lex::{Token, text};
use tv_phrases::is_spelled;

/// Names, each once; the number of a name is its place.
pub(crate) type Declared<'a> = IndexSet<&'a [u8]>;

/// Puts a name behind the others, unless it is among them, and answers whether it wasn't.
fn add<'a>(names: &mut Declared<'a>, name: &'a [u8]) -> Result<bool, AllocError>
    ensures added { IfOk result (λ new. new ≡ not (is_among (names_of names.old.keys) name.now)) }
    ensures keys { IfOk result
        (λ new. new ≡ true → names_of names.new.keys ≡ names_of names.old.keys ++ name.now ∷ []) }
{
    let (_, new) = names.insert_full(name)?;
    Ok(new)
}

/// Whether a name is among those.
fn contains(names: &Declared<'_>, name: &[u8]) -> bool
    ensures { result ≡ is_among (names_of names.now.keys) name.now }
{
    names.contains(name)
}

/// The number of a name.
pub(crate) fn number_of(names: &Declared<'_>, name: &[u8]) -> Option<usize>
    ensures number { result ≡ number_of (names_of names.now.keys) name.now }
    ensures within { IfSome result (λ n. n < length names.now.keys) }
{
    names.get_index_of(name)
}

/// Whether predicates of other meaning have the name.
fn is_taken(name: &[u8]) -> bool
    ensures { result ≡ is_taken name.now }
{
    is_spelled(name, b"sm") || is_spelled(name, b"isNew")
}

// One more name, behind those of both lists.
fn declare<'a>(
    names: &mut Declared<'a>,
    before: &Declared<'_>,
    name: &'a [u8],
) -> Result<(), SourceReadError>
    ensures fault { Answers (λ _. tt) result
        (may_be_declared (names_of before.now.keys ++ names_of names.old.keys) name.now) }
    ensures keys { OnOk result (names_of names.new.keys ≡ names_of names.old.keys ++ name.now ∷ []) }
{
    if is_taken(name) {
        return Err(SourceReadError::Reserved);
    }
    if contains(before, name) {
        return Err(SourceReadError::NameTwice);
    }
    let new = add(names, name)?;
    if new {
        Ok(())
    } else {
        Err(SourceReadError::NameTwice)
    }
}

/// The names that these tokens declare, behind those before.
pub(crate) fn declared<'a>(
    alloc: Global,
    bytes: &'a [u8],
    before: &Declared<'_>,
    tokens: &[Token],
) -> Result<Declared<'a>, SourceReadError>
    ensures fault { Answers (λ _. tt) result
        (declared (names_of before.now.keys) (map (text_of bytes.now) tokens.now)) }
    ensures keys { IfOk result (λ names. names_of names.keys ≡ map (text_of bytes.now) tokens.now) }
{
    let mut names = IndexSet::new(alloc);
    for token in tokens {
        declare(&mut names, before, text(bytes, token))?;
    }
    Ok(names)
}
