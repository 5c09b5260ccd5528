//! Names, looked up by hash.

ghost use Rattle.std.specs.Prelude.{◌≡◌, ◌≢◌, ◌<◌, ◌++◌, ◌∷◌, [], true, not, map, length, AllPairs, IfOk};
ghost use Rattle.std.specs.Prelude.{OnOk, IfSome};
ghost use Rattle.std.specs.List.{flat_map};
ghost use Rattle.tv_lex.specs.Token.{text_of};
ghost use Rattle.tv_tree.specs.Names.{is_among, brackets_text, names_of, number_of};
ghost use Rattle.tv_tvs.specs.Meaning.{Answers, has_twice, all_different};
ghost use Rattle.tv_tvs.specs.Tree.{name_text};
ghost use Rattle.tv_tvs.specs.Views.{name_tree};

use crate::error::TvsError;
use indexmap::IndexSet;
use std::alloc::{AllocError, Global};
use tv_lex::{Token, text};
use tv_model::Pred;
use tv_phrases::NamePhrase;

/// Names, each once; the number of a name is its place.
pub(crate) type NameSet<'a> = IndexSet<&'a [u8]>;

/// Puts a name behind the others, unless it is among them, and answers whether it wasn't.
pub(crate) fn add<'a>(names: &mut NameSet<'a>, name: &'a [u8]) -> Result<bool, AllocError>
    ensures added { IfOk result (λ new. new ≡ not (is_among (names_of names.old.keys) name.now)) }
    ensures keys { IfOk result
        (λ new. new ≡ true → names_of names.new.keys ≡ names_of names.old.keys ++ name.now ∷ []) }
{
    let (_, new) = names.insert_full(name)?;
    Ok(new)
}

/// The number of a name.
pub(crate) fn number_of(names: &NameSet<'_>, name: &[u8]) -> Option<usize>
    ensures number { result ≡ number_of (names_of names.now.keys) name.now }
    ensures within { IfSome result (λ n. n < length names.now.keys) }
{
    names.get_index_of(name)
}

/// The names of individuals, where no two are the same.
pub(crate) fn individual_names<'a>(
    alloc: Global,
    bytes: &'a [u8],
    individuals: &[Token],
) -> Result<NameSet<'a>, TvsError>
    ensures { Answers (λ names. names_of names.keys) result
        (all_different (map (text_of bytes.now) individuals.now)) }
{
    let mut names = IndexSet::new(alloc);
    for individual in individuals {
        let new = add(&mut names, text(bytes, individual))?;
        if !new {
            return Err(TvsError::IndividualTwice);
        }
    }
    Ok(names)
}

/// The names of predicates.
pub(crate) fn predicate_names(alloc: Global, preds: &[Pred]) -> Result<NameSet<'_>, AllocError>
    requires { AllPairs ◌≢◌ (map (λ pred. pred.name) preds.now) }
    ensures { IfOk result (λ names. names_of names.keys ≡ map (λ pred. pred.name) preds.now) }
{
    let mut names = IndexSet::new(alloc);
    for pred in preds {
        add(&mut names, pred.name.as_slice())?;
    }
    Ok(names)
}

fn put_next(out: &mut Vec<u8>, bytes: &[u8], words: &[Token]) -> Result<(), AllocError>
    ensures { OnOk result
        (out.new.items ≡ out.old.items ++ flat_map (λ t. 44 ∷ text_of bytes.now t) words.now) }
{
    for word in words {
        out.push(b',')?;
        out.extend_from_slice(text(bytes, word))?;
    }
    Ok(())
}

fn put_brackets(out: &mut Vec<u8>, bytes: &[u8], words: &[Token]) -> Result<(), AllocError>
    ensures { OnOk result
        (out.new.items ≡ out.old.items ++ brackets_text (map (text_of bytes.now) words.now)) }
{
    match words.split_first() {
        None => Ok(()),
        Some((first, others)) => {
            out.push(b'[')?;
            out.extend_from_slice(text(bytes, first))?;
            put_next(out, bytes, others)?;
            out.push(b']')?;
            Ok(())
        }
    }
}

/// A name as one text.
pub(crate) fn name_text(
    alloc: Global,
    bytes: &[u8],
    name: &NamePhrase,
) -> Result<Vec<u8>, AllocError>
    ensures { IfOk result (λ out. out.items ≡ name_text (name_tree bytes.now name.now)) }
{
    let mut out = Vec::from_slice(alloc, text(bytes, &name.first))?;
    put_brackets(&mut out, bytes, name.brackets.as_slice())?;
    Ok(out)
}
