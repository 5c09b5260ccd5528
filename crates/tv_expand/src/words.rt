//! Lists of words, each once, in order of first sight.

ghost use Rattle.std.specs.Prelude.{◌≡◌, ◌++◌, ◌∷◌, [], not, map, if◌then◌else◌, IfOk, OnOk};
ghost use Rattle.tv_expand.specs.Outcome.{GivesExpansion};
ghost use Rattle.tv_flat.specs.Replaced.{replaced};
ghost use Rattle.tv_tree.specs.Names.{is_among};
ghost use Rattle.tv_expand.specs.Sets.{sight, with_members, without_members, once};
ghost use Rattle.tv_flat.specs.Views.{binding_of};
ghost use Rattle.tv_expand.specs.Views.{names_of, signed};

use crate::error::ExpandError;
use indexmap::IndexSet;
use std::alloc::{AllocError, Global};
use tv_flat::{Scope, replaced};
use tv_tree::trees::{SetSign, Spelling};

/// Words, each once, in order of first sight.
pub type Words<'a> = IndexSet<&'a [u8]>;

/// Puts a word behind those that were seen, where it is new. Gives whether it is.
pub fn sight<'a>(seen: &mut Words<'a>, word: &'a [u8]) -> Result<bool, AllocError>
    ensures new { IfOk result (λ new. new ≡ not (is_among (names_of seen.old.keys) word.now)) }
    ensures seen { OnOk result (names_of seen.new.keys ≡ sight (names_of seen.old.keys) word.now) }
{
    Ok(seen.insert(word)?)
}

/// Puts a word behind those that were seen.
///
/// # Errors
/// `NameTwice` exactly where it was seen.
#[tactic(auto, using(crate::proofs::WordLaws::once_new))]
pub fn once<'a>(seen: &mut Words<'a>, word: &'a [u8]) -> Result<(), ExpandError>
    ensures { GivesExpansion (λ _. names_of seen.new.keys) result (once word.now (names_of seen.old.keys)) }
{
    if sight(seen, word)? {
        Ok(())
    } else {
        Err(ExpandError::NameTwice)
    }
}

/// Puts in the words of another list.
#[tactic(auto, using(crate::proofs::WordLaws::members_more, crate::proofs::WordLaws::members_done))]
pub fn add_all<'a>(seen: &mut Words<'a>, words: &[&'a [u8]]) -> Result<(), AllocError>
    ensures { OnOk result
        (names_of seen.new.keys ≡ with_members (names_of seen.old.keys) (names_of words.now)) }
{
    for word in words {
        sight(seen, *word)?;
    }
    Ok(())
}

/// Puts in what stands for each of the words.
#[tactic(auto, using(crate::proofs::WordLaws::replaced_members_more, crate::proofs::WordLaws::replaced_members_done))]
pub fn add_replaced<'a>(
    seen: &mut Words<'a>,
    binding: &Scope<'_, 'a>,
    words: &'a [Spelling],
) -> Result<(), AllocError>
    ensures { OnOk result (names_of seen.new.keys
        ≡ with_members (names_of seen.old.keys) (map (replaced (binding_of binding.now)) words.now)) }
{
    for word in words {
        sight(seen, replaced(binding, &word.0))?;
    }
    Ok(())
}

fn is_among(words: &Words<'_>, word: &[u8]) -> bool
    ensures { result ≡ is_among (names_of words.now.keys) word.now }
{
    words.contains(word)
}

fn keep_other<'a>(kept: &mut Words<'a>, taken: &Words<'_>, word: &'a [u8]) -> Result<(), AllocError>
    ensures { OnOk result (names_of kept.new.keys ≡ (if is_among (names_of taken.now.keys) word.now
        then names_of kept.old.keys else sight (names_of kept.old.keys) word.now)) }
{
    if !is_among(taken, word) {
        sight(kept, word)?;
    }
    Ok(())
}

#[tactic(auto, using(crate::proofs::WordLaws::without_more, crate::proofs::WordLaws::without_done))]
fn without<'a>(
    alloc: Global,
    words: &[&'a [u8]],
    taken: &Words<'_>,
) -> Result<Words<'a>, AllocError>
    ensures { IfOk result
        (λ kept. names_of kept.keys ≡ without_members (names_of words.now) (names_of taken.now.keys)) }
{
    let mut kept = IndexSet::new(alloc);
    for word in words {
        keep_other(&mut kept, taken, *word)?;
    }
    Ok(kept)
}

/// The words, with others put in or taken out.
pub fn signed<'a>(
    alloc: Global,
    words: Words<'a>,
    sign: SetSign,
    other: &Words<'a>,
) -> Result<Words<'a>, AllocError>
    ensures { IfOk result
        (λ all. names_of all.keys ≡ signed sign (names_of words.entry.keys) (names_of other.now.keys)) }
{
    match sign {
        SetSign::Plus => {
            let mut all = words;
            add_all(&mut all, other.as_slice())?;
            Ok(all)
        }
        SetSign::Minus => without(alloc, words.as_slice(), other),
    }
}
