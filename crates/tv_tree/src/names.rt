//! Words among others, and the final texts of names.

ghost use Rattle.std.specs.Prelude.{◌≡◌, ◌++◌, ◌∷◌, IfOk, OnOk};
ghost use Rattle.std.specs.List.{flat_map};
ghost use Rattle.std.specs.Str.{bytes_eq};
ghost use Rattle.tv_tree.specs.Copies.{name_of};
ghost use Rattle.tv_tree.specs.Names.{is_among, brackets_text, name_text};

use crate::trees::{Name, Spelling};
use std::alloc::{AllocError, Global};

fn is_word(other: &Spelling, word: &[u8]) -> bool
    ensures { result ≡ bytes_eq word.now other.now }
{
    word == other.0.as_slice()
}

/// Whether a word is one of these.
pub fn is_among(words: &[Spelling], word: &[u8]) -> bool
    ensures { result ≡ is_among words.now word.now }
{
    words.iter().any(|other| is_word(other, word))
}

#[tactic(auto, using(crate::proofs::NameTexts::words_more, crate::proofs::NameTexts::words_done))]
fn push_words(text: &mut Vec<u8>, words: &[Spelling]) -> Result<(), AllocError>
    ensures { OnOk result (text.new.items ≡ text.old.items ++ flat_map (λ word. 44 ∷ word) words.now) }
{
    for word in words {
        text.push(b',')?;
        text.extend_from_slice(&word.0)?;
    }
    Ok(())
}

#[tactic(auto, using(crate::proofs::NameTexts::brackets_put))]
fn push_brackets(
    text: &mut Vec<u8>,
    first: &Spelling,
    others: &[Spelling],
) -> Result<(), AllocError>
    ensures { OnOk result (text.new.items ≡ text.old.items ++ brackets_text (first.now ∷ others.now)) }
{
    text.push(b'[')?;
    text.extend_from_slice(&first.0)?;
    push_words(text, others)?;
    text.push(b']')?;
    Ok(())
}

/// The text of a name, without blanks: its identifier, and those in brackets behind it, parted by commas.
pub fn name_text(alloc: Global, name: &Name) -> Result<Vec<u8>, AllocError>
    ensures { IfOk result (λ text. text.items ≡ name_text (name_of name.now)) }
{
    let mut text = Vec::from_slice(alloc, &name.first.0)?;
    if let Some((first, others)) = name.brackets.as_slice().split_first() {
        push_brackets(&mut text, first, others)?;
    }
    Ok(text)
}
