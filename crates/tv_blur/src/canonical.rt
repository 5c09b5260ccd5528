//! Blur: the structure in which individuals of equal name are one.

ghost use Rattle.std.specs.Prelude.{◌≡◌, IfOk};
ghost use Rattle.tv_embedding_laws.specs.Embedding.{IsEmbedded};
ghost use Rattle.tv_structure_form.specs.StructureForm.{IsOver, IsStructure, structure_of};
ghost use Rattle.tv_blur.specs.Names.{abstraction_preds};
ghost use Rattle.tv_blur.specs.Blur.{IsBlur, IsBlurred};

use crate::ascending::is_blurred;
use crate::classes::classes;
use crate::merge::merged;
use crate::names::CanonicalNames;
use std::alloc::{AllocError, Global};
use tv_model::Vocab;
use tv_struct::Structure;

/// The blur of `s`: individuals of equal name, that is, of equal values of the unary abstraction
/// predicates, are one. A value is the join of the values at all tuples that become the tuple; an
/// individual is a summary where it is made of several, or of a summary. Individuals stand in the
/// lexicographic order of their names, with `No < Half < Yes`, and none is marked.
///
/// `s` embeds in its blur, and the blur of a blurred structure is the structure itself. The only error
/// is lack of memory.
pub fn blur(alloc: Global, vocab: &Vocab, s: &Structure) -> Result<Structure, AllocError>
    requires { IsOver vocab.now s.now }
    ensures exact { IfOk result (IsBlur (abstraction_preds vocab.now) s.now) }
    ensures above { IfOk result (λ t. IsEmbedded (structure_of s.now) (structure_of t)) }
    ensures blurred { IfOk result (IsBlurred (abstraction_preds vocab.now)) }
    ensures again { IsBlurred (abstraction_preds vocab.now) s.now → IfOk result (λ t. t ≡ s.now) }
    ensures kept { IfOk result IsStructure }
{
    into_blurred(alloc, vocab, s.copy(alloc)?)
}

/// The blur of a structure that isn't needed any more: that of `blur`. One that is blurred already is given
/// back as it is, and takes no memory.
pub fn into_blurred(alloc: Global, vocab: &Vocab, s: Structure) -> Result<Structure, AllocError>
    requires { IsOver vocab.now s }
    ensures exact { IfOk result (IsBlur (abstraction_preds vocab.now) s) }
    ensures above { IfOk result (λ t. IsEmbedded (structure_of s) (structure_of t)) }
    ensures blurred { IfOk result (IsBlurred (abstraction_preds vocab.now)) }
    ensures again { IsBlurred (abstraction_preds vocab.now) s → result ≡ Ok s }
    ensures kept { IfOk result IsStructure }
{
    let _ = s.size();
    if is_blurred(vocab, &s) {
        return Ok(s);
    }
    regrouped(alloc, vocab, &s)
}

/// The structure in which the individuals of each name are one, in the order of names.
fn regrouped(alloc: Global, vocab: &Vocab, s: &Structure) -> Result<Structure, AllocError>
    requires { IsOver vocab.now s.now }
    ensures exact { IfOk result (IsBlur (abstraction_preds vocab.now) s.now) }
    ensures kept { IfOk result IsStructure }
{
    let _ = s.size();
    let names = CanonicalNames::of(alloc, vocab, s)?;
    let classes = classes(alloc, &names)?;
    merged(alloc, s, &classes)
}
