//! Laws of structures and embeddings: functions that do nothing, and whose contracts are the laws.

ghost use Rattle.std.specs.Prelude.{ℕ};
ghost use Rattle.tv_embedding_laws.specs.Laws.{EmbeddingsCompose, EmbeddingsOnCompose, EmbeddingsAddUp};
ghost use Rattle.tv_embedding_laws.specs.Laws.{BelowIsByValues, HeapsReadAsStructures};

/// The map that moves nothing embeds a structure in itself, and two embeddings compose.
pub fn embeddings_compose()
    ensures { EmbeddingsCompose }
{}

/// What picks predicates, by number.
pub trait Pick {
    ghost picked: { ℕ → Type 0 };
}

/// Two embeddings for some predicates compose.
pub fn embeddings_for_some_compose<P: Pick>()
    ensures { EmbeddingsOnCompose P.picked }
{}

/// A map embeds for some predicates and for others exactly where it does for both together.
pub fn embeddings_add_up<P: Pick, Q: Pick>()
    ensures { EmbeddingsAddUp P.picked Q.picked }
{}

/// A structure lies below another exactly where each of its values, its summaries included, lies
/// under the other's.
pub fn below_is_by_values()
    ensures { BelowIsByValues }
{}

/// A heap of any size, read as a structure, has Yes exactly where a predicate holds, and No exactly
/// where it doesn't.
pub fn heaps_read_as_structures()
    ensures { HeapsReadAsStructures }
{}
