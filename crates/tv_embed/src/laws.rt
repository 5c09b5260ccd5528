//! Laws of embeddings: functions that do nothing, and whose contracts are the laws.

ghost use Rattle.tv_embed.specs.Laws.{StructuresEmbedInThemselves};

/// The map that moves nothing embeds a structure in itself.
pub fn structures_embed_in_themselves()
    ensures { StructuresEmbedInThemselves }
{}
