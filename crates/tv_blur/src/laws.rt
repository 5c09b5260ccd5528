//! Laws of blur: functions that do nothing, and whose contracts are the laws.

ghost use Rattle.tv_blur.specs.Laws.{MergingCovers, MergingKeepsStable, BlurKeepsStable, BlurKeepsNames};
ghost use Rattle.tv_blur.specs.Laws.{BlurIsOne};

/// A structure embeds in what merging its individuals gives, by the map of the merging.
pub fn merging_covers()
    ensures { MergingCovers }
{}

/// What merging gives of a structure that is stable under rules is stable under them.
pub fn merging_keeps_stable()
    ensures { MergingKeepsStable }
{}

/// The blur of a structure that is stable under rules is stable under them.
pub fn blur_keeps_stable()
    ensures { BlurKeepsStable }
{}

/// Individuals keep their names in the blur, in which names differ and stand in order.
pub fn blur_keeps_names()
    ensures { BlurKeepsNames }
{}

/// A structure has one blur, and the blur of a blurred structure is the structure itself.
pub fn blur_is_one()
    ensures { BlurIsOne }
{}
