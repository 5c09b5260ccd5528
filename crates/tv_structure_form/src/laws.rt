//! Laws of structures: functions that do nothing, and whose contracts are the laws.

ghost use Rattle.tv_structure_form.specs.Laws.{EntriesAreSeparate, NewStructuresAreNo};
ghost use Rattle.tv_structure_form.specs.Laws.{EntriesDetermineStructures};
ghost use Rattle.tv_structure_form.specs.Laws.{DrawnStructuresRead};
ghost use Rattle.tv_structure_form.specs.Lists.{ListsEmbed};
ghost use Rattle.tv_structure_form.specs.Halves.{HalvesAreCounted, LoweringGoesBelow};
ghost use Rattle.tv_structure_form.specs.Origins.{KeptIndividualsAreFlagged, PlacesAreCopies};

/// Writing an entry of a structure, or a summary, gives it the value, and changes no other.
pub fn entries_are_separate()
    ensures { EntriesAreSeparate }
{}

/// The entries, the summaries and the mark determine a structure of given size and arities.
pub fn entries_determine_structures()
    ensures { EntriesDetermineStructures }
{}

/// A structure drawn from another has the values and the summaries of the origins, a structure with a
/// new individual keeps the values of the others, and past the end every value is `No`.
pub fn drawn_structures_read()
    ensures { DrawnStructuresRead }
{}

/// A new structure has the given arities, No everywhere and no summary.
pub fn new_structures_are_no()
    ensures { NewStructuresAreNo }
{}

/// The heap of a linked list of any length, two cells or three hundred, embeds in the structure of one
/// summary and in that of a first cell and one summary for all others.
pub fn lists_embed()
    ensures { ListsEmbed }
{}

/// A write changes the number of unknown entries, summaries among them, by what it writes and what
/// stood there.
pub fn halves_are_counted()
    ensures { HalvesAreCounted }
{}

/// Lowering an entry, or making a summary an ordinary individual, gives a structure below.
pub fn lowering_goes_below()
    ensures { LoweringGoesBelow }
{}

/// The individuals that `without` keeps are those with a true flag, in increasing order; those of a split
/// structure are the copies, each of one individual.
pub fn origins_are_told()
    ensures kept { KeptIndividualsAreFlagged }
    ensures copies { PlacesAreCopies }
{}
