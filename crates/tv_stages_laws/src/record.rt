//! What is recorded of an abstract step, stage by stage.

use tv_kleene::K3;
use tv_losses_unmet::Claim;
use tv_model::Items;
use tv_struct::{Structure, Structures};

/// What coerce makes of a structure.
#[derive(Debug, Drop)]
pub enum Fate {
    /// It is kept, as the greatest stable structure below it.
    Kept(Structure),
    /// It is dropped, since no stable structure lies below it: with the first declaration that leaves none
    /// alone, or none where only several do together.
    Dropped(Option<Claim>),
}

/// A choice of a focus atom, and what coerce makes of it.
#[derive(Debug, Drop)]
pub struct Choice {
    pub structure: Structure,
    pub fate: Fate,
}

/// A list of choices.
pub type Choices = Items<Choice>;

/// A structure at hand where the turn of a focus atom comes, and the choices of the atom there, in order.
#[derive(Debug, Drop)]
pub struct FocusedAt {
    pub at_hand: Structure,
    pub choices: Choices,
}

/// A list of these.
pub type FocusedEach = Items<FocusedAt>;

/// The turn of a focus atom: the number of its formula among the action's, its own number in that, and each
/// structure at hand, in order.
#[derive(Debug, Drop)]
pub struct FocusRow {
    pub formula: usize,
    pub atom: usize,
    pub at_hand: FocusedEach,
}

/// A list of turns.
pub type FocusRows = Items<FocusRow>;

/// What becomes of a structure that an update gives.
#[derive(Debug, Drop)]
pub enum End {
    /// It is coerced, and then blurred.
    Blurred {
        coerced: Structure,
        blurred: Structure,
    },
    /// It is dropped by coerce, as in `Fate`.
    Lost(Option<Claim>),
}

/// A structure that an update gives, and what becomes of it.
#[derive(Debug, Drop)]
pub struct Given {
    pub structure: Structure,
    pub end: End,
}

/// A list of given structures.
pub type GivenEach = Items<Given>;

/// Individuals that an action picks, in the order of its variables.
pub type Picked = Items<u32>;

/// Picked individuals, the value of the precondition for them, and what the update gives, in order: nothing
/// where the value is `No`.
#[derive(Debug, Drop)]
pub struct PickedUpdate {
    pub individuals: Picked,
    pub value: K3,
    pub given: GivenEach,
}

/// A list of these.
pub type PickedUpdates = Items<PickedUpdate>;

/// A structure at hand behind focus, and each choice of individuals to pick there, in lexicographic order.
#[derive(Debug, Drop)]
pub struct UpdatedAt {
    pub at_hand: Structure,
    pub picks: PickedUpdates,
}

/// A list of these.
pub type UpdatedEach = Items<UpdatedAt>;

/// An abstract step of a structure, stage by stage: what coerce makes of it, the turns of the focus atoms,
/// what the action gives from each structure at hand then, and the results, strictly sorted.
#[derive(Debug, Drop)]
pub struct SlowStep {
    pub start: Fate,
    pub focus: FocusRows,
    pub updates: UpdatedEach,
    pub results: Structures,
}
