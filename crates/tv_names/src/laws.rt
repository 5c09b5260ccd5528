//! Laws of the definitions: functions that do nothing, and whose contracts are the laws.

ghost use Rattle.std.specs.Prelude.{◌≡◌};
ghost use Rattle.tv_names.specs.Naming.{no_names};
ghost use Rattle.tv_names.specs.Numbers.{vacant_count, NumbersFollowSights, TooManyHaveNoRoom};

/// The variables of an item that are new in a formula get different numbers below 32: the lowest that stand
/// for nothing yet, in order of first sight; and there was room for them. The variables that were numbered
/// before, such as picked ones, keep their numbers.
#[tactic(auto, using(crate::proofs::SightLaws::numbers_follow))]
pub fn numbers_follow_sights()
    ensures { NumbersFollowSights }
{}

/// `TooManyVariables` comes only where there is no room for the new variables of a formula, the two of `p*`
/// and `p+` included. Together with the other law it comes exactly there, where no other refusal comes first.
#[tactic(auto, using(crate::proofs::SightLaws::no_room))]
pub fn too_many_have_no_room()
    ensures { TooManyHaveNoRoom }
{}

/// An item of which nothing is numbered yet has room for 32 variables.
pub fn items_have_32_numbers()
    ensures { vacant_count no_names.slots ≡ 32 }
{}
