//! The laws of a breadth-first search. Their functions do nothing: the clauses are what they show.

ghost use Rattle.tv_trail_laws.specs.Laws.{FirstLevelsHold, NextLevelsHold, LastLevelsReachNoGoal};
ghost use Rattle.tv_trail_laws.specs.Laws.{TrailsOfGoalsAreShortest};

/// Where the openings of the initial structures were met, and nothing else, no steps reach just these.
pub fn first_levels_hold()
    ensures { FirstLevelsHold }
{}

/// Where all of a level is no goal and was followed, and nothing else was met, the next level is that of one
/// step more.
pub fn next_levels_hold()
    ensures { NextLevelsHold }
{}

/// Where all that was met was followed, and none of it is a goal, no goal is reached.
pub fn last_levels_reach_no_goal()
    ensures { LastLevelsReachNoGoal }
{}

/// To a goal that is met in a level there is a trail, and no derivation of a goal has fewer steps.
pub fn trails_of_goals_are_shortest()
    ensures { TrailsOfGoalsAreShortest }
{}
