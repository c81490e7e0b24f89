//! Laws of what logs say against each other: each function's contract is a law.
ghost use Rattle.epx_compare.specs.ComparisonLaws.{ComparisonExists, ComparisonIsUnique};
ghost use Rattle.epx_compare.specs.ComparisonLaws.{NothingDiffersWhereLogsAgree};
ghost use Rattle.epx_compare.specs.ComparisonLaws.{NothingFoundWhereLogsAreAlike};
ghost use Rattle.epx_compare.specs.GapLaws.{GapsAreOfTheLacked};
ghost use Rattle.epx_compare.specs.GroupLaws.{GroupsAreOfTheSame, DependentsHaveLines};
ghost use Rattle.epx_compare.specs.GroupLaws.{MembersAreOfTheDifferent};

/// All logs have a comparison.
pub fn comparison_exists()
    ensures { ComparisonExists }
{}

/// Logs have at most one comparison.
pub fn comparison_is_unique()
    ensures { ComparisonIsUnique }
{}

/// A comparison has no bad line and no difference exactly where the logs are accepted.
pub fn nothing_differs_where_logs_agree()
    ensures { NothingDiffersWhereLogsAgree }
{}

/// Exactly the lacked instances are in a gap, and gaps of one replica do not touch.
pub fn gaps_are_of_the_lacked()
    ensures { GapsAreOfTheLacked }
{}

/// Nothing is found wrong exactly where each log alone commits what all of them commit.
pub fn nothing_found_where_logs_are_alike()
    ensures { NothingFoundWhereLogsAreAlike }
{}

/// A member is named exactly if it is not equal in two of the lines.
pub fn members_are_of_the_different()
    ensures { MembersAreOfTheDifferent }
{}

/// Lines have their places in one group exactly if they commit the same.
pub fn groups_are_of_the_same()
    ensures { GroupsAreOfTheSame }
{}

/// An instance is counted among those that depend on another exactly if one of its lines does.
pub fn dependents_have_lines()
    ensures { DependentsHaveLines }
{}
