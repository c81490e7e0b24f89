//! Laws of conflict levels.
ghost use Rattle.epx_laws.specs.LevelLaws.{LevelsExist, LevelIsUnique, LevelsAreUnique};
ghost use Rattle.epx_laws.specs.LevelLaws.{LevelHasNoConflict, ConflictsClimb, LevelsAreLeast};
ghost use Rattle.epx_laws.specs.LevelLaws.{LevelsAreFewest, EachLevelIsReached};
ghost use Rattle.epx_laws.specs.LevelLaws.{LevelsRearrange, LevelsInTurnAreByLevel};

/// Every list of commands has levels.
pub fn levels_exist()
    ensures { LevelsExist }
{}

/// A position has at most one level.
pub fn level_is_unique()
    ensures { LevelIsUnique }
{}

/// A list of commands has at most one list of levels.
pub fn levels_are_unique()
    ensures { LevelsAreUnique }
{}

/// No two commands of one level conflict.
pub fn level_has_no_conflict()
    ensures { LevelHasNoConflict }
{}

/// Of two commands that conflict, the later has the greater level.
pub fn conflicts_climb()
    ensures { ConflictsClimb }
{}

/// Levels are the least numbers that rise with conflicts.
pub fn levels_are_least()
    ensures { LevelsAreLeast }
{}

/// There are at least as many numbers that rise with conflicts as levels.
pub fn levels_are_fewest()
    ensures { LevelsAreFewest }
{}

/// Each number below the number of levels is the level of some command.
pub fn each_level_is_reached()
    ensures { EachLevelIsReached }
{}

/// Executing level by level keeps the order of commands that conflict, in any order inside a level.
pub fn levels_rearrange()
    ensures { LevelsRearrange }
{}

/// The positions of level 0, then those of level 1, and so on, are by level.
pub fn levels_in_turn_are_by_level()
    ensures { LevelsInTurnAreByLevel }
{}
