//! Laws of renamings of keys and values.
ghost use Rattle.epx_laws.specs.RenamingLaws.{RenamedExecutesAlike, RenamedRunsAlike};
ghost use Rattle.epx_laws.specs.RenamingLaws.{RenamedContentsAreReadAlike, RenamedAnswersDiffer};
ghost use Rattle.epx_laws.specs.RenamingLaws.{RenamedConflictsAlike, RenamedLevelsAreAlike};
ghost use Rattle.epx_laws.specs.RenamingLaws.{RenamedIsOrderedAlike, RenamedLinesCommitAlike};
ghost use Rattle.epx_laws.specs.RenamingLaws.{NamesExtendToRenaming};

/// Finitely many keys and values, each with a name of its own, are renamed so by some renaming.
pub fn names_extend_to_renaming()
    ensures { NamesExtendToRenaming }
{}

/// An injective renaming of keys and values commutes with the execution of commands that have no
/// `add` and no `floor`.
pub fn renamed_executes_alike()
    ensures { RenamedExecutesAlike }
{}

/// Renamed lines commit the renamed map, and have the same first disagreement.
pub fn renamed_lines_commit_alike()
    ensures { RenamedLinesCommitAlike }
{}

/// A run over a renamed map is the renamed run, also a resumed one.
pub fn renamed_runs_alike()
    ensures { RenamedRunsAlike }
{}

/// Renamed contents have the renamed value at each renamed key, and no other keys.
pub fn renamed_contents_are_read_alike()
    ensures { RenamedContentsAreReadAlike }
{}

/// A renamed answer can be turned back in one way only.
pub fn renamed_answers_differ()
    ensures { RenamedAnswersDiffer }
{}

/// Renamed commands conflict exactly if the commands do.
pub fn renamed_conflicts_alike()
    ensures { RenamedConflictsAlike }
{}

/// Renamed commands have the levels of the commands.
pub fn renamed_levels_are_alike()
    ensures { RenamedLevelsAreAlike }
{}

/// A renamed map has the graph, the ready and waiting instances and the orders of the map.
pub fn renamed_is_ordered_alike()
    ensures { RenamedIsOrderedAlike }
{}
