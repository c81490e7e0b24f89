//! Laws of committed maps that grow, as logs do.
ghost use Rattle.epx_laws.specs.GrowthLaws.{MoreLinesCommitMore, ReadyStaysReady, RepliesStay};

/// More lines commit more: a map of more lines contains the map of fewer.
pub fn more_lines_commit_more()
    ensures { MoreLinesCommitMore }
{}

/// An instance that is ready in a map is ready in every map that contains it.
pub fn ready_stays_ready()
    ensures { ReadyStaysReady }
{}

/// An instance that is ready in a map has the same reply in every covered map that contains it.
pub fn replies_stay()
    ensures { RepliesStay }
{}
