//! Laws of uncovered pairs: the definition means what it should. Each function has an empty body,
//! and its contract is the law.
ghost use Rattle.epx_audit.specs.UncoveredLaws.{CoveredOrLeastUncovered};
ghost use Rattle.epx_audit.specs.UncoveredLaws.{LeastUncoveredPairIsUnique};
ghost use Rattle.epx_audit.specs.UncoveredLaws.{UncoveredPairShowsNotCovered};

/// A map with an uncovered pair is not covered.
pub fn uncovered_pair_shows_not_covered()
    ensures { UncoveredPairShowsNotCovered }
{}

/// A map has at most one least uncovered pair.
pub fn least_uncovered_pair_is_unique()
    ensures { LeastUncoveredPairIsUnique }
{}

/// A map is covered, or it has a least uncovered pair.
pub fn covered_or_least_uncovered()
    ensures { CoveredOrLeastUncovered }
{}
