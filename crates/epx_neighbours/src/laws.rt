//! Laws of the text: each function has an empty body, and its contract is the law.
ghost use Rattle.epx_neighbours.specs.UncoveredTextLaws.{MendedMapIsCovered, UncoveredTextExists};
ghost use Rattle.epx_neighbours.specs.UncoveredTextLaws.{UncoveredTextIsUnique};
ghost use Rattle.epx_neighbours.specs.UncoveredTextLaws.{CoveredLineMeansCovered};

/// A committed map has a text of its uncovered neighbours.
pub fn uncovered_text_exists()
    ensures { UncoveredTextExists }
{}

/// A map has at most one text of its uncovered neighbours.
pub fn uncovered_text_is_unique()
    ensures { UncoveredTextIsUnique }
{}

/// The text is the line `covered` exactly if the map is covered. So a map is mended when all its
/// neighbours are related.
pub fn covered_line_means_covered()
    ensures { CoveredLineMeansCovered }
{}

/// A map is mended in one round: if the second instance of each uncovered pair gets a dependency
/// on the first one, the map is covered.
pub fn mended_map_is_covered()
    ensures { MendedMapIsCovered }
{}
