//! Laws of the pieces of a plan.
ghost use Rattle.epx_laws.specs.PieceLaws.{PiecesFollowEachOther, PieceSizeIsBounded};
ghost use Rattle.epx_laws.specs.PieceLaws.{PiecesCoverItems};

/// The pieces follow each other from the first item to the last.
pub fn pieces_follow_each_other()
    ensures { PiecesFollowEachOther }
{}

/// A piece has at least one item and at most `cut`.
pub fn piece_size_is_bounded()
    ensures { PieceSizeIsBounded }
{}

/// Each item is in a piece.
pub fn pieces_cover_items()
    ensures { PiecesCoverItems }
{}
