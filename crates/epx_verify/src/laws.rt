//! Laws of what replicas say: each function has an empty body, and its contract is the law.
ghost use Rattle.epx_verify.specs.VerifyLaws.{SaidOrBadSaid, SaidIsNoBadSaid, TextSaysOneThing};
ghost use Rattle.epx_verify.specs.VerifyLaws.{BadSaidIsBadAtOneLine, SaidTextIsSaid};
ghost use Rattle.epx_verify.specs.VerifyLaws.{NoDifferenceIfRight, ReplayHasNoDifference};
ghost use Rattle.epx_verify.specs.VerifyLaws.{ReplayReadAgainIsRight};
ghost use Rattle.epx_verify.specs.VerifyLaws.{RightRepliesAreThoseOfAllOrders};

/// Any bytes say some replies and a store, or have a first bad line.
pub fn said_or_bad_said()
    ensures { SaidOrBadSaid }
{}

/// Bytes that say replies and a store have no bad line.
pub fn said_is_no_bad_said()
    ensures { SaidIsNoBadSaid }
{}

/// A text says only one list of replies and one store.
pub fn text_says_one_thing()
    ensures { TextSaysOneThing }
{}

/// A text has only one first bad line.
pub fn bad_said_is_bad_at_one_line()
    ensures { BadSaidIsBadAtOneLine }
{}

/// The text of replies and a store, as a replay writes it, says these replies and this store.
pub fn said_text_is_said()
    ensures { SaidTextIsSaid }
{}

/// No difference is written exactly where each reply and the whole store are right.
pub fn no_difference_if_right()
    ensures { NoDifferenceIfRight }
{}

/// What a list executes to has no difference.
pub fn replay_has_no_difference()
    ensures { ReplayHasNoDifference }
{}

/// What a replay of a list writes has no difference when it is read again.
pub fn replay_read_again_is_right()
    ensures { ReplayReadAgainIsRight }
{}

/// Over a covered map, a replica with a lawful prefix and no difference gave the replies of every
/// lawful order.
pub fn right_replies_are_those_of_all_orders()
    ensures { RightRepliesAreThoseOfAllOrders }
{}
