//! Laws of resumed runs: executing the remaining map over the contents that the done instances
//! left.
ghost use Rattle.epx_laws.specs.ResumedRunLaws.{NothingDoneIsSound, PartAndRestAreLawful};
ghost use Rattle.epx_laws.specs.ResumedRunLaws.{PartIsSound, ResumedRepliesAreThoseOfTheWhole};
ghost use Rattle.epx_laws.specs.ResumedRunLaws.{ResumingStaysSound, AllDoneIsTheWhole};
ghost use Rattle.epx_laws.specs.ResumedRunLaws.{ResumingWithAllLeftIsTheWhole};
ghost use Rattle.epx_laws.specs.ResumedRunLaws.{ResumedRunsWaitAlike};

/// If nothing is done, the empty contents are sound.
pub fn nothing_done_is_sound()
    ensures { NothingDoneIsSound }
{}

/// A list that is lawful for a closed part, followed by the others of a lawful order, is a lawful
/// order.
pub fn part_and_rest_are_lawful()
    ensures { PartAndRestAreLawful }
{}

/// A part of a map, executed from the empty contents, is sound for the whole.
pub fn part_is_sound()
    ensures { PartIsSound }
{}

/// In a resumed run over a covered map, each instance has the reply that it has in a run over the
/// whole map.
pub fn resumed_replies_are_those_of_the_whole()
    ensures { ResumedRepliesAreThoseOfTheWhole }
{}

/// The instances done before and those executed by a resumed run are sound, with its final
/// contents.
pub fn resuming_stays_sound()
    ensures { ResumingStaysSound }
{}

/// If all ready instances of a covered map are done, sound contents are those of a run over the
/// whole map.
pub fn all_done_is_the_whole()
    ensures { AllDoneIsTheWhole }
{}

/// A resumed run with all that remains of a covered map leaves the contents of a run over the
/// whole map.
pub fn resuming_with_all_left_is_the_whole()
    ensures { ResumingWithAllLeftIsTheWhole }
{}

/// In a resumed run with all that remains, an instance that is not done waits for the same instance
/// as in a run over the whole map.
pub fn resumed_runs_wait_alike()
    ensures { ResumedRunsWaitAlike }
{}
