//! Laws of the text: each function has an empty body, and its contract is the law.
ghost use Rattle.epx_blockers.specs.BlockerLaws.{BlockersTextExists, BlockersTextIsUnique};
ghost use Rattle.epx_blockers.specs.BlockerLaws.{BlockedInstancesWait, CountsAddUpToTheWaiting};

/// Each map has a text that says what blocks its instances.
pub fn blockers_text_exists()
    ensures { BlockersTextExists }
{}

/// A map has at most one text that says what blocks its instances.
pub fn blockers_text_is_unique()
    ensures { BlockersTextIsUnique }
{}

/// The instances that wait are those that a missing instance blocks.
pub fn blocked_instances_wait()
    ensures { BlockedInstancesWait }
{}

/// Each waiting instance is counted once: with the one instance that blocks it, or among those
/// that several block.
pub fn counts_add_up_to_the_waiting()
    ensures { CountsAddUpToTheWaiting }
{}
