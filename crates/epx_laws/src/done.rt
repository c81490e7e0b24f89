//! Laws of the remaining map, a committed map without its done instances.
ghost use Rattle.epx_laws.specs.DoneLaws.{RemainingDependencies, RemainingIsReadyAlike};
ghost use Rattle.epx_laws.specs.DoneLaws.{NothingDoneLeavesAll, RemainingIsNotDone};
ghost use Rattle.epx_laws.specs.DoneLaws.{RemainingIdsRise, RemainingWaitsAlike};

/// If nothing is done, the whole map remains.
pub fn nothing_done_leaves_all()
    ensures { NothingDoneLeavesAll }
{}

/// The remaining map has exactly the Ids that are not done.
pub fn remaining_is_not_done()
    ensures { RemainingIsNotDone }
{}

/// If the Ids of a map rise, those of the remaining map rise.
pub fn remaining_ids_rise()
    ensures { RemainingIdsRise }
{}

/// A remaining instance depends exactly on its former dependencies that are not done.
pub fn remaining_dependencies()
    ensures { RemainingDependencies }
{}

/// If all done instances are ready, an instance that is not done is ready in the remaining map
/// exactly if it is ready in the whole map.
pub fn remaining_is_ready_alike()
    ensures { RemainingIsReadyAlike }
{}

/// If all done instances are ready, an instance that is not done waits for the same instance in the
/// remaining map as in the whole map.
pub fn remaining_waits_alike()
    ensures { RemainingWaitsAlike }
{}
