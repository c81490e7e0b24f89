//! Laws of reaching, of components and of readiness.
ghost use Rattle.epx_laws.specs.ReachingLaws.{DependenciesAreListed, ReachingIsReflexive};
ghost use Rattle.epx_laws.specs.ReachingLaws.{ReachingIsTransitive, DependenciesAreReached};
ghost use Rattle.epx_laws.specs.ReachingLaws.{ReachingIsLeast, OneComponentIsEquivalence};
ghost use Rattle.epx_laws.specs.ReachingLaws.{MembersAreAlike, LeaderExists, LeaderIsUnique};
ghost use Rattle.epx_laws.specs.ReachingLaws.{DepthExists, DepthIsUnique, DepthFalls};
ghost use Rattle.epx_laws.specs.ReachingLaws.{DepthIsLeast, WaitsForOne, WaitingListExists};
ghost use Rattle.epx_laws.specs.ReachingLaws.{WaitingListIsUnique, ReadyOrWaits};
ghost use Rattle.epx_laws.specs.ReachingLaws.{ReadyWaitsForNothing, NoneMissingAllReady};
ghost use Rattle.epx_laws.specs.ReachingLaws.{WaitsWhereMissing};

/// Only committed instances depend on others, each exactly on the Ids in its list of dependencies.
pub fn dependencies_are_listed()
    ensures { DependenciesAreListed }
{}

/// Each instance reaches itself.
pub fn reaching_is_reflexive()
    ensures { ReachingIsReflexive }
{}

/// Reaching is transitive.
pub fn reaching_is_transitive()
    ensures { ReachingIsTransitive }
{}

/// A committed instance reaches its dependencies.
pub fn dependencies_are_reached()
    ensures { DependenciesAreReached }
{}

/// Reaching is the least relation that is reflexive and follows dependencies.
pub fn reaching_is_least()
    ensures { ReachingIsLeast }
{}

/// Being in one component is reflexive, symmetric and transitive.
pub fn one_component_is_equivalence()
    ensures { OneComponentIsEquivalence }
{}

/// Members of one component have the same leader and the same depth, and are ready together.
pub fn members_are_alike()
    ensures { MembersAreAlike }
{}

/// Each instance has a leader.
pub fn leader_exists()
    ensures { LeaderExists }
{}

/// An instance has at most one leader.
pub fn leader_is_unique()
    ensures { LeaderIsUnique }
{}

/// Each instance has a depth.
pub fn depth_exists()
    ensures { DepthExists }
{}

/// An instance has at most one depth.
pub fn depth_is_unique()
    ensures { DepthIsUnique }
{}

/// If x reaches y and y does not reach x, the depth of y is less.
pub fn depth_falls()
    ensures { DepthFalls }
{}

/// Depths are the least numbers that fall from x to y if x reaches y and y does not reach x.
pub fn depth_is_least()
    ensures { DepthIsLeast }
{}

/// An instance waits for at most one other.
pub fn waits_for_one()
    ensures { WaitsForOne }
{}

/// A committed map has a waiting list.
pub fn waiting_list_exists()
    ensures { WaitingListExists }
{}

/// A map has at most one waiting list.
pub fn waiting_list_is_unique()
    ensures { WaitingListIsUnique }
{}

/// A committed instance is ready, or waits for another.
pub fn ready_or_waits()
    ensures { ReadyOrWaits }
{}

/// A committed instance is ready exactly if it waits for nothing.
pub fn ready_waits_for_nothing()
    ensures { ReadyWaitsForNothing }
{}

/// If each dependency is committed, each committed instance is ready.
pub fn none_missing_all_ready()
    ensures { NoneMissingAllReady }
{}

/// An instance waits exactly if it is committed and reaches one that is not.
pub fn waits_where_missing()
    ensures { WaitsWhereMissing }
{}
