//! Laws of execution orders.
ghost use Rattle.epx_laws.specs.OrderLaws.{ExecutionOrderExists, ComponentsAreCounted};
ghost use Rattle.epx_laws.specs.OrderLaws.{RelatedKeepOrder, LawfulOrdersHaveSameIds};
ghost use Rattle.epx_laws.specs.OrderLaws.{LawfulOrdersExecuteAlike, ConflictsKeepOrder};
ghost use Rattle.epx_laws.specs.OrderLaws.{ExecutionOrderIsUnique, ExecutionOrderIsLawful};
ghost use Rattle.epx_laws.specs.OrderLaws.{LeadersAreInOrder, NotReachedCanFollow};
ghost use Rattle.epx_laws.specs.OrderLaws.{OrderedConflictsAreCovered};

/// A committed map has an execution order.
pub fn execution_order_exists()
    ensures { ExecutionOrderExists }
{}

/// A map has at most one execution order.
pub fn execution_order_is_unique()
    ensures { ExecutionOrderIsUnique }
{}

/// An execution order is lawful.
pub fn execution_order_is_lawful()
    ensures { ExecutionOrderIsLawful }
{}

/// The leader of each instance of an execution order is in the order, and is its own leader.
pub fn leaders_are_in_order()
    ensures { LeadersAreInOrder }
{}

/// If one of two instances reaches the other, they come in the same order in all lawful orders.
pub fn related_keep_order()
    ensures { RelatedKeepOrder }
{}

/// Lawful orders of one map have the same instances.
pub fn lawful_orders_have_same_ids()
    ensures { LawfulOrdersHaveSameIds }
{}

/// Two ready instances of a covered map that conflict come in the same order in all lawful orders.
pub fn conflicts_keep_order()
    ensures { ConflictsKeepOrder }
{}

/// If any two ready instances that conflict come in the same order in all lawful orders, the map is
/// covered.
pub fn ordered_conflicts_are_covered()
    ensures { OrderedConflictsAreCovered }
{}

/// Two lawful orders of a covered map leave the same contents, and each instance has the same
/// reply.
pub fn lawful_orders_execute_alike()
    ensures { LawfulOrdersExecuteAlike }
{}

/// An execution order has as many components as distinct leaders.
pub fn components_are_counted()
    ensures { ComponentsAreCounted }
{}

/// If a ready instance does not reach another, it comes before that one in some lawful order.
pub fn not_reached_can_follow()
    ensures { NotReachedCanFollow }
{}
