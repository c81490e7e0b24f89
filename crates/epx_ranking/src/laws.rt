//! Laws of order faults: the definition means what it should. Each function has an empty body, and
//! its contract is the law.
ghost use Rattle.epx_ranking.specs.PrefixFaultLaws.{PrefixFaultIsUnique, PrefixOrFault};
ghost use Rattle.epx_ranking.specs.PrefixFaultLaws.{LawfulPrefixHasNoFault};
ghost use Rattle.epx_ranking.specs.PrefixFaultLaws.{WholeListsAreCheckedAlike};
ghost use Rattle.epx_ranking.specs.OrderFaultLaws.{LawfulOrderHasNoFault, OrderFaultIsUnique};

/// A list has at most one fault, except for out of memory.
pub fn order_fault_is_unique()
    ensures { OrderFaultIsUnique }
{}

/// A lawful order has no fault, except for out of memory.
pub fn lawful_order_has_no_fault()
    ensures { LawfulOrderHasNoFault }
{}

/// A list is a prefix of a lawful order or has a fault.
pub fn prefix_or_fault()
    ensures { PrefixOrFault }
{}

/// A list has at most one fault as a prefix, except for out of memory.
pub fn prefix_fault_is_unique()
    ensures { PrefixFaultIsUnique }
{}

/// A prefix of a lawful order has no fault, except for out of memory.
pub fn lawful_prefix_has_no_fault()
    ensures { LawfulPrefixHasNoFault }
{}

/// A list with all ready instances has the same answer as a prefix and as an order.
pub fn whole_lists_are_checked_alike()
    ensures { WholeListsAreCheckedAlike }
{}
