//! Laws of the orders of types.
ghost use Rattle.epx_laws.specs.ComparisonLaws.{OrdersAreAsStated};

/// Keys are ordered by bytes, Ids by replica and then number, places by log and then line.
pub fn orders_are_as_stated()
    ensures { OrdersAreAsStated }
{}
