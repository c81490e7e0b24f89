//! Laws of the algorithm by which the protocol executes.
ghost use Rattle.epx_laws.specs.AlgorithmLaws.{AlgorithmIsLawful, SortedComponentsExist};

/// Executing component by component, each after those that it reaches, and the members of each by
/// sequence number, is lawful.
pub fn algorithm_is_lawful()
    ensures { AlgorithmIsLawful }
{}

/// Each committed map has components in such an order.
pub fn sorted_components_exist()
    ensures { SortedComponentsExist }
{}
