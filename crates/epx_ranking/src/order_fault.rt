//! The fault of a list that is not a lawful order, or not a prefix of one.
use epx_types::{Id, Memory};

/// Why a list of instances is not a lawful order, or not a prefix of one. A `place` is a
/// position in the list, counted from 0.
#[derive(Clone, Copy, Debug, PartialEq, Eq)]
pub enum OrderFault {
    /// Memory ran out before the list was checked.
    Memory,
    /// The instance at this position is not ready.
    Stranger { place: usize },
    /// The instance at this position is also listed at an earlier one.
    Repeat { place: usize },
    /// This ready instance is not in the list. A prefix may lack any.
    Missing { id: Id },
    /// The instance at this position reaches another one, outside its component, that is not listed
    /// before it.
    Early { place: usize },
    /// An instance of the same component that belongs after the instance at this position is
    /// listed before it; or one that belongs before it is left out of a prefix.
    Sequence { place: usize },
}

impl From<Memory> for OrderFault {
    ghost use Rattle.std.specs.Prelude.{◌≡◌};
    ghost use Rattle.epx_ranking.specs.declared.order_fault.OrderFault.TheVariants.{Memory};

    ghost from_gives = { λ _ fault. fault ≡ Memory };

    fn from(_memory: Memory) -> OrderFault {
        OrderFault::Memory
    }
}
