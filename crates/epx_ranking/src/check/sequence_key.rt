//! The order of the instances inside a component.
ghost use Rattle.std.specs.Prelude.{◌≡◌, ◌↔◌, None, replicate, IfOk, IsTrue};
ghost use Rattle.epx_ranking.specs.inner.SequenceKeys.{sequence_key_of, ComesBefore, ComesAfter};

use epx_types::{Entry, Id, Memory};
use std::alloc::Global;

/// The sort key of an instance among the members of its component. Keys are ordered by their
/// fields, the first field first.
#[derive(Clone, Copy, Debug, PartialEq, Eq, PartialOrd, Ord)]
pub(crate) struct SequenceKey {
    pub(crate) seq: u64,
    pub(crate) id: Id,
}

impl SequenceKey {
    /// The sort key of an instance.
    pub(crate) fn of(entry: &Entry) -> SequenceKey
        ensures { result ≡ sequence_key_of entry.now }
    {
        SequenceKey {
            seq: entry.seq(),
            id: entry.id(),
        }
    }
}

/// A list of `components` entries, all None.
pub(crate) fn no_sequence_keys(
    alloc: Global,
    components: usize,
) -> Result<Vec<Option<SequenceKey>>, Memory>
    ensures { IfOk result (λ no_keys. no_keys.items ≡ replicate components None) }
{
    Ok(vec![in alloc; None; components]?)
}

/// Whether a sequence key is less than another one, if there is another one.
pub(crate) fn comes_before(key_of_node: SequenceKey, last: Option<SequenceKey>) -> bool
    ensures { IsTrue result ↔ ComesBefore key_of_node last }
{
    match last {
        Some(last) => key_of_node < last,
        None => false,
    }
}

/// Whether a sequence key is greater than another one, if there is another one.
pub(crate) fn comes_after(key_of_node: SequenceKey, first: Option<SequenceKey>) -> bool
    ensures { IsTrue result ↔ ComesAfter key_of_node first }
{
    match first {
        Some(first) => first < key_of_node,
        None => false,
    }
}
