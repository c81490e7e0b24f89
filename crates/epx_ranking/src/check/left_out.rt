//! The first instance of each component that a list leaves out.
ghost use Rattle.std.specs.Prelude.{◌≡◌, ◌<◌, ◌≤◌, length, All, IfOk};
ghost use Rattle.epx_ranking.specs.inner.SequenceKeys.{AreLeftOut};
ghost use Rattle.epx_components.specs.between.Partitions.{parts};

use super::sequence_key::{SequenceKey, comes_after, no_sequence_keys};
use epx_committed::Merged;
use epx_components::Partition;
use epx_types::Memory;
use std::alloc::Global;

/// For each component, the least sequence key of a committed member that is not in the list, or
/// None.
pub(crate) fn find_left_out(
    alloc: Global,
    merged: &Merged,
    partition: &Partition,
    marks: &[bool],
) -> Result<Vec<Option<SequenceKey>>, Memory>
    requires counted { All (λ c. c < (parts partition.now).count) (parts partition.now).component }
    requires committed { length merged.now ≤ length (parts partition.now).component }
    requires marks { length marks.now ≡ length (parts partition.now).component }
    ensures { IfOk result (λ left_out. AreLeftOut merged.now (parts partition.now) marks.now
        (length merged.now) left_out.items) }
{
    let mut left_out = no_sequence_keys(alloc, partition.count)?;
    for node in 0..merged.len() {
        if marks[node] {
            continue;
        }
        let own = partition.component[node];
        let key_of_node = SequenceKey::of(merged.entry_at(node));
        if !comes_after(key_of_node, left_out[own]) {
            left_out[own] = Some(key_of_node);
        }
    }
    Ok(left_out)
}
