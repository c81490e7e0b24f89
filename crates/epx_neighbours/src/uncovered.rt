//! All neighbours that are not related.
ghost use Rattle.std.specs.Prelude.{◌≡◌, ◌<◌, length, map, All, IfOk};
ghost use Rattle.epx_types.specs.CommittedMap.{commands_in};
ghost use Rattle.epx_types.specs.ExecutionOrder.{IsExecutionOrder, ranked_ids};
ghost use Rattle.epx_graph.specs.GraphOf.{IsGraphOf};
ghost use Rattle.epx_neighbours.specs.UncoveredNeighbours.{AreUncoveredPairs};
ghost use Rattle.epx_neighbours.specs.UncoveredTexts.{IsUncoveredText};
ghost use Rattle.epx_neighbours.specs.inner.KeyNumbers.{keys_in};
ghost use Rattle.epx_neighbours.specs.inner.UncoveredRows.{pair_of};

use crate::key_numbers::number_keys;
use crate::key_touch::find_touches;
use crate::neighbours::{Neighbours, find_neighbours};
use crate::uncovered_lines::rows_text;
use crate::uncovered_row::{UncoveredRow, rows_of};
use epx_audit::related_pairs;
use epx_committed::{Merged, commands_of};
use epx_components::OrderList;
use epx_graph::Graph;
use epx_types::{Command, Key, Memory};
use std::alloc::Global;

/// The positions of neighbours, the later one first.
fn positions_of(alloc: Global, found: &[Neighbours]) -> Result<Vec<(usize, usize)>, Memory>
    ensures { IfOk result (λ pairs. pairs.items ≡ map (λ n. (n.after, n.before)) found.now) }
{
    let mut pairs = Vec::with_capacity(alloc, found.len())?;
    for neighbours in found {
        pairs.push((neighbours.after, neighbours.before))?;
    }
    Ok(pairs)
}

/// The neighbours that are not related, rising.
fn find_uncovered(
    alloc: Global,
    merged: &Merged,
    graph: &Graph,
    order: &OrderList,
    commands: &[Command],
    keys: &[&Key],
) -> Result<Vec<UncoveredRow>, Memory>
    requires graph { IsGraphOf merged.now graph.now }
    requires order { IsExecutionOrder merged.now order.now }
    requires commands { map (λ c. c.ops.now) commands.now
        ≡ commands_in merged.now (ranked_ids order.now) }
    requires keys { map (λ k. k.now) keys.now ≡ keys_in (map (λ c. c.ops.now) commands.now) }
    ensures within { IfOk result (λ rows. All (λ r. r.key < length keys.now) rows.items) }
    ensures listed { IfOk result (λ rows. AreUncoveredPairs merged.now order.now
        (map (pair_of (map (λ k. k.now) keys.now)) rows.items)) }
{
    let touches = find_touches(alloc, commands, keys)?;
    let found = find_neighbours(alloc, &touches)?;
    let pairs = positions_of(alloc, &found)?;
    let marks = related_pairs(alloc, merged, graph, order, &pairs)?;
    rows_of(alloc, order.ids(), &found, &marks)
}

/// The text that says which neighbours are not related, so that all dependencies can be mended in
/// one round: a line `["uncovered",r,i,r2,i2,"k"]` for each two instances that are neighbours on a
/// key and of which neither reaches the other, or the line `["covered"]`. The instance that is
/// executed first comes first. The lines rise by the first Id, the second Id and the key. `graph`
/// and `order` have to be those of the map.
///
/// Takes n log n time in the operations, beside the time of `related_pairs`. The only error is out
/// of memory.
pub fn uncovered_text(
    alloc: Global,
    merged: &Merged,
    graph: &Graph,
    order: &OrderList,
) -> Result<Vec<u8>, Memory>
    requires graph { IsGraphOf merged.now graph.now }
    requires order { IsExecutionOrder merged.now order.now }
    ensures { IfOk result (λ text. IsUncoveredText merged.now text.items) }
{
    let commands = commands_of(alloc, merged, order.ids())?;
    let keys = number_keys(alloc, &commands)?;
    let rows = find_uncovered(alloc, merged, graph, order, &commands, &keys)?;
    rows_text(alloc, &rows, &keys)
}
