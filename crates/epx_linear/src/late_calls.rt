//! The calls that are executed too late for the times at which clients saw them.
ghost use Rattle.std.specs.Prelude.{◌≡◌, ◌+◌, ◌<◌, ◌^◌, length, map, IfOk};
ghost use Rattle.epx_linear.specs.ClientCalls.{IsHistory, calls_at};
ghost use Rattle.epx_linear.specs.LateCalls.{AreFoundLate};
ghost use Rattle.epx_linear.specs.inner.Spans.{AreSpansOf, AreRanksOf};

use crate::calls::History;
use crate::client_call::ClientCall;
use crate::spans::Spans;
use epx_apply::KeyTable;
use epx_seed::Seed;
use epx_types::{Command, Id, Memory};
use std::alloc::Global;

/// Returns for each command the instance that its call is late for, if it is late.
fn find_late(
    alloc: Global,
    seed: Seed,
    history: &[ClientCall],
    spans: &Spans,
    commands: &[Command],
    places: &[Option<usize>],
) -> Result<Vec<Option<Id>>, Memory>
    requires history { IsHistory history.now }
    requires few { length spans.now.spans.items + 1 < 2 ^ 64 }
    requires spans { AreSpansOf history.now spans.now.spans.items }
    requires ranks { AreRanksOf spans.now.spans.items spans.now.ranks.items }
    requires whole { length places.now ≡ length commands.now }
    ensures { IfOk result (λ found. AreFoundLate (map (λ c. c.ops.now) commands.now)
        (calls_at history.now places.now) found.items) }
{
    let mut table = KeyTable::new(alloc, seed);
    let mut found = Vec::with_capacity(alloc, commands.len())?;
    for index in 0..commands.len() {
        let own = spans.rank_at(places[index]);
        let above = table.least_above(commands[index].ops)?;
        let latest = own.max(above.saturating_sub(1));
        table.note(latest);
        found.push(spans.id_if_late(own, latest))?;
    }
    Ok(found)
}

/// Returns for each command the instance that its call is late for, if it is late. The call of a
/// command is at its place in the history. Of all calls from which a chain of conflicts leads to
/// the command, that is the one with the latest invocation, the first by Id among equals. A call is
/// late for any of them exactly if it is late for this one. The table of keys hashes with the seed.
pub fn late_calls(
    alloc: Global,
    seed: Seed,
    commands: &[Command],
    history: &History,
    places: &[Option<usize>],
) -> Result<Vec<Option<Id>>, Memory>
    requires { length places.now ≡ length commands.now }
    ensures { IfOk result (λ found. AreFoundLate (map (λ c. c.ops.now) commands.now)
        (calls_at history.now places.now) found.items) }
{
    let calls = history.calls();
    let spans = Spans::new(alloc, calls)?;
    find_late(alloc, seed, calls, &spans, commands, places)
}
