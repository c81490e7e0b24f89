//! Commands executed on a store.
ghost use Rattle.std.specs.Prelude.{◌≡◌, ◌≤◌, ◌^◌, length, map, slice_get, zip, IfOk, IfSome};
ghost use Rattle.epx_types.specs.CommittedMap.{ops_or_empty};
ghost use Rattle.epx_types.specs.Execution.{execute};

use epx_apply::run_from;
use epx_claims::FreeGate;
use epx_txn::Store;
use epx_types::{Command, Entry, Id, Memory, Plan, Reply};
use std::alloc::Global;
use std::random::RandomSource;
use std::thread::Threads;

/// The commands of entries at these positions. There is no operation where there is no entry.
pub(crate) fn commands_at<'a>(
    alloc: Global,
    entries: &'a [Entry],
    positions: &[(Id, usize)],
) -> Result<Vec<Command<'a>>, Memory>
    ensures { IfOk result (λ commands. map (λ c. c.ops.now) commands.items
        ≡ map (λ p. ops_or_empty (slice_get entries.now p.1)) positions.now) }
{
    let mut commands = Vec::with_capacity(alloc, positions.len())?;
    for (id, position) in positions {
        let ops = match entries.get(*position) {
            Some(entry) => entry.ops(),
            None => &[],
        };
        commands.push(Command { id: *id, ops })?;
    }
    Ok(commands)
}

/// Each Id with its reply.
fn pair_up(alloc: Global, ids: &[Id], replies: Vec<Reply>) -> Result<Vec<(Id, Reply)>, Memory>
    requires { length replies.items ≡ length ids.now }
    ensures { IfOk result (λ pairs. pairs.items ≡ zip ids.now replies.items) }
{
    let mut pairs = Vec::with_capacity(alloc, ids.len())?;
    for (id, reply) in ids.iter().zip(replies) {
        pairs.push((*id, reply))?;
    }
    Ok(pairs)
}

/// Executes the commands of instances, in order. Returns the store after them, and the reply of
/// each.
pub(crate) fn execute_all<R: Threads + RandomSource + Sync>(
    rt: &R,
    alloc: Global,
    store: Store,
    ids: &[Id],
    commands: &[Command],
    plan: Plan,
) -> Result<(Store, Vec<(Id, Reply)>), Memory>
    requires few { length commands.now ≤ 2 ^ 40 }
    requires same { length commands.now ≡ length ids.now }
    ensures store { IfOk result
        (λ v. v.0 ≡ (execute (map (λ c. c.ops.now) commands.now) store).final) }
    ensures replies { IfOk result (λ v. v.1.items
        ≡ zip ids.now (execute (map (λ c. c.ops.now) commands.now) store).replies) }
{
    let (store, replies) = run_from(rt, alloc, store, commands, plan, &FreeGate)?;
    let pairs = pair_up(alloc, ids, replies)?;
    Ok((store, pairs))
}

/// The store after these commands. None if memory runs out.
pub(crate) fn store_after<R: Threads + RandomSource + Sync>(
    rt: &R,
    alloc: Global,
    store: Store,
    commands: &[Command],
    plan: Plan,
) -> Option<Store>
    requires { length commands.now ≤ 2 ^ 40 }
    ensures { IfSome result
        (λ after. after ≡ (execute (map (λ c. c.ops.now) commands.now) store).final) }
{
    match run_from(rt, alloc, store, commands, plan, &FreeGate) {
        Ok((after, _replies)) => Some(after),
        Err(_) => None,
    }
}
