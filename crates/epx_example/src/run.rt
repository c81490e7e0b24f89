//! Runs over entries in memory.
ghost use Rattle.epx_types.specs.Ids.{IsRising};

use crate::order_entries::{Ordered, order_entries};
use epx_apply::run_order;
use epx_claims::FreeGate;
use epx_committed::{MAX_INSTANCES, commands_of};
use epx_graph::{Waiter, waiting};
use epx_order::OrderList;
use epx_txn::Store;
use epx_types::{Entry, Fault, Id, Plan, Reply};
use std::alloc::Global;
use std::random::RandomSource;
use std::thread::Threads;

/// What a run comes to: the execution order, the reply of each of its instances, and which
/// instances wait.
#[derive(Drop)]
pub(crate) struct RunResult {
    pub(crate) order: OrderList,
    pub(crate) replies: Vec<Reply>,
    pub(crate) waiters: Vec<Waiter>,
}

/// Executes the instances of the entries that are ready and not done, over the store.
pub(crate) fn run<R: Threads + RandomSource + Sync>(
    rt: &R,
    alloc: Global,
    entries: Vec<Entry>,
    done: &[Id],
    store: &mut Store,
    plan: Plan,
) -> Result<RunResult, Fault>
    requires { IsRising done.now }
{
    let Ordered {
        merged,
        graph,
        order,
    } = order_entries(rt, alloc, entries, done, plan)?;
    let waiters = waiting(alloc, &graph)?;
    let commands = commands_of(alloc, &merged, order.ids())?;
    if commands.len() > MAX_INSTANCES {
        return Err(Fault::TooManyInstances);
    }
    let replies = run_order(rt, alloc, store, &commands, plan, &FreeGate)?;
    Ok(RunResult {
        order,
        replies,
        waiters,
    })
}
