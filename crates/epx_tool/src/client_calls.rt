//! The text that says where the calls of clients are not linear.
ghost use Rattle.std.specs.Prelude.{◌≡◌, ◌≢◌, ◌≤◌, ◌^◌, ◌↔◌, length, map, true, IfOk};
ghost use Rattle.std.specs.FinMap as contents;
ghost use Rattle.std.specs.Thread.{IsSync};
ghost use Rattle.epx_types.specs.CommittedMap.{commands_in};
ghost use Rattle.epx_types.specs.Execution.{execute};
ghost use Rattle.epx_types.specs.Limits.{max_instances};
ghost use Rattle.epx_linear.specs.ClientCalls.{calls_at};
ghost use Rattle.epx_linear.specs.LateCalls.{AreFoundLate};
ghost use Rattle.epx_linear.specs.LinearTexts.{IsLinearText, linear_line};

use crate::findings::{Answer, is_not_line};
use epx_apply::run_from;
use epx_claims::FreeGate;
use epx_graph::build;
use epx_linear::late_calls::late_calls;
use epx_linear::{History, linear_text};
use epx_merge::Merged;
use epx_ranking::order;
use epx_replay::all_commands;
use epx_seed::Seed;
use epx_txn::Store;
use epx_types::{Command, Id, Memory, Plan, Reply};
use std::alloc::Global;
use std::random::RandomSource;
use std::thread::{Threads, join};

/// Executes commands one after another, from the empty store.
fn run_all<R: Threads + RandomSource + Sync>(
    rt: &R,
    alloc: Global,
    commands: &[Command],
    plan: Plan,
) -> Result<Vec<Reply>, Memory>
    requires { length commands.now ≤ 2 ^ 40 }
    ensures { IfOk result (λ replies. replies.items
        ≡ (execute (map (λ c. c.ops.now) commands.now) contents.empty).replies) }
{
    let (store, replies) = run_from(rt, alloc, Store::new(alloc), commands, plan, &FreeGate)?;
    drop(store);
    Ok(replies)
}

/// Executes commands, and beside finds which of the calls of the same commands are late. Each of
/// the two has commands of its own.
fn run_beside<'a, R: Threads + RandomSource + Sync>(
    rt: &R,
    alloc: Global,
    commands: Vec<Command<'a>>,
    again: Vec<Command<'a>>,
    history: &History,
    places: &[Option<usize>],
    plan: Plan,
) -> Result<(Vec<Reply>, Vec<Option<Id>>), Memory>
    requires few { length commands.items ≤ 2 ^ 40 }
    requires places { length places.now ≡ length again.items }
    ensures replies { IfOk result (λ found. found.0.items
        ≡ (execute (map (λ c. c.ops.now) commands.entry.items) contents.empty).replies) }
    ensures late { IfOk result (λ found. AreFoundLate (map (λ c. c.ops.now) again.entry.items)
        (calls_at history.now places.now) found.1.items) }
{
    let seed = Seed::draw(rt);
    let (late, ran) = join(
        rt,
        move || -> Result<Vec<Option<Id>>, Memory>
            requires { length places.now ≡ length again.items }
            ensures { IfOk result (λ late. AreFoundLate (map (λ c. c.ops.now) again.entry.items)
                (calls_at history.entry.now places.entry.now) late.items) }
        { late_calls(alloc, seed, &again, history, places) },
        move || -> Result<(Store, Vec<Reply>), Memory>
            requires { IsSync R.row × (length commands.items ≤ 2 ^ 40) }
            ensures { IfOk result (λ v. v.1.items
                ≡ (execute (map (λ c. c.ops.now) commands.entry.items) contents.empty).replies) }
        { run_from(rt, alloc, Store::new(alloc), &commands, plan, &FreeGate) },
    );
    let (store, replies) = ran?;
    drop(store);
    Ok((replies, late?))
}

/// Executes instances, and finds which of their calls are late. With several workers the one is
/// done beside the other.
fn run_and_find<R: Threads + RandomSource + Sync>(
    rt: &R,
    alloc: Global,
    merged: &Merged,
    ids: &[Id],
    history: &History,
    places: &[Option<usize>],
    plan: Plan,
) -> Result<(Vec<Reply>, Vec<Option<Id>>), Memory>
    requires few { length ids.now ≤ 2 ^ 40 }
    requires places { length places.now ≡ length ids.now }
    ensures replies { IfOk result (λ found. found.0.items
        ≡ (execute (commands_in merged.now ids.now) contents.empty).replies) }
    ensures late { IfOk result (λ found. AreFoundLate (commands_in merged.now ids.now)
        (calls_at history.now places.now) found.1.items) }
{
    let commands = all_commands(rt, alloc, merged, ids, plan)?;
    if plan.workers() > 1 {
        let again = all_commands(rt, alloc, merged, ids, plan)?;
        return run_beside(rt, alloc, commands, again, history, places, plan);
    }
    let late = late_calls(alloc, Seed::draw(rt), &commands, history, places)?;
    Ok((run_all(rt, alloc, &commands, plan)?, late))
}

/// Executes a committed map in its execution order, and returns where a history of calls does not
/// fit.
pub(crate) fn linear_of<R: Threads + RandomSource + Sync>(
    rt: &R,
    alloc: Global,
    merged: &Merged,
    history: &History,
    plan: Plan,
) -> Result<Answer, Memory>
    requires few { length merged.now ≤ max_instances }
    ensures text { IfOk result
        (λ answer. IsLinearText merged.now history.now answer.text.items) }
    ensures found { IfOk result (λ answer. (answer.has_findings ≡ true)
        ↔ (answer.text.items ≢ linear_line)) }
{
    let graph = build(rt, alloc, merged, plan)?;
    let order = order(rt, alloc, merged, &graph)?;
    drop(graph);
    let places = history.places(rt, alloc, order.ids(), plan)?;
    let (replies, late) = run_and_find(rt, alloc, merged, order.ids(), history, &places, plan)?;
    let text = linear_text(alloc, order.ids(), &replies, history, &places, &late)?;
    let has_findings = is_not_line(alloc, &text, "linear")?;
    Ok(Answer::new(text, has_findings))
}
