//! Executes the commands of instances, and writes their reply lines.
ghost use Rattle.std.specs.Prelude.{◌≡◌, ◌<◌, ◌≤◌, ◌^◌, ◌++◌, length, flat_map, map, zip, IfOk};
ghost use Rattle.std.specs.Thread.{IsSync};
ghost use Rattle.epx_report.specs.ReportLines.{reply_line};
ghost use Rattle.epx_types.specs.CommittedMap.{commands_in};
ghost use Rattle.epx_replay.specs.between.Replays.{Executes, Replays};

use crate::commands::all_commands;
use crate::reply_parts::reply_parts;
use epx_apply::run_from;
use epx_claims::{FreeGate, append_parts};
use epx_committed::Merged;
use epx_report::append_replies;
use epx_txn::Store;
use epx_types::{Command, Id, Memory, Plan, Reply};
use std::alloc::Global;
use std::random::RandomSource;
use std::thread::{Threads, join};

/// With several workers the instances are executed in this many batches.
const BATCHES: usize = 4;

/// A batch has at least this many instances, so that it is worth its threads.
const MIN_BATCH: usize = 4_096;

/// Appends the reply lines of executed instances. With several workers they write them.
fn append_lines<R: Threads + Sync>(
    rt: &R,
    alloc: Global,
    plan: Plan,
    text: Vec<u8>,
    ids: &[Id],
    replies: &[Reply],
) -> Result<Vec<u8>, Memory>
    requires few { length ids.now ≤ 2 ^ 40 }
    requires same { length replies.now ≡ length ids.now }
    ensures { IfOk result (λ longer. longer.items
        ≡ text.items ++ flat_map reply_line (zip ids.now replies.now)) }
{
    let mut text = text;
    if plan.workers() == 1 {
        append_replies(alloc, &mut text, ids, replies)?;
    } else {
        let parts = reply_parts(rt, alloc, ids, replies, plan)?;
        append_parts(&mut text, parts)?;
    }
    Ok(text)
}

/// Appends the reply lines of executed instances, and finds the commands of later ones.
fn write_and_find<'a, R: Threads + Sync>(
    rt: &R,
    alloc: Global,
    plan: Plan,
    text: Vec<u8>,
    merged: &'a Merged,
    ids: &[Id],
    replies: Vec<Reply>,
    later: &[Id],
) -> Result<(Vec<u8>, Vec<Command<'a>>), Memory>
    requires few { (length ids.now ≤ 2 ^ 40) × (length later.now ≤ 2 ^ 40) }
    requires same { length replies.items ≡ length ids.now }
    ensures text { IfOk result (λ v. v.0.items
        ≡ text.items ++ flat_map reply_line (zip ids.now replies.items)) }
    ensures found { IfOk result (λ v. map (λ c. c.ops.now) v.1.items
        ≡ commands_in merged.now later.now) }
{
    let text = append_lines(rt, alloc, plan, text, ids, &replies)?;
    let commands = all_commands(rt, alloc, merged, later, plan)?;
    Ok((text, commands))
}

/// Where a replay is between two batches: the text so far, the store, the replies of the batch
/// before, and the commands of the one to come.
#[derive(Drop)]
struct BatchStep<'a> {
    text: Vec<u8>,
    store: Store,
    replies: Vec<Reply>,
    commands: Vec<Command<'a>>,
}

/// Executes the commands of a batch. Meanwhile the plan's workers write the reply lines of the
/// batch before, which are of these instances, and find the commands of the later ones.
fn run_and_write<'a, R: Threads + RandomSource + Sync>(
    rt: &R,
    alloc: Global,
    plan: Plan,
    merged: &'a Merged,
    step: BatchStep<'a>,
    ids: &[Id],
    later: &[Id],
) -> Result<BatchStep<'a>, Memory>
    requires few { (length ids.now ≤ 2 ^ 40) × (length later.now ≤ 2 ^ 40) }
    requires few_now { length step.commands.items ≤ 2 ^ 40 }
    requires same { length step.replies.items ≡ length ids.now }
    ensures text { IfOk result (λ v. v.text.items
        ≡ step.entry.text.items ++ flat_map reply_line (zip ids.now step.entry.replies.items)) }
    ensures ran { IfOk result (λ v. Executes (map (λ c. c.ops.now) step.entry.commands.items)
        step.entry.store v.store v.replies.items) }
    ensures found { IfOk result (λ v. map (λ c. c.ops.now) v.commands.items
        ≡ commands_in merged.now later.now) }
{
    let BatchStep {
        text,
        store,
        replies,
        commands,
    } = step;
    if plan.workers() == 1 {
        let (text, next) = write_and_find(rt, alloc, plan, text, merged, ids, replies, later)?;
        let (store, replies) = run_from(rt, alloc, store, &commands, plan, &FreeGate)?;
        return Ok(BatchStep {
            text,
            store,
            replies,
            commands: next,
        });
    }
    // The last closure runs in this thread. The keys that it copies are freed here in the end.
    let (found, ran) = join(
        rt,
        move || -> Result<(Vec<u8>, Vec<Command>), Memory>
            requires { IsSync R.row × (length ids.now ≤ 2 ^ 40) × (length later.now ≤ 2 ^ 40)
                × (length replies.items ≡ length ids.now) }
            ensures { IfOk result (λ v. (v.0.items
                ≡ text.items ++ flat_map reply_line (zip ids.entry.now replies.items))
                × (map (λ c. c.ops.now) v.1.items
                ≡ commands_in merged.entry.now later.entry.now)) }
        { write_and_find(rt, alloc, plan, text, merged, ids, replies, later) },
        move || -> Result<(Store, Vec<Reply>), Memory>
            requires { IsSync R.row × (length commands.items ≤ 2 ^ 40) }
            ensures { IfOk result (λ v. Executes (map (λ c. c.ops.now) commands.entry.items)
                store v.0 v.1.items) }
        { run_from(rt, alloc, store, &commands, plan, &FreeGate) },
    );
    let (store, replies) = ran?;
    let (text, commands) = found?;
    Ok(BatchStep {
        text,
        store,
        replies,
        commands,
    })
}

/// The number of instances in a batch. The commands and the replies of a batch take the room of
/// those before. So one worker, which gains nothing by long batches, has short ones.
fn batch_len(plan: Plan, ids: usize) -> usize
    requires { ids ≤ 2 ^ 40 }
    ensures some { 0 < result }
    ensures few { result ≤ 2 ^ 40 }
{
    if plan.workers() == 1 {
        MIN_BATCH
    } else {
        ids.div_ceil(BATCHES).max(MIN_BATCH)
    }
}

/// Executes the commands of instances on a store, in order, and appends their reply lines. Returns
/// the store after them, and the text. With several workers the lines of one batch are written
/// while the next batch is executed.
pub fn replay<R: Threads + RandomSource + Sync>(
    rt: &R,
    alloc: Global,
    text: Vec<u8>,
    store: Store,
    merged: &Merged,
    ids: &[Id],
    plan: Plan,
) -> Result<(Store, Vec<u8>), Memory>
    requires { length ids.now ≤ 2 ^ 40 }
    ensures { IfOk result (λ v. Replays ids.now (commands_in merged.now ids.now)
        store v.0 text.items v.1.items) }
{
    let len = batch_len(plan, ids.len());
    // The instances before `end` are executed, and the reply lines of those before `start` are
    // written. The commands of those from `end` up to `next` are found.
    let (mut start, mut end, mut next) = (0, 0, len.min(ids.len()));
    let mut step = BatchStep {
        text,
        store,
        replies: Vec::new(alloc),
        commands: all_commands(rt, alloc, merged, &ids[..next], plan)?,
    };
    while end < ids.len() {
        let after = (next + len).min(ids.len());
        let (written, later) = (&ids[start..end], &ids[next..after]);
        step = run_and_write(rt, alloc, plan, merged, step, written, later)?;
        (start, end, next) = (end, next, after);
    }
    let BatchStep {
        text,
        store,
        replies,
        commands: _,
    } = step;
    let text = append_lines(rt, alloc, plan, text, &ids[start..end], &replies)?;
    Ok((store, text))
}
