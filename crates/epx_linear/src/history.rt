//! Reads a history.
ghost use Rattle.std.specs.Prelude.{◌≡◌, true, IfOk, IfErr, OnOk};
ghost use Rattle.epx_report.specs.inner.Progress.{some_if};
ghost use Rattle.epx_linear.specs.HistoryTexts.{IsHistoryText, IsHistoryFault};
ghost use Rattle.epx_linear.specs.inner.HistoryReadings.{called_ids, after_call, after_call_line};

use crate::call_reader::CallReader;
use crate::call_table::CallTable;
use crate::calls::History;
use crate::client_call::ClientCall;
use crate::history_parts::{Unread, read_pieces};
use epx_lines::{cut_line, cut_lines, is_blank_line};
use epx_report::BaseFault;
use epx_seed::Seed;
use epx_types::{Id, Memory, Plan};
use indexmap::IndexSet;
use std::alloc::Global;
use std::random::RandomSource;
use std::thread::Threads;

/// A history of more lines than this is read line by line.
const MAX_LINES: usize = 1 << 40;

/// Takes one more call. False if its instance was called. The table has the instances of the
/// calls, in their order.
fn take_call(
    calls: &mut Vec<ClientCall>,
    ids: &mut IndexSet<Id, Seed>,
    call: ClientCall,
) -> Result<bool, Memory>
    requires { ids.old.keys ≡ called_ids calls.old.items }
    ensures calls { IfOk result (λ is_allowed. after_call calls.old.items call
        ≡ some_if is_allowed calls.new.items) }
    ensures ids { OnOk result (ids.new.keys ≡ called_ids calls.new.items) }
{
    if ids.contains(&call.id) {
        return Ok(false);
    }
    ids.insert(call.id)?;
    calls.push(call)?;
    Ok(true)
}

/// Reads and takes one more line. False if it is not blank, and says no call or calls an instance
/// again.
fn take_line(
    alloc: Global,
    reader: &mut CallReader,
    calls: &mut Vec<ClientCall>,
    ids: &mut IndexSet<Id, Seed>,
    bytes: &[u8],
) -> Result<bool, Memory>
    requires { ids.old.keys ≡ called_ids calls.old.items }
    ensures calls { IfOk result (λ is_allowed. after_call_line calls.old.items bytes.now
        ≡ some_if is_allowed calls.new.items) }
    ensures ids { OnOk result (ids.new.keys ≡ called_ids calls.new.items) }
{
    if is_blank_line(bytes) {
        return Ok(true);
    }
    match reader.read(alloc, bytes)? {
        Some(call) => take_call(calls, ids, call),
        None => Ok(false),
    }
}

/// Reads a history line by line.
fn read_in_order(alloc: Global, seed: Seed, bytes: &[u8]) -> Result<Vec<ClientCall>, BaseFault>
    ensures history { IfOk result (λ calls. IsHistoryText bytes.now calls.items) }
    ensures bad { IfErr result (λ f. IsHistoryFault bytes.now f) }
{
    let mut reader = CallReader::new(alloc);
    let mut calls = Vec::new(alloc);
    let mut ids = IndexSet::with_hasher(alloc, seed);
    let mut rest = bytes;
    let mut line = 1;
    while !rest.is_empty() {
        let (next, more) = cut_line(rest);
        if !take_line(alloc, &mut reader, &mut calls, &mut ids, next)? {
            return Err(BaseFault::Bad { line });
        }
        rest = more;
        line += 1;
    }
    Ok(calls)
}

/// The history, if the bytes are one. The plan's workers read the lines.
fn read_together<R: Threads + Sync>(
    rt: &R,
    alloc: Global,
    bytes: &[u8],
    plan: Plan,
) -> Result<History, Unread>
    ensures { IfOk result (IsHistoryText bytes.now) }
{
    let lines = cut_lines(alloc, bytes)?;
    if lines.len() > MAX_LINES {
        return Err(Unread);
    }
    let calls = read_pieces(rt, alloc, &lines, plan)?;
    match CallTable::of(rt, alloc, &calls)? {
        Some(table) => Ok(History::new(calls, table)),
        None => Err(Unread),
    }
}

/// Reads a history, one call on each line, in the order of the lines. Blank lines are skipped but
/// counted. The plan's workers read the lines. If they are no history, or there is too little
/// memory for that, they are read again, one after another. Takes time n log n in the calls, and
/// linear in the bytes. Returns `Bad` with the first line that is not blank, and says no call or
/// calls an instance again, counted from 1. Returns `Memory` only if an allocation fails.
pub fn read_history<R: Threads + RandomSource + Sync>(
    rt: &R,
    alloc: Global,
    bytes: &[u8],
    plan: Plan,
) -> Result<History, BaseFault>
    ensures history { IfOk result (IsHistoryText bytes.now) }
    ensures bad { IfErr result (λ f. IsHistoryFault bytes.now f) }
{
    if let Ok(history) = read_together(rt, alloc, bytes, plan) {
        return Ok(history);
    }
    let calls = read_in_order(alloc, Seed::draw(rt), bytes)?;
    let table = CallTable::new(rt, alloc, &calls)?;
    Ok(History::new(calls, table))
}
