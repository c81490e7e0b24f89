//! Reads the lines of a state.
ghost use Rattle.std.specs.Prelude.{◌≡◌, ◌&&◌, IfOk, IfSome, codes, option_and_then};
ghost use Rattle.serde_json.specs.View.{view};
ghost use Rattle.epx_lines.specs.Elements.{elements};
ghost use Rattle.epx_report.specs.Forms.{is_text};
ghost use Rattle.epx_executor.specs.Runs.{IsFilledRun};
ghost use Rattle.epx_state.specs.StateForms.{counts_from, counts_of_line, counts_of_list};
ghost use Rattle.epx_state.specs.StateForms.{entry_of_line, pair_of_line, pair_of_list, run_from};
ghost use Rattle.epx_state.specs.StateForms.{run_of_line, run_of_list};

use epx_executor::Run;
use epx_lines::{Line, LineFault, LineReader, read_id_parts, read_json, read_key, read_number};
use epx_report::has_text;
use epx_types::{Entry, Id, Key, Memory};
use serde_json::Value;
use std::alloc::Global;

/// The numbers of runs, of waiting instances and of pairs in a state.
#[derive(Clone, Copy)]
pub(crate) struct StateCounts {
    pub(crate) runs: u64,
    pub(crate) waiting: u64,
    pub(crate) stored: u64,
}

/// Whether the names of the counts are these texts.
fn are_names(name: &Value, runs: &Value, waiting: &Value, store: &Value) -> bool
    ensures { result ≡ (is_text (codes "state") (view name.now)
        && is_text (codes "runs") (view runs.now) && is_text (codes "waiting") (view waiting.now)
        && is_text (codes "store") (view store.now)) }
{
    has_text(name, "state")
        && has_text(runs, "runs")
        && has_text(waiting, "waiting")
        && has_text(store, "store")
}

/// The counts, if all three are whole numbers below 2^64.
fn read_counts(runs: &Value, waiting: &Value, stored: &Value) -> Option<StateCounts>
    ensures { result ≡ counts_from (view runs.now) (view waiting.now) (view stored.now) }
{
    let runs = read_number(runs)?;
    let waiting = read_number(waiting)?;
    let stored = read_number(stored)?;
    Some(StateCounts {
        runs,
        waiting,
        stored,
    })
}

/// `["state","runs",R,"waiting",W,"store",S]`
fn counts_of_value(value: &Value) -> Option<StateCounts>
    ensures { result ≡ option_and_then counts_of_list (elements (view value.now)) }
{
    let parts = value.as_array()?;
    let [name, a, runs, b, waiting, c, stored] = parts.as_slice() else {
        return None;
    };
    if !are_names(name, a, b, c) {
        return None;
    }
    read_counts(runs, waiting, stored)
}

/// The run of a replica from the first number to the last. None if one of them is no number of
/// its range, or the last is below the first.
fn read_run(replica: &Value, first: &Value, last: &Value) -> Option<Run>
    ensures run { result ≡ run_from (view replica.now) (view first.now) (view last.now) }
    ensures filled { IfSome result (λ r. IsFilledRun r) }
{
    let Id { replica, number } = read_id_parts(replica, first)?;
    let last = read_number(last)?;
    if last < number {
        return None;
    }
    Some(Run {
        replica,
        first: number,
        last,
    })
}

/// `["runs",r,first,last]`
fn run_of_value(value: &Value) -> Option<Run>
    ensures run { result ≡ option_and_then run_of_list (elements (view value.now)) }
    ensures filled { IfSome result (λ r. IsFilledRun r) }
{
    let parts = value.as_array()?;
    let [name, replica, first, last] = parts.as_slice() else {
        return None;
    };
    if !has_text(name, "runs") {
        return None;
    }
    read_run(replica, first, last)
}

/// `["store",k,v]`
fn pair_of_value(alloc: Global, value: &Value) -> Result<Option<(Key, i64)>, Memory>
    ensures { IfOk result (λ o. o ≡ option_and_then pair_of_list (elements (view value.now))) }
{
    let Some(parts) = value.as_array() else {
        return Ok(None);
    };
    let [name, key, number, rest @ ..] = parts.as_slice() else {
        return Ok(None);
    };
    if !rest.is_empty() {
        return Ok(None);
    }
    if !has_text(name, "store") {
        return Ok(None);
    }
    let Some(key) = read_key(alloc, key)? else {
        return Ok(None);
    };
    Ok(number.as_i64().map(|number| (key, number)))
}

/// Reads the first line of a state. None if it is none.
#[tactic(auto, unfolding(crate::specs::StateForms::counts_of_line))]
pub(crate) fn read_counts_line(alloc: Global, bytes: &[u8]) -> Result<Option<StateCounts>, Memory>
    ensures { IfOk result (λ o. o ≡ counts_of_line bytes.now) }
{
    match read_json(alloc, bytes)? {
        Some(value) => Ok(counts_of_value(&value)),
        None => Ok(None),
    }
}

/// Reads the line of a run. None if it is none.
#[tactic(auto, unfolding(crate::specs::StateForms::run_of_line))]
pub(crate) fn read_run_line(alloc: Global, bytes: &[u8]) -> Result<Option<Run>, Memory>
    ensures run { IfOk result (λ o. o ≡ run_of_line bytes.now) }
    ensures filled { IfOk result (λ o. IfSome o (λ r. IsFilledRun r)) }
{
    match read_json(alloc, bytes)? {
        Some(value) => Ok(run_of_value(&value)),
        None => Ok(None),
    }
}

/// Reads the line of a key and its value. None if it is none.
#[tactic(auto, unfolding(crate::specs::StateForms::pair_of_line))]
pub(crate) fn read_pair_line(alloc: Global, bytes: &[u8]) -> Result<Option<(Key, i64)>, Memory>
    ensures { IfOk result (λ o. o ≡ pair_of_line bytes.now) }
{
    match read_json(alloc, bytes)? {
        Some(value) => pair_of_value(alloc, &value),
        None => Ok(None),
    }
}

/// Reads the line of an instance that waits, as in a log. None if it is bad or commits none.
#[tactic(auto, unfolding(crate::specs::StateForms::entry_of_line))]
pub(crate) fn read_entry_line(
    alloc: Global,
    reader: &mut LineReader,
    bytes: &[u8],
) -> Result<Option<Entry>, Memory>
    ensures { IfOk result (λ o. o ≡ entry_of_line bytes.now) }
{
    match reader.read(alloc, bytes) {
        Ok(Line::Entry(entry)) => Ok(Some(entry)),
        Ok(Line::Blank) | Err(LineFault::Bad(_)) => Ok(None),
        Err(LineFault::Memory) => Err(Memory),
    }
}
