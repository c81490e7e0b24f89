//! Writes the state of an executor.
ghost use Rattle.std.specs.Prelude.{◌≡◌, ◌≤◌, ◌++◌, false, map, flat_map, All, IfOk, OnOk};
ghost use Rattle.serde_json.specs.View.{view};
ghost use Rattle.serde_json.specs.Written.{has_float};
ghost use Rattle.epx_report.specs.ReportLines.{array_of, line_of};
ghost use Rattle.epx_executor.specs.Runs.{AreFilled, IsFilledRun};
ghost use Rattle.epx_state.specs.StateForms.{StateParts, entry_line, run_data, run_line};
ghost use Rattle.epx_state.specs.StateForms.{state_data, text_of_state};
ghost use Rattle.epx_state.specs.States.{HoldsState, IsState};
ghost use Rattle.epx_state.specs.inner.WrittenLines.{AreReadCounts, IsReadEntry, IsReadPair};
ghost use Rattle.epx_state.specs.inner.WrittenLines.{IsReadRun};

use epx_executor::{Executor, Run};
use epx_lines::write_line;
use epx_report::{append_line, append_pairs};
use epx_types::{Entry, Key, Memory};
use serde_json::{Value, json};
use std::alloc::{AllocError, Global};

const LINE_FEED: u8 = 10;

/// The value of the first line.
fn counts_value(
    alloc: Global,
    runs: usize,
    waiting: usize,
    stored: usize,
) -> Result<Value, AllocError>
    ensures data { IfOk result (λ v. view v
        ≡ array_of (state_data (record { runs = runs; waiting = waiting; stored = stored }))) }
    ensures whole { IfOk result (λ v. has_float (view v) ≡ false) }
    ensures read { OnOk result
        (AreReadCounts (record { runs = runs; waiting = waiting; stored = stored })) }
{
    let (runs, waiting, stored) = (runs as u64, waiting as u64, stored as u64);
    json!(in alloc; ["state", "runs", runs, "waiting", waiting, "store", stored])
}

/// Appends the first line.
fn append_counts(
    alloc: Global,
    text: &mut Vec<u8>,
    runs: usize,
    waiting: usize,
    stored: usize,
) -> Result<(), Memory>
    ensures text { OnOk result (text.new.items ≡ text.old.items
        ++ line_of (state_data (record { runs = runs; waiting = waiting; stored = stored }))) }
    ensures read { OnOk result
        (AreReadCounts (record { runs = runs; waiting = waiting; stored = stored })) }
{
    append_line(alloc, text, &counts_value(alloc, runs, waiting, stored)?)
}

/// The value of the line of a run.
fn run_value(alloc: Global, replica: u8, first: u64, last: u64) -> Result<Value, AllocError>
    requires { first ≤ last }
    ensures data { IfOk result (λ v. view v
        ≡ array_of (run_data (record { replica = replica; first = first; last = last }))) }
    ensures whole { IfOk result (λ v. has_float (view v) ≡ false) }
    ensures read { OnOk result
        (IsReadRun (record { replica = replica; first = first; last = last })) }
{
    json!(in alloc; ["runs", replica, first, last])
}

/// Appends the line of a run.
fn append_run(alloc: Global, text: &mut Vec<u8>, run: Run) -> Result<(), Memory>
    requires { IsFilledRun run }
    ensures text { OnOk result (text.new.items ≡ text.old.items ++ run_line run) }
    ensures read { OnOk result (IsReadRun run) }
{
    let value = run_value(alloc, run.replica, run.first, run.last)?;
    append_line(alloc, text, &value)
}

/// Appends the lines of runs.
fn append_runs(alloc: Global, text: &mut Vec<u8>, runs: &[Run]) -> Result<(), Memory>
    requires { AreFilled runs.now }
    ensures text { OnOk result (text.new.items ≡ text.old.items ++ flat_map run_line runs.now) }
    ensures read { OnOk result (All IsReadRun runs.now) }
{
    for run in runs {
        append_run(alloc, text, *run)?;
    }
    Ok(())
}

/// Appends the line of an instance, as in a log.
fn append_entry(alloc: Global, text: &mut Vec<u8>, entry: &Entry) -> Result<(), Memory>
    ensures text { OnOk result (text.new.items ≡ text.old.items ++ entry_line entry.now) }
    ensures read { OnOk result (IsReadEntry entry.now) }
{
    text.extend_from_slice(write_line(alloc, entry)?.as_bytes())?;
    text.push(LINE_FEED)?;
    Ok(())
}

/// Appends the lines of instances, as in a log.
fn append_entries(alloc: Global, text: &mut Vec<u8>, entries: &[&Entry]) -> Result<(), Memory>
    ensures text { OnOk result (text.new.items
        ≡ text.old.items ++ flat_map entry_line (map (λ e. e.now) entries.now)) }
    ensures read { OnOk result (All (λ e. IsReadEntry e.now) entries.now) }
{
    for entry in entries {
        append_entry(alloc, text, entry)?;
    }
    Ok(())
}

/// The line of any key with any value is read as these.
fn pair_is_read(key: &Key, value: &i64)
    ensures { IsReadPair (key.now, value.now) }
{
    let _key = key.text();
    let _value = *value;
}

/// The line of each pair of a list is read as this pair, which `append_pairs` does not say. The
/// call does nothing when it runs: it only shows what the types of keys and values say.
fn pairs_are_read(pairs: &[(&Key, i64)])
    ensures { All (λ p. IsReadPair (p.0.now, p.1)) pairs.now }
{
    for (key, value) in pairs {
        pair_is_read(key, value);
    }
}

/// The state of an executor, as a text. Takes time n log n in what it holds. The only error is out
/// of memory.
pub fn state_text(alloc: Global, executor: &Executor) -> Result<Vec<u8>, Memory>
    ensures { IfOk result (λ text. (p : StateParts) × HoldsState p executor.now
        × (text.items ≡ text_of_state p) × IsState text.items p) }
{
    let runs = executor.done().runs();
    let waiting = executor.pending(alloc)?;
    let stored = executor.store().pairs()?;
    let mut text = Vec::new(alloc);
    append_counts(alloc, &mut text, runs.len(), waiting.len(), stored.len())?;
    append_runs(alloc, &mut text, runs)?;
    append_entries(alloc, &mut text, &waiting)?;
    pairs_are_read(&stored);
    append_pairs(alloc, &mut text, &stored)?;
    Ok(text)
}
