//! Reads what an executor goes on from: a state, or an earlier report.
ghost use Rattle.std.specs.Prelude.{◌↔◌, List, Contains, IfOk, IfErr, IsTrue};
ghost use Rattle.epx_types.specs.Contents.{Contents};
ghost use Rattle.epx_types.specs.declared.id.Id.{Id};
ghost use Rattle.epx_report.specs.Bases.{IsBase};
ghost use Rattle.epx_state.specs.Starts.{BeginsAsState, GoesOnFrom, HoldsReport, IsReportFault};
ghost use Rattle.epx_state.specs.Starts.{IsStartFault};

use crate::forms::read_counts_line;
use crate::read::read_state;
use epx_executor::laws::restarted_executor_holds_the_same;
use epx_executor::{DoneRuns, Executor};
use epx_lines::cut_line;
use epx_report::read_base_by;
use epx_types::{Fault, Id, Memory, Plan};
use std::alloc::Global;
use std::random::RandomSource;
use std::thread::Threads;

/// Whether the first line is that of a state. The first line of a report never is.
fn begins_as_state(alloc: Global, bytes: &[u8]) -> Result<bool, Memory>
    ensures { IfOk result (λ begins. IsTrue begins ↔ BeginsAsState bytes.now) }
{
    if bytes.is_empty() {
        return Ok(false);
    }
    let (first, _rest) = cut_line(bytes);
    Ok(read_counts_line(alloc, first)?.is_some())
}

/// The set of these Ids.
fn done_of(alloc: Global, ids: &[Id]) -> Result<DoneRuns, Memory>
    ensures { IfOk result (λ done. (x : Id) → Contains done x ↔ Contains ids.now x) }
{
    let none = DoneRuns::new(alloc);
    none.with(alloc, ids)
}

/// Makes an executor that holds what an earlier report says. What waits there is left out, since
/// the report does not say what it commits.
fn read_report<R: Threads + RandomSource + Sync>(
    rt: &R,
    alloc: Global,
    bytes: &[u8],
    plan: Plan,
) -> Result<Executor, Fault>
    ensures held { IfOk result (λ v. (executed : List Id) × (stored : Contents)
        × IsBase bytes.now executed stored × HoldsReport executed stored v) }
    ensures refused { IfErr result (IsReportFault bytes.now) }
{
    let (ids, store) = read_base_by(rt, alloc, bytes, plan)?.into_parts();
    let done = done_of(alloc, &ids)?;
    // The executor is given no instance, so it executes none.
    restarted_executor_holds_the_same();
    let (executor, _replies) = Executor::after(rt, alloc, done, store, Vec::new(alloc), plan)?;
    Ok(executor)
}

/// Reads a state as `read_state` does, or an earlier report, and makes an executor that goes on
/// from it. Of a report, the instances that wait are left out, so they have to come again. Returns
/// also the number of the line of the first waiting instance, which is 1 for a report. Takes
/// O(n log n) time for n bytes.
///
/// The faults are those of `read_state` if the first line is that of a state. Otherwise they are
/// those of a report:
/// - `BadBase`: the line is not allowed at its position, or it is missing at the end.
/// - `Memory`
pub fn read_start<R: Threads + RandomSource + Sync>(
    rt: &R,
    alloc: Global,
    bytes: &[u8],
    plan: Plan,
) -> Result<(Executor, usize), Fault>
    ensures restored { IfOk result (λ v. GoesOnFrom bytes.now v.0 v.1) }
    ensures refused { IfErr result (IsStartFault bytes.now) }
{
    if begins_as_state(alloc, bytes)? {
        return read_state(rt, alloc, bytes, plan);
    }
    Ok((read_report(rt, alloc, bytes, plan)?, 1))
}
