//! Reads a state.
ghost use Rattle.std.specs.Prelude.{◌≡◌, ◌+◌, IfOk, IfErr, length};
ghost use Rattle.epx_state.specs.StateFaults.{IsStateFault};
ghost use Rattle.epx_state.specs.StateForms.{StateParts};
ghost use Rattle.epx_state.specs.States.{HoldsState, IsState};
ghost use Rattle.epx_state.specs.inner.StateProgress.{parts_of};

use crate::progress::StateProgress;
use crate::restore::restore;
use epx_executor::Executor;
use epx_lines::{LineReader, cut_line};
use epx_types::{Fault, Plan};
use std::alloc::Global;
use std::random::RandomSource;
use std::thread::Threads;

/// Reads the lines of a state. Takes O(n log n) time for n bytes.
fn read_lines(alloc: Global, bytes: &[u8]) -> Result<StateProgress, Fault>
    ensures state { IfOk result (λ s. IsState bytes.now (parts_of s)) }
    ensures refused { IfErr result (IsStateFault bytes.now) }
{
    let mut progress = StateProgress::new(alloc);
    let mut reader = LineReader::new(alloc);
    let mut rest = bytes;
    let mut line = 1;
    while !rest.is_empty() {
        let (next, more) = cut_line(rest);
        if !progress.take_line(alloc, &mut reader, next)? {
            return Err(Fault::BadBase { line });
        }
        rest = more;
        line += 1;
    }
    if !progress.is_whole_state() {
        return Err(Fault::BadBase { line });
    }
    Ok(progress)
}

/// Reads a state, and makes an executor that holds its parts. Returns also the number of the line
/// of the first waiting instance, counted from 1. Takes O(n log n) time for n bytes.
///
/// The faults:
/// - `BadBase`: the line is not allowed at its position, or it is missing at the end, or its
///   instance does not wait for anything.
/// - `TooManyInstances`: more than `MAX_INSTANCES` wait.
/// - `Memory`
pub fn read_state<R: Threads + RandomSource + Sync>(
    rt: &R,
    alloc: Global,
    bytes: &[u8],
    plan: Plan,
) -> Result<(Executor, usize), Fault>
    ensures restored { IfOk result (λ v. (p : StateParts) × IsState bytes.now p
        × HoldsState p v.0 × (v.1 ≡ 2 + length p.runs)) }
    ensures refused { IfErr result (IsStateFault bytes.now) }
{
    let progress = read_lines(alloc, bytes)?;
    restore(rt, alloc, progress, plan)
}
