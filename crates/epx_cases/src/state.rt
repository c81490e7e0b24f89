//! States of executors.
use epx_state::{read_state, state_text};
use epx_types::{Fault, Memory, Plan};
use std::alloc::Global;
use std::io;
use std::random::RandomSource;
use std::thread::Threads;

/// The state that is written of the executor that a text restores, behind the number of the line
/// where the instances that wait begin.
fn written_again<R: Threads + RandomSource + Sync>(
    rt: &R,
    alloc: Global,
    state: &[u8],
    plan: Plan,
) -> Result<Vec<u8>, Fault> {
    let (executor, line) = read_state(rt, alloc, state, plan)?;
    let written = state_text(alloc, &executor)?;
    let mut text = Vec::new(alloc);
    let Ok(first) = format!(in alloc; "waiting from line {line}\n") else {
        return Err(Fault::Memory);
    };
    text.extend_from_slice(first.as_bytes())
        .map_err(Memory::from)?;
    text.extend_from_slice(&written).map_err(Memory::from)?;
    Ok(text)
}

/// The state that is written of the executor that a text restores, behind the number of the line
/// where the instances that wait begin. If the text is refused, the line of the fault.
pub(crate) fn restored_state<R: Threads + RandomSource + Sync>(
    rt: &R,
    alloc: Global,
    state: &[u8],
    plan: Plan,
) -> io::Result<Vec<u8>> {
    match written_again(rt, alloc, state, plan) {
        Ok(text) => Ok(text),
        Err(fault) => {
            let line = format!(in alloc; "{fault}\n")?;
            Ok(Vec::from_slice(alloc, line.as_bytes())?)
        }
    }
}
