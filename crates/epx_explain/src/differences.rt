//! Explains how two lines that commit one instance differ.
use crate::contents::read_again;
use crate::inputs::{Input, Inputs};
use epx_bad_lines::{line_at, made};
use epx_lines::{Line, LineFault, read_line};
use epx_types::{Entry, Memory, Place};
use std::alloc::Global;
use std::rt::Files;

/// The instance that a line of an input commits now, if it can be read.
fn read_entry<R: Files>(
    rt: &R,
    alloc: Global,
    input: Input<'_>,
    line: usize,
) -> Result<Option<Entry>, Memory> {
    let contents = read_again(rt, alloc, input)?;
    let Ok(bytes) = contents.bytes() else {
        return Ok(None);
    };
    let Some(found) = line_at(bytes, line) else {
        return Ok(None);
    };
    match read_line(alloc, found.bytes) {
        Ok(Line::Entry(entry)) => Ok(Some(entry)),
        Ok(Line::Blank) | Err(LineFault::Bad(_)) => Ok(None),
        Err(LineFault::Memory) => Err(Memory),
    }
}

/// The names of the members in which two instances differ. None if they are equal.
fn names_of_differences(first: &Entry, second: &Entry) -> Option<&'static str> {
    let seq = first.seq() != second.seq();
    let deps = first.deps() != second.deps();
    let ops = first.ops() != second.ops();
    match (seq, deps, ops) {
        (false, false, false) => None,
        (true, false, false) => Some("\"seq\""),
        (false, true, false) => Some("\"deps\""),
        (false, false, true) => Some("\"ops\""),
        (true, true, false) => Some("\"seq\" and \"deps\""),
        (true, false, true) => Some("\"seq\" and \"ops\""),
        (false, true, true) => Some("\"deps\" and \"ops\""),
        (true, true, true) => Some("\"seq\", \"deps\" and \"ops\""),
    }
}

/// Which inputs the places are in.
fn name_both(
    alloc: Global,
    inputs: &Inputs<'_>,
    first: Place,
    second: Place,
) -> Result<String, Memory> {
    let name = inputs.numbered(first.log).name(alloc)?;
    if first.log == second.log {
        return Ok(name);
    }
    let other = inputs.numbered(second.log).name(alloc)?;
    made(format!(in alloc; "{name}, {other}"))
}

/// Names the members in which the lines at two places differ.
pub(crate) fn explain_differences<R: Files>(
    rt: &R,
    alloc: Global,
    inputs: &Inputs<'_>,
    first: Place,
    second: Place,
) -> Result<String, Memory> {
    let name = name_both(alloc, inputs, first, second)?;
    let one = read_entry(rt, alloc, inputs.numbered(first.log), first.line)?;
    let other = read_entry(rt, alloc, inputs.numbered(second.log), second.line)?;
    let (Some(one), Some(other)) = (one, other) else {
        return made(format!(in alloc;
            "{name}; the two lines cannot be compared again: \
they differ in \"seq\", \"deps\" or \"ops\""
        ));
    };
    match names_of_differences(&one, &other) {
        Some(members) => made(format!(in alloc; "{name}; they differ in {members}")),
        None => made(format!(in alloc; "{name}; the lines are equal now: have the files changed?")),
    }
}
