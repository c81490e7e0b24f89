//! Finds an earlier call of an instance in a history.
use crate::lines::LogLine;
use epx_lines::{MAX_LINE_BYTES, cut_line, read_id_parts, read_json};
use epx_types::{Id, Memory};
use serde_json::Value;
use std::alloc::Global;

/// The instance that a call names.
fn called_by(value: &Value) -> Option<Id> {
    let [_, replica, number, ..] = value.as_array()?.as_slice() else {
        return None;
    };
    read_id_parts(replica, number)
}

/// The instance that a line calls.
fn read_called(alloc: Global, bytes: &[u8]) -> Result<Option<Id>, Memory> {
    if bytes.len() > MAX_LINE_BYTES {
        return Ok(None);
    }
    match read_json(alloc, bytes)? {
        Some(value) => Ok(called_by(&value)),
        None => Ok(None),
    }
}

/// The number of the first line that calls the same instance as this line does, if that is an
/// earlier one. `number` is that of this line.
pub(crate) fn find_earlier_call(
    alloc: Global,
    line: LogLine<'_>,
    number: usize,
) -> Result<Option<usize>, Memory> {
    let Some(id) = read_called(alloc, line.bytes)? else {
        return Ok(None);
    };
    let mut rest = line.log;
    for earlier in 1..number {
        if rest.is_empty() {
            return Ok(None);
        }
        let (bytes, more) = cut_line(rest);
        if read_called(alloc, bytes)? == Some(id) {
            return Ok(Some(earlier));
        }
        rest = more;
    }
    Ok(None)
}
