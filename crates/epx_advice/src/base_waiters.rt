//! Reads the waiting lines of a base.
use epx_lines::{cut_lines, read_id_parts, read_json};
use epx_types::{Id, Memory};
use serde_json::Value;
use std::alloc::Global;

/// Whether a line of a base may be one of a waiting instance. No other line has a name that begins
/// with this letter, and an escape may be any letter.
fn may_be_waiting(line: &[u8]) -> bool {
    let [b'[', rest @ ..] = line.trim_ascii_start() else {
        return false;
    };
    matches!(rest.trim_ascii_start(), [b'"', b'w' | b'\\', ..])
}

/// The instance r.i of `["waiting",r,i,mr,mi]`. None for other elements.
fn waiter_of(parts: &[Value]) -> Option<Id> {
    let [name, replica, number, _, _] = parts else {
        return None;
    };
    if name.as_str()? != "waiting" {
        return None;
    }
    read_id_parts(replica, number)
}

/// The instance of a waiting line. None for any other line.
fn read_waiter(alloc: Global, line: &[u8]) -> Result<Option<Id>, Memory> {
    if !may_be_waiting(line) {
        return Ok(None);
    }
    let Some(value) = read_json(alloc, line)? else {
        return Ok(None);
    };
    match value.as_array() {
        Some(parts) => Ok(waiter_of(parts)),
        None => Ok(None),
    }
}

/// The instances that wait in a base, in its order. Takes time linear in the bytes.
pub(crate) fn read_waiters(alloc: Global, base: &[u8]) -> Result<Vec<Id>, Memory> {
    let lines = cut_lines(alloc, base)?;
    let mut waiters = Vec::new(alloc);
    for line in &lines {
        if let Some(id) = read_waiter(alloc, line)? {
            waiters.push(id)?;
        }
    }
    Ok(waiters)
}
