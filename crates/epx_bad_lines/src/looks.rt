//! What an input looks like.
use crate::lines::first_line;
use epx_lines::{MAX_LINE_BYTES, read_id, read_json};
use epx_types::Memory;
use serde_json::Value;
use std::alloc::Global;

/// What an input looks like, by one of its lines.
#[derive(Clone, Copy)]
pub enum Looks {
    Log,
    List,
    Report,
    History,
    Other,
}

/// The word with which an array begins.
fn first_word(value: &Value) -> Option<&str> {
    let [name, ..] = value.as_array()?.as_slice() else {
        return None;
    };
    name.as_str()
}

/// Whether an array begins with a word with which lines of reports begin.
pub fn is_report_line(value: &Value) -> bool {
    match first_word(value) {
        Some(name) => matches!(name, "executed" | "done" | "reply" | "waiting" | "store"),
        None => false,
    }
}

/// Whether an array begins as a call does.
fn is_call(value: &Value) -> bool {
    match first_word(value) {
        Some(name) => name == "call",
        None => false,
    }
}

/// What an input with this line looks like.
pub fn looks_by(value: &Value) -> Looks {
    if value.get("r").is_some() && value.get("i").is_some() {
        return Looks::Log;
    }
    if read_id(value).is_some() {
        return Looks::List;
    }
    if is_report_line(value) {
        return Looks::Report;
    }
    if is_call(value) {
        return Looks::History;
    }
    Looks::Other
}

/// What an input looks like, by its first line that is not blank.
pub fn looks_of(alloc: Global, input: &[u8]) -> Result<Looks, Memory> {
    let Some(bytes) = first_line(input) else {
        return Ok(Looks::Other);
    };
    if bytes.len() > MAX_LINE_BYTES {
        return Ok(Looks::Other);
    }
    match read_json(alloc, bytes)? {
        Some(value) => Ok(looks_by(&value)),
        None => Ok(Looks::Other),
    }
}
