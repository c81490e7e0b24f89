//! Reads a line that must be an array.
use crate::lines::LogLine;
use crate::members::is_whole_number;
use crate::not_json::explain_text;
use crate::shown::show_value;
use crate::texts::{found, made};
use epx_lines::{MAX_LINE_BYTES, read_json};
use epx_types::Memory;
use serde_json::Value;
use std::alloc::Global;

/// What a line is that must be an array.
#[derive(Drop)]
pub(crate) enum ArrayLine {
    /// An array of these elements.
    Elements(Vec<Value>),
    /// No array, for this reason.
    Bad(String),
}

/// Whether a line begins as an array does.
pub fn is_array_begun(bytes: &[u8]) -> bool {
    matches!(bytes.trim_ascii_start(), [b'[', ..])
}

/// Why a line that is no JSON text is no array.
fn explain_no_json(alloc: Global, line: LogLine<'_>) -> Result<String, Memory> {
    if !is_array_begun(line.bytes) {
        return made(String::from_str(alloc, "it does not begin with ["));
    }
    match explain_text(alloc, line)? {
        Some(text) => Ok(text),
        None => made(String::from_str(alloc, "it is no JSON text")),
    }
}

/// Reads a line that must be an array.
pub(crate) fn read_array_line(alloc: Global, line: LogLine<'_>) -> Result<ArrayLine, Memory> {
    let length = line.bytes.len();
    if length > MAX_LINE_BYTES {
        return Ok(ArrayLine::Bad(format!(in alloc;
            "it has {length} bytes, and at most {MAX_LINE_BYTES} are allowed"
        )?));
    }
    match read_json(alloc, line.bytes)? {
        Some(Value::Array(elements)) => Ok(ArrayLine::Elements(elements)),
        Some(_) => Ok(ArrayLine::Bad(String::from_str(alloc, "it is no array")?)),
        None => Ok(ArrayLine::Bad(explain_no_json(alloc, line)?)),
    }
}

/// Explains an element. None if it is a whole number of at most `most`.
pub(crate) fn explain_element(
    alloc: Global,
    index: usize,
    name: &str,
    value: &Value,
    most: u64,
) -> Result<Option<String>, Memory> {
    if is_whole_number(value, most) {
        return Ok(None);
    }
    let shown = show_value(alloc, value)?;
    found(format!(in alloc;
        "its element {index}, the {name}, is {shown}, and must be a whole number from 0 to {most}"
    ))
}
