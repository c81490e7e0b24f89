//! Explains a bad line of a list.
use crate::array_line::{ArrayLine, explain_element, read_array_line};
use crate::file_kind::explain_file_kind;
use crate::lines::LogLine;
use crate::members::MAX_REPLICA;
use crate::shown::show_bytes;
use crate::texts::{found, made};
use epx_types::Memory;
use serde_json::Value;
use std::alloc::Global;

/// Explains which element keeps an array from being `[replica,number]`.
fn explain_elements(alloc: Global, elements: &[Value]) -> Result<Option<String>, Memory> {
    let [replica, number] = elements else {
        let count = elements.len();
        return found(format!(in alloc; "it has {count} in place of 2 elements"));
    };
    if let Some(text) = explain_element(alloc, 0, "replica", replica, MAX_REPLICA)? {
        return Ok(Some(text));
    }
    explain_element(alloc, 1, "number", number, u64::MAX)
}

/// Explains why a line is not `[replica,number]`. None if it is.
fn explain_form(alloc: Global, line: LogLine<'_>) -> Result<Option<String>, Memory> {
    match read_array_line(alloc, line)? {
        ArrayLine::Elements(elements) => explain_elements(alloc, elements.as_slice()),
        ArrayLine::Bad(text) => Ok(Some(text)),
    }
}

/// Explains a bad line of a list.
pub fn explain_list_line(
    alloc: Global,
    line: LogLine<'_>,
    number: usize,
) -> Result<String, Memory> {
    if let Some(text) = explain_file_kind(alloc, line)? {
        return Ok(text);
    }
    let shown = show_bytes(alloc, line.bytes)?;
    match explain_form(alloc, line)? {
        Some(text) => {
            made(format!(in alloc;
                "line {number} is {shown}, and must be [replica,number]: {text}"
            ))
        }
        None => made(format!(in alloc; "line {number} is {shown}: has the file changed?")),
    }
}
