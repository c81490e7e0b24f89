//! Explains a bad line of a history.
use crate::array_line::{ArrayLine, explain_element, read_array_line};
use crate::earlier_call::find_earlier_call;
use crate::file_kind::explain_file_kind;
use crate::lines::LogLine;
use crate::members::{MAX_REPLICA, is_whole_number};
use crate::reply::is_reply;
use crate::shown::{show_bytes, show_value};
use crate::texts::{found, made};
use epx_types::Memory;
use serde_json::Value;
use std::alloc::Global;

/// The greatest time.
const MAX_TIME: u64 = (1 << 63) - 1;

const FORM: &str =
    "[\"call\",replica,number,invoked,returned], with the reply after it if it is known";

/// Explains that a call returned before it was invoked.
fn explain_span(
    alloc: Global,
    invoked: &Value,
    returned: &Value,
) -> Result<Option<String>, Memory> {
    match (invoked.as_u64(), returned.as_u64()) {
        (Some(start), Some(end)) if end < start => {
            found(format!(in alloc; "it returned at {end}, before it was invoked at {start}"))
        }
        _ => Ok(None),
    }
}

/// Explains the times of a call.
fn explain_times(
    alloc: Global,
    invoked: &Value,
    returned: &Value,
) -> Result<Option<String>, Memory> {
    if let Some(text) = explain_element(alloc, 3, "time it was invoked", invoked, MAX_TIME)? {
        return Ok(Some(text));
    }
    if returned.is_null() || is_whole_number(returned, MAX_TIME) {
        return explain_span(alloc, invoked, returned);
    }
    let shown = show_value(alloc, returned)?;
    found(format!(in alloc;
        "its element 4, the time it returned, is {shown}, and must be a whole number from 0 to \
{MAX_TIME}, or null where no answer came"
    ))
}

/// Explains the reply of a call, if it has one.
fn explain_reply(
    alloc: Global,
    returned: &Value,
    reply: &[Value],
) -> Result<Option<String>, Memory> {
    let text = match reply {
        [] => return Ok(None),
        [_, _] if returned.is_null() => "it has a reply, and must then have the time it returned",
        [kind, value] if is_reply(kind, value) => return Ok(None),
        [_, _] => "its reply must be \"ok\",[value,..] or \"abort\",operation",
        _ => "it has more or less than 5 elements, or 7 with its reply",
    };
    found(String::from_str(alloc, text))
}

/// Explains which element keeps an array from being a call.
fn explain_elements(alloc: Global, elements: &[Value]) -> Result<Option<String>, Memory> {
    let [name, replica, number, invoked, returned, reply @ ..] = elements else {
        let count = elements.len();
        return found(format!(in alloc; "it has {count} elements, and at least 5 are needed"));
    };
    if name.as_str() != Some("call") {
        let shown = show_value(alloc, name)?;
        return found(format!(in alloc; "its element 0 is {shown}, and must be \"call\""));
    }
    if let Some(text) = explain_element(alloc, 1, "replica", replica, MAX_REPLICA)? {
        return Ok(Some(text));
    }
    if let Some(text) = explain_element(alloc, 2, "number", number, u64::MAX)? {
        return Ok(Some(text));
    }
    if let Some(text) = explain_times(alloc, invoked, returned)? {
        return Ok(Some(text));
    }
    explain_reply(alloc, returned, reply)
}

/// Explains why a line is no call. None if it is one.
fn explain_form(alloc: Global, line: LogLine<'_>) -> Result<Option<String>, Memory> {
    match read_array_line(alloc, line)? {
        ArrayLine::Elements(elements) => explain_elements(alloc, elements.as_slice()),
        ArrayLine::Bad(text) => Ok(Some(text)),
    }
}

/// Explains a line that is a call.
fn explain_call(alloc: Global, line: LogLine<'_>, number: usize) -> Result<String, Memory> {
    match find_earlier_call(alloc, line, number)? {
        Some(earlier) => {
            made(format!(in alloc;
                "line {earlier} calls this instance too, and an instance has one call"
            ))
        }
        None => made(String::from_str(alloc, "has the file changed?")),
    }
}

/// Explains a bad line of a history.
pub fn explain_call_line(
    alloc: Global,
    line: LogLine<'_>,
    number: usize,
) -> Result<String, Memory> {
    if let Some(text) = explain_file_kind(alloc, line)? {
        return Ok(text);
    }
    let shown = show_bytes(alloc, line.bytes)?;
    if let Some(text) = explain_form(alloc, line)? {
        return made(format!(in alloc; "line {number} is {shown}, and must be {FORM}: {text}"));
    }
    let text = explain_call(alloc, line, number)?;
    made(format!(in alloc; "line {number} is {shown}: {text}"))
}
