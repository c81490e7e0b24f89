//! Explains a line that is no object, and members that hold a number or the status.
use crate::shown::show_value;
use crate::texts::found;
use epx_types::Memory;
use serde_json::Value;
use std::alloc::Global;

/// The greatest replica.
pub const MAX_REPLICA: u64 = 255;

/// What kind of JSON value it is.
fn kind_of(value: &Value) -> &'static str {
    match value {
        Value::Null => "null",
        Value::Bool(_) => "true or false",
        Value::Number(_) => "a number",
        Value::String(_) => "a text",
        Value::Array(_) => "an array",
        Value::Object(_) => "an object",
    }
}

/// Explains that a line is no object.
pub fn explain_kind(alloc: Global, value: &Value) -> Result<Option<String>, Memory> {
    if value.is_object() {
        return Ok(None);
    }
    let kind = kind_of(value);
    found(format!(in alloc; "the line is {kind}, and must be an object: one instance a line"))
}

/// Whether a value is a whole number of at most `most`.
pub(crate) fn is_whole_number(value: &Value, most: u64) -> bool {
    match value.as_u64() {
        Some(number) => number <= most,
        None => false,
    }
}

/// Explains a member that must be a whole number of at most `most`.
pub fn explain_number(
    alloc: Global,
    object: &Value,
    name: &str,
    most: u64,
) -> Result<Option<String>, Memory> {
    let Some(value) = object.get(name) else {
        return found(format!(in alloc;
            "\"{name}\" is missing: it must be a whole number from 0 to {most}"
        ));
    };
    if is_whole_number(value, most) {
        return Ok(None);
    }
    let shown = show_value(alloc, value)?;
    found(format!(in alloc; "\"{name}\" is {shown}, and must be a whole number from 0 to {most}"))
}

/// Explains the status.
pub fn explain_status(alloc: Global, object: &Value) -> Result<Option<String>, Memory> {
    let Some(value) = object.get("status") else {
        return Ok(None);
    };
    let shown = show_value(alloc, value)?;
    found(format!(in alloc;
        "status is none of committed, executed, accepted, pre-accepted: it is {shown}"
    ))
}
