//! What a reply looks like.
use crate::members::is_whole_number;
use epx_types::entry::MAX_OPS;
use serde_json::Value;

/// Whether a value is a list of what a command reads: numbers, and null where a key is absent.
fn are_values(value: &Value) -> bool {
    let Some(values) = value.as_array() else {
        return false;
    };
    for value in values {
        if value.as_i64().is_none() && !value.is_null() {
            return false;
        }
    }
    values.len() <= MAX_OPS
}

/// Whether these are a reply: `"ok"` with what the command reads, or `"abort"` with the index of an
/// operation.
pub(crate) fn is_reply(kind: &Value, value: &Value) -> bool {
    match kind.as_str() {
        Some("ok") => are_values(value),
        Some("abort") => is_whole_number(value, MAX_OPS as u64 - 1),
        _ => false,
    }
}
