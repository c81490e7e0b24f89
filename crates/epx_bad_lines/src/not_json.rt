//! Explains a line that is no JSON text.
use crate::file_kind::explain_file_kind;
use crate::lines::LogLine;
use crate::shown::show_bytes;
use crate::texts::made;
use epx_types::Memory;
use serde_json::{Error, Value};
use std::alloc::Global;

/// So many bytes before the bad one are shown.
const SHOWN_BEFORE: usize = 20;

/// JSON may be nested so deep.
const MAX_NESTING: usize = 127;

/// Whether a line looks like the first of several that one JSON value is written over.
fn is_begun(bytes: &[u8]) -> bool {
    matches!(bytes.trim_ascii_end(), [.., b'{' | b'[' | b',' | b':'])
}

/// What may have gone wrong, if the line ends within its value.
fn explain_end(line: LogLine<'_>) -> &'static str {
    if !line.has_line_feed {
        "the line ends without a line feed: cut off?"
    } else if is_begun(line.bytes) {
        "JSON over several lines? write one instance a line"
    } else {
        "cut off? write one instance a line"
    }
}

/// Whether the bytes are a JSON text.
fn is_json(alloc: Global, bytes: &[u8]) -> Result<bool, Memory> {
    match Value::from_slice(alloc, bytes) {
        Ok(_) => Ok(true),
        Err(error) if error.is_memory() => Err(Memory),
        Err(_) => Ok(false),
    }
}

/// How many arrays and objects are open after the bytes of a JSON text.
fn nesting_of(bytes: &[u8]) -> usize {
    let mut nesting = 0_usize;
    let mut in_text = false;
    let mut is_escaped = false;
    for byte in bytes {
        match *byte {
            _ if is_escaped => is_escaped = false,
            b'\\' => is_escaped = in_text,
            b'"' => in_text = !in_text,
            b'[' | b'{' if !in_text => nesting = nesting.saturating_add(1),
            b']' | b'}' if !in_text => nesting = nesting.saturating_sub(1),
            _ => {}
        }
    }
    nesting
}

/// What JSON needs after these bytes.
fn expected_after(bytes: &[u8]) -> &'static str {
    match bytes.trim_ascii_end() {
        [.., b'{'] => "a name in double quotes, or },",
        [.., b'['] => "a value, or ],",
        [.., b':'] => "a value",
        [.., b','] => "a further member or element",
        _ => "a colon, a comma, ] or }",
    }
}

/// The last bytes before the bad one.
fn show_before(alloc: Global, before: &[u8]) -> Result<String, Memory> {
    let start = before.len().saturating_sub(SHOWN_BEFORE);
    show_bytes(alloc, &before[start..])
}

/// Explains bytes that do not belong after others, which are begun JSON.
fn explain_next(alloc: Global, before: &[u8], shown: &str) -> Result<String, Memory> {
    let expected = expected_after(before);
    let front = show_before(alloc, before)?;
    made(format!(in alloc; "{expected} must follow `{front}`, not `{shown}`"))
}

/// Explains characters that do not belong after bytes.
fn explain_shown(
    alloc: Global,
    before: &[u8],
    after: &[u8],
    shown: &str,
) -> Result<String, Memory> {
    if before.is_empty() {
        return made(format!(in alloc; "the line must begin with {{, not `{shown}`"));
    }
    if is_json(alloc, before)? {
        return made(format!(in alloc; "after the value comes `{shown}`: one instance a line"));
    }
    if is_begun(before) && after.starts_with(b"\"") {
        return made(format!(in alloc; "a text with a control byte or a bad escape: `{shown}`"));
    }
    explain_next(alloc, before, shown)
}

/// Whether bytes do not begin with a character.
fn begins_badly(bytes: &[u8]) -> bool {
    match str::from_utf8(bytes) {
        Ok(_) => false,
        Err(bad) => bad.valid_up_to() == 0,
    }
}

/// Explains bytes that do not belong after others.
fn explain_place(alloc: Global, before: &[u8], after: &[u8]) -> Result<String, Memory> {
    if begins_badly(after) {
        return made(String::from_str(alloc, "the byte is not UTF-8"));
    }
    if nesting_of(before) >= MAX_NESTING {
        return made(String::from_str(alloc, "JSON may be nested 127 deep"));
    }
    let shown = show_bytes(alloc, after)?;
    explain_shown(alloc, before, after, shown.as_str())
}

/// Whether a number is too large for a float.
fn is_number_out_of_range(alloc: Global, error: &Error) -> Result<bool, Memory> {
    let text = format!(in alloc; "{error}")?;
    Ok(text.as_str().starts_with("number out of range"))
}

/// Explains what is wrong at the place of an error.
fn explain_syntax(alloc: Global, line: LogLine<'_>, error: &Error) -> Result<String, Memory> {
    let offset = error.column().saturating_sub(1).min(line.bytes.len());
    let (before, after) = line.bytes.split_at(offset);
    if is_number_out_of_range(alloc, error)? {
        let front = show_before(alloc, before)?;
        return made(format!(in alloc; "the number is too large at the end of `{front}`"));
    }
    explain_place(alloc, before, after)
}

/// Explains an error of reading JSON, with the byte where it is, counted from 1.
fn explain_error(alloc: Global, line: LogLine<'_>, error: &Error) -> Result<String, Memory> {
    let end = explain_end(line);
    if error.is_eof() {
        let length = line.bytes.len();
        return made(format!(in alloc; "byte {length}: the line ends within its JSON value; {end}"));
    }
    let column = error.column();
    let text = explain_syntax(alloc, line, error)?;
    if line.has_line_feed {
        return made(format!(in alloc; "byte {column}: {text}"));
    }
    made(format!(in alloc; "byte {column}: {text}; {end}"))
}

/// Explains a line that is no JSON text.
pub fn explain_text(alloc: Global, line: LogLine<'_>) -> Result<Option<String>, Memory> {
    if let Some(text) = explain_file_kind(alloc, line)? {
        return Ok(Some(text));
    }
    match Value::from_slice(alloc, line.bytes) {
        Ok(_) => Ok(None),
        Err(error) if error.is_memory() => Err(Memory),
        Err(error) => Ok(Some(explain_error(alloc, line, &error)?)),
    }
}
