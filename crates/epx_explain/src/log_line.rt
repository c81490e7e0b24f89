//! Explains why a line of a log is bad.
use crate::contents::{Contents, read_again};
use crate::inputs::Input;
use epx_bad_lines::{
    LogLine, Looks, MAX_REPLICA, explain_deps, explain_file_kind, explain_kind, explain_number,
    explain_ops, explain_status, explain_text, found, line_at, looks_by, made, show_value,
};
use epx_lines::{MAX_LINE_BYTES, read_json};
use epx_types::{Memory, Why};
use serde_json::Value;
use std::alloc::Global;
use std::rt::Files;

/// What a line must have, where the line itself is not at hand.
fn expected_text(why: Why) -> &'static str {
    match why {
        Why::TooLong => "a line may have at most 65536 bytes",
        Why::NotJson => {
            "the line is no JSON value: cut off, compressed, with a byte order mark, or JSON over \
several lines?"
        }
        Why::NotObject => "the line is a JSON value, but no object",
        Why::Replica => "\"r\" must be a whole number from 0 to 255",
        Why::Number => "\"i\" must be a whole number from 0 to 18446744073709551615",
        Why::Seq => "\"seq\" must be a whole number from 0 to 18446744073709551615",
        Why::Status => "status is none of committed, executed, accepted, pre-accepted",
        Why::Deps => "\"deps\" must be a list of at most 256 pairs [replica,number]",
        Why::Ops => "\"ops\" must be a list of at most 64 operations",
    }
}

/// Explains a line that has more than `MAX_LINE_BYTES`. None if it has no more.
fn explain_too_long(alloc: Global, line: LogLine<'_>) -> Result<Option<String>, Memory> {
    let length = line.bytes.len();
    if length <= MAX_LINE_BYTES {
        return Ok(None);
    }
    let text = match explain_file_kind(alloc, line)? {
        Some(text) => text,
        None if length == line.log.len() => String::from_str(alloc, "a log without line feeds?")?,
        None => String::from_str(alloc, "are there several instances in it? write one a line")?,
    };
    found(format!(in alloc;
        "the line has {length} bytes, and at most {MAX_LINE_BYTES} are allowed: {text}"
    ))
}

/// Explains a line that is no object: as one of a list, a report or a history, if it looks so.
fn explain_not_object(alloc: Global, value: &Value) -> Result<Option<String>, Memory> {
    let advice = match looks_by(value) {
        Looks::List => "as in a list: LIST comes before the logs, as in epx check LIST LOG..",
        Looks::Report => {
            "as in a report, which is no log: BASE comes before the logs, as in \
epx resume BASE LOG.."
        }
        Looks::History => {
            "as in a history: HISTORY comes before the logs, as in epx linear HISTORY LOG.."
        }
        Looks::Log | Looks::Other => return explain_kind(alloc, value),
    };
    let shown = show_value(alloc, value)?;
    found(format!(in alloc; "the line is {shown}, {advice}"))
}

/// Explains what is wrong with the value of a line. None if the value is not bad in this way.
fn explain_value(alloc: Global, value: &Value, why: Why) -> Result<Option<String>, Memory> {
    match why {
        Why::NotObject => explain_not_object(alloc, value),
        Why::Replica => explain_number(alloc, value, "r", MAX_REPLICA),
        Why::Number => explain_number(alloc, value, "i", u64::MAX),
        Why::Seq => explain_number(alloc, value, "seq", u64::MAX),
        Why::Status => explain_status(alloc, value),
        Why::Deps => explain_deps(alloc, value),
        Why::Ops => explain_ops(alloc, value),
        Why::TooLong | Why::NotJson => Ok(None),
    }
}

/// Says what is wrong with a line. None if the line is not bad in this way.
fn explain_line(alloc: Global, line: LogLine<'_>, why: Why) -> Result<Option<String>, Memory> {
    match why {
        Why::TooLong => explain_too_long(alloc, line),
        Why::NotJson => explain_text(alloc, line),
        _ => match read_json(alloc, line.bytes)? {
            Some(value) => explain_value(alloc, &value, why),
            None => Ok(None),
        },
    }
}

/// Says what is wrong with the line of this number.
pub(crate) fn explain_line_of(
    alloc: Global,
    contents: &Contents<'_>,
    number: usize,
    why: Why,
) -> Result<String, Memory> {
    let expected = expected_text(why);
    let bytes = match contents.bytes() {
        Ok(bytes) => bytes,
        Err(reason) => return made(format!(in alloc; "it {reason}; {expected}")),
    };
    let Some(line) = line_at(bytes, number) else {
        return made(format!(in alloc; "it has no line {number} now; {expected}"));
    };
    match explain_line(alloc, line, why)? {
        Some(text) => Ok(text),
        None => made(format!(in alloc; "it has changed; {expected}")),
    }
}

/// Names the input of a bad line, and says what is wrong with the line.
pub(crate) fn explain_bad_line<R: Files>(
    rt: &R,
    alloc: Global,
    input: Input<'_>,
    number: usize,
    why: Why,
) -> Result<String, Memory> {
    let name = input.name(alloc)?;
    let contents = read_again(rt, alloc, input)?;
    let text = explain_line_of(alloc, &contents, number, why)?;
    made(format!(in alloc; "{name}; {text}"))
}
