//! Explains which line of a state, a base, a list, a history or of what a replica said is bad.
use crate::contents::read_again;
use crate::input_kind::explain_input_kind;
use crate::inputs::{Input, Role};
use epx_bad_lines::{
    LogLine, Looks, explain_call_line, explain_file_kind, explain_list_line, explain_text,
    is_array_begun, is_report_line, line_at, looks_of, made, show_bytes,
};
use epx_lines::{MAX_LINE_BYTES, is_blank_line, read_json};
use epx_types::Memory;
use std::alloc::Global;
use std::rt::Files;

const FIRST_LINE: &str = "a report begins with [\"executed\",E,\"waiting\",W,\"components\",C]";

const FURTHER_LINE: &str =
    "a further line of a report begins with \"done\", \"reply\", \"waiting\" or \"store\"";

const FIRST_OF_STATE: &str =
    "a state begins with [\"state\",\"runs\",R,\"waiting\",W,\"store\",S], and a report with \
[\"executed\",E,\"waiting\",W,\"components\",C]";

const LINE_OF_STATE: &str =
    "after the first line of a state come R lines of runs, W instances that \
wait for others, and S lines of the store, all rising: docs/FORMAT.md has the lines of a state";

const LINE_OF_SAID: &str =
    "SAID has reply lines in the order of execution, and then store lines by rising key, as a \
report has them, and no other lines";

const OUT_OF_PLACE: &str = "it may not follow the lines before it, or a part of it is wrong: \
docs/FORMAT.md has the lines of a base";

/// What the lines of an input are to be.
#[derive(Clone, Copy)]
enum Form {
    State,
    Report,
    Said,
}

/// A state may be a report.
fn form_of(role: Role, looks: Looks) -> Form {
    match (role, looks) {
        (Role::State, Looks::Report) => Form::Report,
        (Role::State, _) => Form::State,
        (Role::Said, _) => Form::Said,
        _ => Form::Report,
    }
}

/// What is wrong with a line. `is_known` says whether it begins as one of a report.
fn explain_place(form: Form, number: usize, is_known: bool) -> &'static str {
    match (form, number, is_known) {
        (Form::State, 0 | 1, _) => FIRST_OF_STATE,
        (Form::State, _, _) => LINE_OF_STATE,
        (Form::Said, _, _) => LINE_OF_SAID,
        (Form::Report, 0 | 1, _) => FIRST_LINE,
        (Form::Report, _, true) => OUT_OF_PLACE,
        (Form::Report, _, false) => FURTHER_LINE,
    }
}

/// What is wrong with a line of an input of this form.
fn explain_form(
    alloc: Global,
    form: Form,
    line: LogLine<'_>,
    number: usize,
) -> Result<String, Memory> {
    if let Some(value) = read_json(alloc, line.bytes)? {
        let text = explain_place(form, number, is_report_line(&value));
        return made(String::from_str(alloc, text));
    }
    if is_array_begun(line.bytes) {
        if let Some(text) = explain_text(alloc, line)? {
            return Ok(text);
        }
    }
    made(String::from_str(alloc, explain_place(form, number, false)))
}

/// Explains a line of an input of this form.
fn explain_report_line(
    alloc: Global,
    form: Form,
    line: LogLine<'_>,
    number: usize,
) -> Result<String, Memory> {
    if let Some(text) = explain_file_kind(alloc, line)? {
        return Ok(text);
    }
    let length = line.bytes.len();
    if length > MAX_LINE_BYTES {
        return made(format!(in alloc;
            "line {number} has {length} bytes, and at most {MAX_LINE_BYTES} are allowed"
        ));
    }
    let text = explain_form(alloc, form, line, number)?;
    if is_blank_line(line.bytes) {
        return made(format!(in alloc; "line {number} is blank: {text}"));
    }
    let shown = show_bytes(alloc, line.bytes)?;
    made(format!(in alloc; "line {number} is {shown}: {text}"))
}

/// Explains a line of a state, a base, a list, a history or of what a replica said.
fn explain_input_line(
    alloc: Global,
    role: Role,
    bytes: &[u8],
    number: usize,
) -> Result<String, Memory> {
    let looks = looks_of(alloc, bytes)?;
    if let Some(text) = explain_input_kind(role, looks) {
        return made(String::from_str(alloc, text));
    }
    let Some(line) = line_at(bytes, number) else {
        if bytes.is_empty() {
            return made(String::from_str(alloc, "it is empty"));
        }
        return made(format!(in alloc; "it ends before line {number}: cut off?"));
    };
    match role {
        Role::List => explain_list_line(alloc, line, number),
        Role::History => explain_call_line(alloc, line, number),
        _ => explain_report_line(alloc, form_of(role, looks), line, number),
    }
}

/// Says what a line must be, or that the input ends before it.
pub(crate) fn explain_base_line<R: Files>(
    rt: &R,
    alloc: Global,
    input: Input<'_>,
    line: usize,
) -> Result<String, Memory> {
    let name = input.name(alloc)?;
    let contents = read_again(rt, alloc, input)?;
    match contents.bytes() {
        Ok(bytes) => {
            let text = explain_input_line(alloc, input.role, bytes, line)?;
            made(format!(in alloc; "{name}; {text}"))
        }
        Err(reason) => {
            made(format!(in alloc; "{name}, which {reason}: line {line} is not shown"))
        }
    }
}
