//! Explains the answer of a comparison.
use crate::answer::{Difference, FirstBadLine, LogFindings, read_answer};
use crate::contents::{Contents, read_again};
use crate::inputs::{Input, Inputs};
use crate::log_line::explain_line_of;
use epx_bad_lines::{first_line, made};
use epx_types::Memory;
use std::alloc::Global;
use std::rt::Files;

const NO_INSTANCE: &str = "no line commits an instance: is it a log? ";

/// Explains the first bad line of a log.
fn explain_first_bad(
    alloc: Global,
    contents: &Contents<'_>,
    findings: LogFindings,
    bad: FirstBadLine,
) -> Result<String, Memory> {
    let front = if findings.lines == 0 { NO_INSTANCE } else { "" };
    let line = bad.line;
    let text = explain_line_of(alloc, contents, line, bad.why)?;
    match findings.bad.saturating_sub(1) {
        0 => made(format!(in alloc; "{front}line {line}: {text}")),
        count => made(format!(in alloc; "{front}line {line}: {text}; further bad lines: {count}")),
    }
}

/// Why no line of a log without bad lines commits an instance.
fn explain_nothing(contents: &Contents<'_>) -> &'static str {
    match contents.bytes() {
        Err(_) => "no line commits an instance: is it empty?",
        Ok([]) => "it is empty",
        Ok(bytes) if first_line(bytes).is_none() => "it has blank lines alone",
        Ok(_) => "no line commits an instance: all are accepted or pre-accepted",
    }
}

/// Explains the first bad line of a log, or why it commits no instance.
fn explain_findings<R: Files>(
    rt: &R,
    alloc: Global,
    input: Input<'_>,
    findings: LogFindings,
) -> Result<String, Memory> {
    let contents = read_again(rt, alloc, input)?;
    match findings.first_bad {
        Some(bad) => explain_first_bad(alloc, &contents, findings, bad),
        None => made(String::from_str(alloc, explain_nothing(&contents))),
    }
}

/// Names a log, and explains what a comparison finds of it.
fn explain_log<R: Files>(
    rt: &R,
    alloc: Global,
    input: Input<'_>,
    findings: LogFindings,
) -> Result<String, Memory> {
    let name = input.name(alloc)?;
    if findings.first_bad.is_none() && findings.lines > 0 {
        return Ok(name);
    }
    let text = explain_findings(rt, alloc, input, findings)?;
    made(format!(in alloc; "{name}; {text}"))
}

/// Names each log, and explains what a comparison finds of it.
fn explain_logs<R: Files>(
    rt: &R,
    alloc: Global,
    inputs: &Inputs<'_>,
    logs: &[LogFindings],
) -> Result<Vec<String>, Memory> {
    let mut lines = Vec::new(alloc);
    for (log, findings) in logs.iter().enumerate() {
        lines.push(explain_log(rt, alloc, inputs.log(log), *findings)?)?;
    }
    Ok(lines)
}

/// Names the inputs of a difference, and the members.
fn explain_difference(
    alloc: Global,
    inputs: &Inputs<'_>,
    difference: &Difference,
) -> Result<String, Memory> {
    let replica = difference.replica;
    let number = difference.number;
    let members = difference.members.as_str();
    let first = inputs.log(difference.first.log).location(alloc)?;
    let first_line = difference.first.line;
    let second = inputs.log(difference.second.log).location(alloc)?;
    let second_line = difference.second.line;
    made(format!(in alloc;
        "instance {replica}.{number} differs in {members} between {first} line {first_line} and \
{second} line {second_line}"
    ))
}

/// Explains the answer of a comparison, whose text is `answer`, in lines without line feeds.
///
/// Each log has one line: which path it is, what is wrong with its first bad line, and why it has
/// no instance. A last line has the first difference. A log is read again if it has bad lines or
/// no instance and its bytes were not kept, and then once.
pub fn explain_comparison<R: Files>(
    rt: &R,
    alloc: Global,
    inputs: &Inputs<'_>,
    answer: &[u8],
) -> Result<Vec<String>, Memory> {
    let answer = read_answer(alloc, answer)?;
    let mut lines = explain_logs(rt, alloc, inputs, answer.logs.as_slice())?;
    if let Some(difference) = &answer.difference {
        lines.push(explain_difference(alloc, inputs, difference)?)?;
    }
    Ok(lines)
}
