//! Reads what a comparison says of logs.
use epx_lines::{cut_line, read_json};
use epx_types::{Memory, Place, Why};
use serde_json::Value;
use std::alloc::Global;

/// The first bad line of a log.
#[derive(Clone, Copy)]
pub(crate) struct FirstBadLine {
    pub line: usize,
    pub why: Why,
}

/// What a comparison says of one log.
#[derive(Clone, Copy)]
pub(crate) struct LogFindings {
    /// How many lines commit an instance.
    pub lines: usize,
    /// How many lines are bad.
    pub bad: usize,
    pub first_bad: Option<FirstBadLine>,
}

/// An instance that two lines commit differently.
#[derive(Drop)]
pub(crate) struct Difference {
    pub replica: u64,
    pub number: u64,
    /// The members in which the lines differ, with commas between them.
    pub members: String,
    pub first: Place,
    pub second: Place,
}

/// What a comparison says of all logs.
#[derive(Drop)]
pub(crate) struct ComparisonFindings {
    pub logs: Vec<LogFindings>,
    /// The first difference.
    pub difference: Option<Difference>,
}

/// A whole number that fits into a `usize`. None for any other value.
fn count_of(value: &Value) -> Option<usize> {
    usize::try_from(value.as_u64()?).ok()
}

/// Reads `[L,N]`.
fn read_place(value: &Value) -> Option<Place> {
    let [log, line] = value.as_array()?.as_slice() else {
        return None;
    };
    Some(Place {
        log: count_of(log)?,
        line: count_of(line)?,
    })
}

/// The first place of a group.
fn first_place(group: &Value) -> Option<Place> {
    read_place(group.as_array()?.as_slice().first()?)
}

/// The reason why a line is bad, by its name.
fn read_why(name: &str) -> Option<Why> {
    match name {
        "TooLong" => Some(Why::TooLong),
        "NotJson" => Some(Why::NotJson),
        "NotObject" => Some(Why::NotObject),
        "Replica" => Some(Why::Replica),
        "Number" => Some(Why::Number),
        "Seq" => Some(Why::Seq),
        "Status" => Some(Why::Status),
        "Deps" => Some(Why::Deps),
        "Ops" => Some(Why::Ops),
        _ => None,
    }
}

/// Takes note of `["bad",L,N,"WHY"]`, if it is the first bad line of its log.
fn note_bad_line(logs: &mut [LogFindings], log: &Value, line: &Value, why: &Value) -> Option<()> {
    let findings = logs.get_mut(count_of(log)?)?;
    if findings.first_bad.is_none() {
        findings.first_bad = Some(FirstBadLine {
            line: count_of(line)?,
            why: read_why(why.as_str()?)?,
        });
    }
    Some(())
}

/// Takes `["log",L,lines,bad]`.
fn take_log(logs: &mut Vec<LogFindings>, lines: &Value, bad: &Value) -> Result<(), Memory> {
    let (Some(lines), Some(bad)) = (count_of(lines), count_of(bad)) else {
        return Ok(());
    };
    logs.push(LogFindings {
        lines,
        bad,
        first_bad: None,
    })?;
    Ok(())
}

/// The members of a difference, as they are shown.
fn show_members(alloc: Global, members: &Value) -> Result<String, Memory> {
    let mut text = String::new(alloc);
    let Some(members) = members.as_array() else {
        return Ok(text);
    };
    for member in members.as_slice() {
        if !text.as_str().is_empty() {
            text.push_str(", ")?;
        }
        write!(text, "{member}")?;
    }
    Ok(text)
}

/// Reads `["differs",r,i,[MEMBER,..],[GROUP,..]]`, up to the first place of the second group.
fn read_difference(alloc: Global, parts: &[Value]) -> Result<Option<Difference>, Memory> {
    let [_, replica, number, members, groups] = parts else {
        return Ok(None);
    };
    let (Some(replica), Some(number)) = (replica.as_u64(), number.as_u64()) else {
        return Ok(None);
    };
    let Some(groups) = groups.as_array() else {
        return Ok(None);
    };
    let [one, other, ..] = groups.as_slice() else {
        return Ok(None);
    };
    let (Some(first), Some(second)) = (first_place(one), first_place(other)) else {
        return Ok(None);
    };
    let members = show_members(alloc, members)?;
    Ok(Some(Difference {
        replica,
        number,
        members,
        first,
        second,
    }))
}

/// Takes a line of the answer. False if it is the last that is needed: the lines about logs and bad
/// lines come first, and then the differences.
fn take_line(alloc: Global, answer: &mut ComparisonFindings, line: &Value) -> Result<bool, Memory> {
    let Some(parts) = line.as_array() else {
        return Ok(false);
    };
    let parts = parts.as_slice();
    let [name, log, second, third] = parts else {
        answer.difference = read_difference(alloc, parts)?;
        return Ok(false);
    };
    match name.as_str() {
        Some("log") => take_log(&mut answer.logs, second, third)?,
        Some("bad") => {
            let _noted = note_bad_line(answer.logs.as_mut_slice(), log, second, third);
        }
        _ => return Ok(false),
    }
    Ok(true)
}

/// Reads the answer of a comparison up to its first difference.
pub(crate) fn read_answer(alloc: Global, text: &[u8]) -> Result<ComparisonFindings, Memory> {
    let mut answer = ComparisonFindings {
        logs: Vec::new(alloc),
        difference: None,
    };
    let mut rest = text;
    while !rest.is_empty() {
        let (bytes, more) = cut_line(rest);
        let Some(line) = read_json(alloc, bytes)? else {
            break;
        };
        if !take_line(alloc, &mut answer, &line)? {
            break;
        }
        rest = more;
    }
    Ok(answer)
}
