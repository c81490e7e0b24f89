//! Writes the lines of a comparison: JSON (RFC 8259) in compact form, each ended by a line feed.
ghost use Rattle.std.specs.Prelude.{◌≡◌, ◌++◌, ◌∷◌, false, map, IfOk, OnOk};
ghost use Rattle.serde_json.specs.Data.{string};
ghost use Rattle.serde_json.specs.View.{view};
ghost use Rattle.serde_json.specs.Written.{has_float};
ghost use Rattle.epx_report.specs.ReportLines.{array_of, data_of_number, line_of};
ghost use Rattle.epx_compare.specs.ComparisonLines.{log_data, bad_data, lacks_data};
ghost use Rattle.epx_compare.specs.ComparisonLines.{missing_count_data};
ghost use Rattle.epx_versions.specs.between.NotedRows.{bad_line_at};

use crate::gaps::Gap;
use epx_report::append_line;
use epx_types::{Id, Memory};
use epx_versions::NotedBadLine;
use serde_json::{Value, json};
use std::alloc::{AllocError, Global};

/// The array of a name and numbers.
fn numbers_value(alloc: Global, name: &str, numbers: &[u64]) -> Result<Value, AllocError>
    ensures { IfOk result (λ v. view v
        ≡ array_of (string name.now ∷ map data_of_number numbers.now)) }
{
    let mut parts = Vec::new(alloc);
    parts.push(json!(in alloc; name)?)?;
    for number in numbers {
        parts.push(json!(in alloc; *number)?)?;
    }
    Ok(Value::Array(parts))
}

/// Appends the line of a name and numbers.
fn append_numbers(
    alloc: Global,
    text: &mut Vec<u8>,
    name: &str,
    numbers: &[u64],
) -> Result<(), Memory>
    ensures { OnOk result (text.new.items
        ≡ text.old.items ++ line_of (string name.now ∷ map data_of_number numbers.now)) }
{
    append_line(alloc, text, &numbers_value(alloc, name, numbers)?)
}

/// `["bad",L,N,"WHY"]`: a bad line, and why it is bad.
fn bad_value(alloc: Global, bad: NotedBadLine) -> Result<Value, Memory>
    ensures data { IfOk result (λ v. view v ≡ array_of (bad_data (bad_line_at bad))) }
    ensures whole { IfOk result (λ v. has_float (view v) ≡ false) }
{
    let (log, line) = (bad.place.log as u64, bad.place.line as u64);
    let why = bad.why.to_string(alloc)?;
    Ok(json!(in alloc; ["bad", log, line, why.as_str()])?)
}

/// Appends the line of a log: how many of its lines commit an instance, and how many are bad.
pub(crate) fn append_log(
    alloc: Global,
    text: &mut Vec<u8>,
    log: usize,
    lines: usize,
    bad: usize,
) -> Result<(), Memory>
    ensures { OnOk result (text.new.items ≡ text.old.items ++ line_of (log_data log lines bad)) }
{
    append_numbers(alloc, text, "log", &[log as u64, lines as u64, bad as u64])
}

/// Appends the line of a bad line.
pub(crate) fn append_bad(alloc: Global, text: &mut Vec<u8>, bad: NotedBadLine) -> Result<(), Memory>
    ensures { OnOk result (text.new.items
        ≡ text.old.items ++ line_of (bad_data (bad_line_at bad))) }
{
    append_line(alloc, text, &bad_value(alloc, bad)?)
}

/// Appends the line of instances that a log lacks.
pub(crate) fn append_lacks(
    alloc: Global,
    text: &mut Vec<u8>,
    log: usize,
    gap: Gap,
) -> Result<(), Memory>
    ensures { OnOk result (text.new.items
        ≡ text.old.items ++ line_of (lacks_data log gap)) }
{
    let Gap { replica, from, to } = gap;
    append_numbers(
        alloc,
        text,
        "lacks",
        &[log as u64, replica as u64, from, to],
    )
}

/// Appends the line of a dependency that no log commits.
pub(crate) fn append_missing(
    alloc: Global,
    text: &mut Vec<u8>,
    id: Id,
    count: usize,
) -> Result<(), Memory>
    ensures { OnOk result
        (text.new.items ≡ text.old.items ++ line_of (missing_count_data id count)) }
{
    let Id { replica, number } = id;
    append_numbers(
        alloc,
        text,
        "missing",
        &[replica as u64, number, count as u64],
    )
}
