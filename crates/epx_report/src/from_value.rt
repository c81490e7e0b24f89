//! Reads a line of a base from its JSON value.
ghost use Rattle.std.specs.Prelude.{◌≡◌, IfOk};
ghost use Rattle.serde_json.specs.View.{view};
ghost use Rattle.epx_report.specs.Forms.{is_text, counts_of, header_of, is_value_list, is_op_index};
ghost use Rattle.epx_report.specs.Forms.{is_outcome, id_line_of, short_line_of, form_of};

use epx_lines::{read_id_parts, read_key, read_number, read_value_or_null};
use epx_types::entry::MAX_OPS;
use epx_types::{Id, Key, Memory};
use serde_json::Value;
use std::alloc::Global;

/// The numbers of executed and of waiting instances in a report.
#[derive(Clone, Copy)]
pub(crate) struct Counts {
    pub(crate) executed: u64,
    pub(crate) waiting: u64,
}

/// What one line of a base says.
#[derive(Drop)]
pub(crate) enum BaseLine {
    /// The first line.
    Header(Counts),
    /// The instance was done before the report.
    Done(Id),
    /// The instance was executed by the report.
    Reply(Id),
    /// The instance was left waiting.
    Waiting(Id),
    /// The key has the value in the final store.
    Store { key: Key, value: i64 },
}

/// Whether the value is a string with exactly this text.
pub fn has_text(value: &Value, text: &str) -> bool
    ensures { result ≡ is_text text.now (view value.now) }
{
    match value.as_str() {
        Some(found) => found == text,
        None => false,
    }
}

/// Reads the numbers of a header. None if one is not a whole number below 2^64, or if there are
/// more components than executed instances.
#[tactic(auto, unfolding(crate::specs::Forms::counts_of))]
fn read_counts(executed: &Value, waiting: &Value, components: &Value) -> Option<Counts>
    ensures { result ≡ counts_of (view executed.now) (view waiting.now) (view components.now) }
{
    let executed = read_number(executed)?;
    let waiting = read_number(waiting)?;
    let components = read_number(components)?;
    if components > executed {
        return None;
    }
    Some(Counts { executed, waiting })
}

/// Whether the value is an array of at most `MAX_OPS` values, each a number of 64 bits or null.
#[tactic(auto, unfolding(crate::specs::Forms::is_value_list))]
fn is_list_of_values(value: &Value) -> bool
    ensures { result ≡ is_value_list (view value.now) }
{
    let Some(values) = value.as_array() else {
        return false;
    };
    if values.len() > MAX_OPS {
        return false;
    }
    for value in values {
        if read_value_or_null(value).is_none() {
            return false;
        }
    }
    true
}

/// Whether the value is the index of an operation: a whole number below `MAX_OPS`.
#[tactic(auto, unfolding(crate::specs::Forms::is_op_index))]
fn is_op_index_value(value: &Value) -> bool
    ensures { result ≡ is_op_index (view value.now) }
{
    match read_number(value) {
        Some(index) => index < MAX_OPS as u64,
        None => false,
    }
}

/// Whether the values are the end of a reply line: `"ok",[v,..]` or `"abort",j`.
#[tactic(auto, unfolding(crate::specs::Forms::is_outcome))]
fn is_outcome_of_command(kind: &Value, value: &Value) -> bool
    ensures { result ≡ is_outcome (view kind.now) (view value.now) }
{
    if has_text(kind, "ok") && is_list_of_values(value) {
        return true;
    }
    has_text(kind, "abort") && is_op_index_value(value)
}

/// `["executed",E,"waiting",W,"components",C]`
#[tactic(auto, unfolding(crate::specs::Forms::header_of))]
fn read_header(
    name: &Value,
    executed: &Value,
    second_name: &Value,
    waiting: &Value,
    third_name: &Value,
    components: &Value,
) -> Option<BaseLine>
    ensures { result ≡ header_of (view name.now) (view executed.now) (view second_name.now)
        (view waiting.now) (view third_name.now) (view components.now) }
{
    if !has_text(name, "executed") {
        return None;
    }
    if !has_text(second_name, "waiting") || !has_text(third_name, "components") {
        return None;
    }
    read_counts(executed, waiting, components).map(BaseLine::Header)
}

/// `["reply",r,i,..]` or `["waiting",r,i,mr,mi]`
#[tactic(auto, unfolding(crate::specs::Forms::id_line_of))]
fn read_id_line(
    name: &Value,
    replica: &Value,
    number: &Value,
    first: &Value,
    second: &Value,
) -> Option<BaseLine>
    ensures { result ≡ id_line_of (view name.now) (view replica.now) (view number.now)
        (view first.now) (view second.now) }
{
    if has_text(name, "reply") {
        if !is_outcome_of_command(first, second) {
            return None;
        }
        return read_id_parts(replica, number).map(BaseLine::Reply);
    }
    if !has_text(name, "waiting") {
        return None;
    }
    let _missing = read_id_parts(first, second)?;
    read_id_parts(replica, number).map(BaseLine::Waiting)
}

/// `["done",r,i]` or `["store",k,v]`
#[tactic(auto, unfolding(crate::specs::Forms::short_line_of))]
fn read_short_line(
    alloc: Global,
    name: &Value,
    first: &Value,
    second: &Value,
) -> Result<Option<BaseLine>, Memory>
    ensures { IfOk result
        (λ o. o ≡ short_line_of (view name.now) (view first.now) (view second.now)) }
{
    if has_text(name, "done") {
        return Ok(read_id_parts(first, second).map(BaseLine::Done));
    }
    if !has_text(name, "store") {
        return Ok(None);
    }
    let Some(key) = read_key(alloc, first)? else {
        return Ok(None);
    };
    Ok(second.as_i64().map(|value| BaseLine::Store { key, value }))
}

/// What a line says, by its JSON value. None if it is not a line of a base.
#[tactic(auto, unfolding(crate::specs::Forms::form_of))]
pub(crate) fn read_base_line(alloc: Global, value: &Value) -> Result<Option<BaseLine>, Memory>
    ensures { IfOk result (λ o. o ≡ form_of (view value.now)) }
{
    let Some(parts) = value.as_array() else {
        return Ok(None);
    };
    let [name, a, b, more @ ..] = parts.as_slice() else {
        return Ok(None);
    };
    if more.is_empty() {
        return read_short_line(alloc, name, a, b);
    }
    let [c, d, rest @ ..] = more else {
        return Ok(None);
    };
    match rest {
        [] => Ok(read_id_line(name, a, b, c, d)),
        [e] => Ok(read_header(name, a, b, c, d, e)),
        _ => Ok(None),
    }
}
