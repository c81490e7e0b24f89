//! Reads a line of what a replica says.
ghost use Rattle.std.specs.Prelude.{◌≡◌, IfOk, option_map};
ghost use Rattle.serde_json.specs.View.{view};
ghost use Rattle.epx_verify.specs.SaidLines.{values_of, op_index_of, reply_of, replied_of};
ghost use Rattle.epx_verify.specs.SaidLines.{stored_of, said_by, said_line_of};

use epx_lines::{
    MAX_LINE_BYTES, read_id_parts, read_json, read_key, read_number, read_value_or_null,
};
use epx_report::has_text;
use epx_types::entry::MAX_OPS;
use epx_types::{Id, Key, Memory, Reply, Values};
use serde_json::Value;
use std::alloc::Global;

/// What one line says.
#[derive(Drop)]
pub(crate) enum SaidLine {
    /// The replica executed the instance, with this reply.
    Replied(Id, Reply),
    /// The key has the value in the replica's store.
    Stored(Key, i64),
}

/// Reads a list of at most `MAX_OPS` values, each a number or null.
#[tactic(auto, unfolding(crate::specs::SaidLines::values_of))]
fn read_values(alloc: Global, value: &Value) -> Result<Option<Vec<Option<i64>>>, Memory>
    ensures { IfOk result (λ o. option_map (λ v. v.items) o ≡ values_of (view value.now)) }
{
    let Some(written) = value.as_array() else {
        return Ok(None);
    };
    if written.len() > MAX_OPS {
        return Ok(None);
    }
    let mut values = Vec::with_capacity(alloc, written.len())?;
    for element in written {
        let Some(element) = read_value_or_null(element) else {
            return Ok(None);
        };
        values.push(element)?;
    }
    Ok(Some(values))
}

/// Reads the index of an operation that aborted.
#[tactic(auto, unfolding(crate::specs::SaidLines::op_index_of))]
fn read_op_index(value: &Value) -> Option<u64>
    ensures { result ≡ op_index_of (view value.now) }
{
    let index = read_number(value)?;
    if index < MAX_OPS as u64 {
        Some(index)
    } else {
        None
    }
}

/// Reads a reply: `"ok",[v,..]` or `"abort",j`. None if it is none.
#[tactic(auto, unfolding(crate::specs::SaidLines::reply_of))]
pub fn read_reply(alloc: Global, kind: &Value, value: &Value) -> Result<Option<Reply>, Memory>
    ensures { IfOk result (λ o. o ≡ reply_of (view kind.now) (view value.now)) }
{
    if has_text(kind, "ok") {
        return match read_values(alloc, value)? {
            Some(values) => Ok(Some(Reply::Values(Values::new(values)))),
            None => Ok(None),
        };
    }
    if !has_text(kind, "abort") {
        return Ok(None);
    }
    match read_op_index(value) {
        Some(index) => Ok(Some(Reply::Abort(index))),
        None => Ok(None),
    }
}

/// `["reply",r,i,..]`
#[tactic(auto, unfolding(crate::specs::SaidLines::replied_of))]
fn read_replied(
    alloc: Global,
    name: &Value,
    replica: &Value,
    number: &Value,
    kind: &Value,
    value: &Value,
) -> Result<Option<SaidLine>, Memory>
    ensures { IfOk result (λ o. o ≡ replied_of (view name.now) (view replica.now)
        (view number.now) (view kind.now) (view value.now)) }
{
    if !has_text(name, "reply") {
        return Ok(None);
    }
    let Some(id) = read_id_parts(replica, number) else {
        return Ok(None);
    };
    match read_reply(alloc, kind, value)? {
        Some(reply) => Ok(Some(SaidLine::Replied(id, reply))),
        None => Ok(None),
    }
}

/// `["store",k,v]`
#[tactic(auto, unfolding(crate::specs::SaidLines::stored_of))]
fn read_stored(
    alloc: Global,
    name: &Value,
    key: &Value,
    value: &Value,
) -> Result<Option<SaidLine>, Memory>
    ensures { IfOk result
        (λ o. o ≡ stored_of (view name.now) (view key.now) (view value.now)) }
{
    if !has_text(name, "store") {
        return Ok(None);
    }
    let Some(key) = read_key(alloc, key)? else {
        return Ok(None);
    };
    match value.as_i64() {
        Some(number) => Ok(Some(SaidLine::Stored(key, number))),
        None => Ok(None),
    }
}

/// Reads one line from its JSON value. None if it is no line of what a replica says.
#[tactic(auto, unfolding(crate::specs::SaidLines::said_by))]
fn read_said_value(alloc: Global, value: &Value) -> Result<Option<SaidLine>, Memory>
    ensures { IfOk result (λ o. o ≡ said_by (view value.now)) }
{
    let Some(parts) = value.as_array() else {
        return Ok(None);
    };
    let [name, a, b, more @ ..] = parts.as_slice() else {
        return Ok(None);
    };
    match more {
        [] => read_stored(alloc, name, a, b),
        [c, d] => read_replied(alloc, name, a, b, c, d),
        _ => Ok(None),
    }
}

/// Reads one line, without its line feed. None if it is no line of what a replica says.
#[tactic(auto, unfolding(crate::specs::SaidLines::said_line_of))]
pub(crate) fn read_said_line(alloc: Global, bytes: &[u8]) -> Result<Option<SaidLine>, Memory>
    ensures { IfOk result (λ o. o ≡ said_line_of bytes.now) }
{
    if bytes.len() > MAX_LINE_BYTES {
        return Ok(None);
    }
    let Some(value) = read_json(alloc, bytes)? else {
        return Ok(None);
    };
    read_said_value(alloc, &value)
}
