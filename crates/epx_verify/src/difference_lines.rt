//! Writes the lines of differences: JSON (RFC 8259) in compact form, each ended by a line feed.
ghost use Rattle.std.specs.Prelude.{◌≡◌, ◌++◌, map, IfOk, OnOk};
ghost use Rattle.serde_json.specs.View.{view};
ghost use Rattle.epx_lines.specs.Text.{data_of_value};
ghost use Rattle.epx_report.specs.ReportLines.{array_of};
ghost use Rattle.epx_verify.specs.Differences.{outcome_data, wrong_reply_data, same_reply};
ghost use Rattle.epx_verify.specs.Differences.{reply_difference, wrong_value_data};
ghost use Rattle.epx_verify.specs.Differences.{value_difference};

use epx_report::append_line;
use epx_txn::Store;
use epx_types::{Id, Key, Memory, Reply};
use serde_json::{Value, json};
use std::alloc::{AllocError, Global};

/// The array of the values of a reply.
fn values_array(alloc: Global, values: &[Option<i64>]) -> Result<Value, AllocError>
    ensures { IfOk result (λ v. view v ≡ array_of (map data_of_value values.now)) }
{
    let mut items = Vec::with_capacity(alloc, values.len())?;
    for value in values {
        items.push(Value::from(*value))?;
    }
    Ok(Value::Array(items))
}

/// `["ok",[v,..]]` or `["abort",j]`
fn outcome_value(alloc: Global, reply: &Reply) -> Result<Value, AllocError>
    ensures { IfOk result (λ v. view v ≡ outcome_data reply.now) }
{
    match reply {
        Reply::Values(values) => {
            json!(in alloc; ["ok", values_array(alloc, values.as_slice())?])
        }
        Reply::Abort(index) => {
            let index = *index;
            json!(in alloc; ["abort", index])
        }
    }
}

/// The array of a wrong reply: `["reply",r,i,said,right]`.
fn wrong_reply(alloc: Global, id: Id, said: &Reply, right: &Reply) -> Result<Value, AllocError>
    ensures { IfOk result
        (λ v. view v ≡ array_of (wrong_reply_data id said.now right.now)) }
{
    let Id { replica, number } = id;
    json!(in alloc; ["reply", replica, number,
        outcome_value(alloc, said)?, outcome_value(alloc, right)?])
}

/// The array of a wrong value: `["store",k,said,right]`, with null where the key is absent.
fn wrong_value(
    alloc: Global,
    key: &Key,
    said: Option<i64>,
    right: Option<i64>,
) -> Result<Value, AllocError>
    ensures { IfOk result (λ v. view v ≡ array_of (wrong_value_data key.now said right)) }
{
    json!(in alloc; ["store", key.text(), said, right])
}

/// Whether two replies are the same.
pub fn is_same_reply(said: &Reply, right: &Reply) -> bool
    ensures { result ≡ same_reply said.now right.now }
{
    match (said, right) {
        (Reply::Values(said), Reply::Values(right)) => said == right,
        (Reply::Abort(said), Reply::Abort(right)) => said == right,
        _ => false,
    }
}

/// Appends the line of a reply that is wrong, nothing for one that is right.
pub(crate) fn append_reply_difference(
    alloc: Global,
    text: &mut Vec<u8>,
    id: Id,
    said: &Reply,
    right: &Reply,
) -> Result<(), Memory>
    ensures { OnOk result (text.new.items
        ≡ text.old.items ++ reply_difference ((id, said.now), right.now)) }
{
    if is_same_reply(said, right) {
        return Ok(());
    }
    append_line(alloc, text, &wrong_reply(alloc, id, said, right)?)
}

/// Appends the line of a key whose value is wrong, nothing for one whose value is right.
pub(crate) fn append_value_difference(
    alloc: Global,
    text: &mut Vec<u8>,
    said: &Store,
    right: &Store,
    key: &Key,
) -> Result<(), Memory>
    ensures { OnOk result (text.new.items
        ≡ text.old.items ++ value_difference said.now right.now key.now) }
{
    let (said, right) = (said.get(key), right.get(key));
    if said == right {
        return Ok(());
    }
    append_line(alloc, text, &wrong_value(alloc, key, said, right)?)
}
