//! Writes an entry as a line.
ghost use Rattle.std.specs.Prelude.{◌≡◌, ◌≤◌, length, map, All, Ok, IfOk, OnOk, IfSome};
ghost use Rattle.std.specs.Prelude.{string_bytes};
ghost use Rattle.serde_json.specs.Data.{number, string};
ghost use Rattle.serde_json.specs.Find.{of_integer};
ghost use Rattle.serde_json.specs.View.{view};
ghost use Rattle.epx_types.specs.Keys.{FitsKey};
ghost use Rattle.epx_lines.specs.Text.{data_of_id, data_of_value, data_of_op, object_with};
ghost use Rattle.epx_lines.specs.Text.{object_of, line_text, op_pair, op_triple};
ghost use Rattle.epx_lines.specs.inner.WrittenParts.{IsWritableId, IsWritableValue, IsWritableOp};
ghost use Rattle.epx_lines.specs.inner.WrittenParts.{FitNumbers, IsWritableEntry};
ghost use Rattle.epx_lines.specs.Meaning.{max_line_bytes, meaning_of};
ghost use Rattle.epx_lines.specs.declared.Line.TheVariants as line;

use epx_types::{Entry, Id, Key, Memory, Op};
use serde_json::{Value, json};
use std::alloc::{AllocError, Global};

/// An Id, as `[r,i]`.
fn id_value(alloc: Global, replica: u8, number: u64) -> Result<Value, AllocError>
    ensures data { IfOk result
        (λ v. view v ≡ data_of_id (record { replica = replica; number = number })) }
    ensures fits { OnOk result (IsWritableId (record { replica = replica; number = number })) }
{
    json!(in alloc; [replica, number])
}

/// A number with sign, as a JSON value.
fn number_value(value: &i64) -> Value
    ensures data { view result ≡ number (of_integer value.now) }
    ensures fits { IsWritableValue value.now }
{
    let number = *value;
    Value::from(number)
}

/// A value of the store: a number, or null where there is none.
fn value_or_null(value: Option<i64>) -> Value
    ensures data { view result ≡ data_of_value value }
    ensures fits { IfSome value IsWritableValue }
{
    match value {
        Some(value) => number_value(&value),
        None => Value::Null,
    }
}

/// A name and a key, as an array.
fn name_and_key(alloc: Global, name: &str, key: &Key) -> Result<Value, AllocError>
    ensures data { IfOk result (λ v. view v ≡ op_pair name.now key.now) }
    ensures fits { OnOk result (FitsKey key.now) }
{
    json!(in alloc; [name, key.text()])
}

/// A name, a key and an argument, as an array.
fn with_argument(alloc: Global, name: &str, key: &Key, argument: Value) -> Result<Value, AllocError>
    ensures data { IfOk result (λ v. view v ≡ op_triple name.now key.now (view argument)) }
    ensures fits { OnOk result (FitsKey key.now) }
{
    json!(in alloc; [name, key.text(), argument])
}

/// A key, as a JSON value.
fn key_value(alloc: Global, key: &Key) -> Result<Value, AllocError>
    ensures data { IfOk result (λ v. view v ≡ string key.now) }
    ensures fits { OnOk result (FitsKey key.now) }
{
    Ok(Value::String(String::from_str(alloc, key.text())?))
}

/// An operation, as an array of its name, its key and, if it has one, its argument.
#[tactic(auto, unfolding(crate::specs::Text::data_of_op))]
fn op_value(alloc: Global, op: &Op) -> Result<Value, AllocError>
    ensures data { IfOk result (λ v. view v ≡ data_of_op op.now) }
    ensures fits { OnOk result (IsWritableOp op.now) }
{
    match op {
        Op::Get { key } => name_and_key(alloc, "get", key),
        Op::Put { key, value } => with_argument(alloc, "put", key, number_value(value)),
        Op::Del { key } => name_and_key(alloc, "del", key),
        Op::Add { key, amount } => with_argument(alloc, "add", key, number_value(amount)),
        Op::Is { key, value } => with_argument(alloc, "is", key, value_or_null(*value)),
        Op::Floor { key, least } => with_argument(alloc, "floor", key, number_value(least)),
        Op::Copy { source, target } => {
            with_argument(alloc, "copy", source, key_value(alloc, target)?)
        }
    }
}

/// Each of the Ids, as `[r,i]`.
fn id_values(alloc: Global, ids: &[Id]) -> Result<Vec<Value>, AllocError>
    ensures data { IfOk result (λ v. map view v.items ≡ map data_of_id ids.now) }
    ensures fit { OnOk result (All IsWritableId ids.now) }
{
    let mut values = Vec::with_capacity(alloc, ids.len())?;
    for id in ids {
        values.push(id_value(alloc, id.replica, id.number)?)?;
    }
    Ok(values)
}

/// Each of the operations, as an array.
fn op_values(alloc: Global, ops: &[Op]) -> Result<Vec<Value>, AllocError>
    ensures data { IfOk result (λ v. map view v.items ≡ map data_of_op ops.now) }
    ensures fit { OnOk result (All IsWritableOp ops.now) }
{
    let mut values = Vec::with_capacity(alloc, ops.len())?;
    for op in ops {
        values.push(op_value(alloc, op)?)?;
    }
    Ok(values)
}

/// The object of these members, in the order of their names.
fn object_value(
    alloc: Global,
    replica: u8,
    number: u64,
    seq: u64,
    deps: Value,
    ops: Value,
) -> Result<Value, AllocError>
    ensures data { IfOk result
        (λ v. view v ≡ object_with replica number seq (view deps) (view ops)) }
    ensures fit { OnOk result (FitNumbers replica number seq) }
{
    json!(in alloc; {"deps": deps, "i": number, "ops": ops, "r": replica, "seq": seq})
}

/// The object of an entry.
fn entry_value(alloc: Global, entry: &Entry) -> Result<Value, AllocError>
    ensures data { IfOk result (λ v. view v ≡ object_of entry.now) }
    ensures fits { OnOk result (IsWritableEntry entry.now) }
{
    let Id { replica, number } = entry.id();
    let deps = Value::Array(id_values(alloc, entry.deps())?);
    let ops = Value::Array(op_values(alloc, entry.ops())?);
    object_value(alloc, replica, number, entry.seq(), deps, ops)
}

/// Writes the line of an entry, without a line feed: a JSON object (RFC 8259) in compact form.
pub fn write_line(alloc: Global, entry: &Entry) -> Result<String, Memory>
    ensures text { IfOk result (λ s. string_bytes s ≡ line_text entry.now) }
    ensures means { IfOk result (λ s. meaning_of (string_bytes s) ≡ Ok (line.Entry entry.now)) }
    ensures short { IfOk result (λ s. length (string_bytes s) ≤ max_line_bytes) }
{
    let value = entry_value(alloc, entry)?;
    Ok(value.to_string(alloc)?)
}
