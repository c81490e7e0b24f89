//! Reads the operations of a line from a JSON value.
ghost use Rattle.std.specs.Prelude.{◌≡◌, Some, IfOk, option_map};
ghost use Rattle.serde_json.specs.Data.{Data, null};
ghost use Rattle.serde_json.specs.View.{view};
ghost use Rattle.epx_lines.specs.OperationList.{key_of, value_or_null, op_with_key, op_with_value};
ghost use Rattle.epx_lines.specs.OperationList.{op_of, ops_of};
ghost use Rattle.epx_lines.specs.Elements.{signed};

use epx_types::entry::MAX_OPS;
use epx_types::{Key, Memory, Op};
use serde_json::Value;
use std::alloc::Global;

/// Reads a key: a text of 1 to 64 bytes.
#[tactic(auto, unfolding(crate::specs::OperationList::key_of))]
pub fn read_key(alloc: Global, value: &Value) -> Result<Option<Key>, Memory>
    ensures { IfOk result (λ o. o ≡ key_of (view value.now)) }
{
    let Some(text) = value.as_str() else {
        return Ok(None);
    };
    Ok(Key::new(alloc, text)?)
}

/// Reads a value of 64 bits, or null for absence.
#[tactic(auto, unfolding(crate::specs::OperationList::value_or_null))]
pub fn read_value_or_null(value: &Value) -> Option<Option<i64>>
    ensures { result ≡ value_or_null (view value.now) }
{
    if value.is_null() {
        return Some(None);
    }
    Some(Some(value.as_i64()?))
}

/// The operation `[name,key]`. None if no operation of this name has a key alone.
#[tactic(auto, unfolding(crate::specs::OperationList::op_with_key))]
pub fn op_named(name: &str, key: Key) -> Option<Op>
    ensures { result ≡ op_with_key name.now key }
{
    if name == "get" {
        Some(Op::Get { key })
    } else if name == "del" {
        Some(Op::Del { key })
    } else {
        None
    }
}

/// The operation `[name,key,number]`. None if no operation of this name takes a number.
#[tactic(auto, unfolding(crate::specs::OperationList::op_with_value))]
pub fn op_with_number(name: &str, key: Key, number: i64) -> Option<Op>
    ensures { (d : Data) → signed d ≡ Some number → result ≡ op_with_value name.now key d }
{
    if name == "put" {
        Some(Op::Put { key, value: number })
    } else if name == "add" {
        Some(Op::Add {
            key,
            amount: number,
        })
    } else if name == "is" {
        Some(Op::Is {
            key,
            value: Some(number),
        })
    } else if name == "floor" {
        Some(Op::Floor { key, least: number })
    } else {
        None
    }
}

/// The operation `["copy",key,target]`. None if the name is another one.
#[tactic(auto, unfolding(crate::specs::OperationList::op_with_value))]
pub fn op_with_target(name: &str, key: Key, target: Key) -> Option<Op>
    ensures { (d : Data) → key_of d ≡ Some target → result ≡ op_with_value name.now key d }
{
    if name == "copy" {
        Some(Op::Copy {
            source: key,
            target,
        })
    } else {
        None
    }
}

/// The operation `["is",key,null]`: the key must be absent. None if the name is another one.
#[tactic(auto, unfolding(crate::specs::OperationList::key_of, crate::specs::OperationList::value_or_null, crate::specs::OperationList::op_with_value))]
pub fn op_with_absence(name: &str, key: Key) -> Option<Op>
    ensures { result ≡ op_with_value name.now key null }
{
    if name == "is" {
        Some(Op::Is { key, value: None })
    } else {
        None
    }
}

/// Reads the operation `[name,key,value]`. None if no operation of this name takes such a value.
#[tactic(auto, unfolding(crate::specs::OperationList::op_with_value))]
fn op_named_with(alloc: Global, name: &str, key: Key, value: &Value) -> Result<Option<Op>, Memory>
    ensures { IfOk result (λ o. o ≡ op_with_value name.now key (view value.now)) }
{
    if value.is_null() {
        return Ok(op_with_absence(name, key));
    }
    if let Some(number) = value.as_i64() {
        return Ok(op_with_number(name, key, number));
    }
    let Some(target) = read_key(alloc, value)? else {
        return Ok(None);
    };
    Ok(op_with_target(name, key, target))
}

/// Reads an operation: `[name,key]` or `[name,key,value]`. None if the value is not one.
#[tactic(auto, unfolding(crate::specs::OperationList::op_of))]
fn read_op(alloc: Global, value: &Value) -> Result<Option<Op>, Memory>
    ensures { IfOk result (λ o. o ≡ op_of (view value.now)) }
{
    let Some(parts) = value.as_array() else {
        return Ok(None);
    };
    let [name, key, more @ ..] = parts.as_slice() else {
        return Ok(None);
    };
    let Some(name) = name.as_str() else {
        return Ok(None);
    };
    let Some(key) = read_key(alloc, key)? else {
        return Ok(None);
    };
    match more {
        [] => Ok(op_named(name, key)),
        [value] => op_named_with(alloc, name, key, value),
        _ => Ok(None),
    }
}

/// Reads the operations of a command, in order. None if the value is not a list of at most
/// `MAX_OPS` operations.
#[tactic(auto, unfolding(crate::specs::OperationList::ops_of))]
pub fn read_ops(alloc: Global, value: &Value) -> Result<Option<Vec<Op>>, Memory>
    ensures { IfOk result (λ o. option_map (λ v. v.items) o ≡ ops_of (view value.now)) }
{
    let Some(written) = value.as_array() else {
        return Ok(None);
    };
    if written.len() > MAX_OPS {
        return Ok(None);
    }
    let mut ops = Vec::with_capacity(alloc, written.len())?;
    for op in written {
        let Some(op) = read_op(alloc, op)? else {
            return Ok(None);
        };
        ops.push(op)?;
    }
    Ok(Some(ops))
}
