//! Explains a bad list of operations.
use crate::shown::{show_bytes, show_value};
use crate::texts::found;
use epx_types::Memory;
use epx_types::entry::MAX_OPS;
use epx_types::key::MAX_KEY_BYTES;
use serde_json::Value;
use std::alloc::Global;

/// What follows the key of an operation.
#[derive(Clone, Copy)]
enum Argument {
    Nothing,
    Number,
    NumberOrNull,
    Key,
}

impl Argument {
    /// What follows the key, as it is written.
    fn form(self) -> &'static str {
        match self {
            Argument::Nothing => "",
            Argument::Number => ",number",
            Argument::NumberOrNull => ",number or null",
            Argument::Key => ",key",
        }
    }
}

/// What follows the key of an operation of this name. None if there is no such operation.
fn argument_of(name: &str) -> Option<Argument> {
    match name {
        "get" | "del" => Some(Argument::Nothing),
        "put" | "add" | "floor" => Some(Argument::Number),
        "is" => Some(Argument::NumberOrNull),
        "copy" => Some(Argument::Key),
        _ => None,
    }
}

/// Explains a key.
fn explain_key(alloc: Global, key: &Value) -> Result<Option<String>, Memory> {
    let Some(text) = key.as_str() else {
        let shown = show_value(alloc, key)?;
        return found(format!(in alloc; "the key is {shown}, and must be a text"));
    };
    let length = text.len();
    if length == 0 {
        return found(String::from_str(alloc, "the key is empty"));
    }
    if length > MAX_KEY_BYTES {
        return found(format!(in alloc;
            "the key has {length} bytes, and at most {MAX_KEY_BYTES} are allowed"
        ));
    }
    Ok(None)
}

/// Explains a value.
fn explain_number(alloc: Global, value: &Value, or_null: bool) -> Result<Option<String>, Memory> {
    if value.as_i64().is_some() || (or_null && value.is_null()) {
        return Ok(None);
    }
    let shown = show_value(alloc, value)?;
    let null = if or_null { ", or null" } else { "" };
    found(format!(in alloc;
        "the value is {shown}, and must be a whole number of 64 bits with sign{null}"
    ))
}

/// Explains what follows the key.
fn explain_argument(
    alloc: Global,
    name: &str,
    argument: Argument,
    rest: &[Value],
) -> Result<Option<String>, Memory> {
    match (argument, rest) {
        (Argument::Nothing, []) => Ok(None),
        (Argument::Number, [value]) => explain_number(alloc, value, false),
        (Argument::NumberOrNull, [value]) => explain_number(alloc, value, true),
        (Argument::Key, [key]) => explain_key(alloc, key),
        _ => {
            let count = rest.len().saturating_add(2);
            let form = argument.form();
            found(format!(in alloc; "it has {count} elements, and must be [\"{name}\",key{form}]"))
        }
    }
}

/// Explains an operation with a name and a key.
fn explain_named(
    alloc: Global,
    name: &str,
    key: &Value,
    rest: &[Value],
) -> Result<Option<String>, Memory> {
    let Some(argument) = argument_of(name) else {
        let shown = show_bytes(alloc, name.as_bytes())?;
        return found(format!(in alloc; "no operation \"{shown}\""));
    };
    if let Some(text) = explain_key(alloc, key)? {
        return Ok(Some(text));
    }
    explain_argument(alloc, name, argument, rest)
}

/// Explains an operation. None if it is good.
fn explain_op(alloc: Global, op: &Value) -> Result<Option<String>, Memory> {
    let Some(parts) = op.as_array() else {
        let shown = show_value(alloc, op)?;
        return found(format!(in alloc; "it is {shown}, and must be a list"));
    };
    let [name, rest @ ..] = parts.as_slice() else {
        return found(String::from_str(alloc, "it is an empty list"));
    };
    let Some(name) = name.as_str() else {
        let shown = show_value(alloc, name)?;
        return found(format!(in alloc; "the name is {shown}, and must be a text"));
    };
    match rest {
        [key, rest @ ..] => explain_named(alloc, name, key, rest),
        [] => {
            let shown = show_bytes(alloc, name.as_bytes())?;
            found(format!(in alloc; "\"{shown}\" has no key"))
        }
    }
}

/// Explains the first bad operation.
fn explain_list(alloc: Global, ops: &[Value]) -> Result<Option<String>, Memory> {
    let count = ops.len();
    if count > MAX_OPS {
        return found(format!(in alloc;
            "ops has {count} operations, and at most {MAX_OPS} are allowed"
        ));
    }
    for (index, op) in ops.iter().enumerate() {
        if let Some(text) = explain_op(alloc, op)? {
            return found(format!(in alloc; "ops[{index}]: {text}"));
        }
    }
    Ok(None)
}

/// Explains the member `ops`.
pub fn explain_ops(alloc: Global, object: &Value) -> Result<Option<String>, Memory> {
    let Some(value) = object.get("ops") else {
        return found(String::from_str(
            alloc,
            "\"ops\" is missing: it must be a list of operations, and [] is one",
        ));
    };
    match value.as_array() {
        Some(ops) => explain_list(alloc, ops),
        None => {
            let shown = show_value(alloc, value)?;
            found(format!(in alloc; "ops is {shown}, and must be a list of operations"))
        }
    }
}
