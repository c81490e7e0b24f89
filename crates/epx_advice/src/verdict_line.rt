//! Reads the line of a verdict.
use epx_lines::{read_id_parts, read_json, read_number};
use epx_ranking::OrderFault;
use epx_types::Memory;
use serde_json::Value;
use std::alloc::Global;

/// The fault with this name at a position.
fn fault_at(name: &str, position: &Value) -> Option<OrderFault> {
    let place = usize::try_from(read_number(position)?).ok()?;
    match name {
        "stranger" => Some(OrderFault::Stranger { place }),
        "repeat" => Some(OrderFault::Repeat { place }),
        "early" => Some(OrderFault::Early { place }),
        "sequence" => Some(OrderFault::Sequence { place }),
        _ => None,
    }
}

/// The fault that the elements of a verdict name. None for `["lawful"]`, and for other elements.
fn fault_of(parts: &[Value]) -> Option<OrderFault> {
    match parts {
        [name, position] => fault_at(name.as_str()?, position),
        [name, replica, number] if name.as_str()? == "missing" => {
            let id = read_id_parts(replica, number)?;
            Some(OrderFault::Missing { id })
        }
        _ => None,
    }
}

/// The fault that a verdict names. None for `lawful`, and for what is no verdict.
pub(crate) fn read_verdict(alloc: Global, verdict: &[u8]) -> Result<Option<OrderFault>, Memory> {
    let Some(value) = read_json(alloc, verdict)? else {
        return Ok(None);
    };
    match value.as_array() {
        Some(parts) => Ok(fault_of(parts)),
        None => Ok(None),
    }
}
