//! Reads a line of a history from its JSON value.
ghost use Rattle.std.specs.Prelude.{◌≡◌, IfOk};
ghost use Rattle.serde_json.specs.View.{view};
ghost use Rattle.epx_linear.specs.HistoryLines.{time_from, time_or_null, is_up_to, call_with};
ghost use Rattle.epx_linear.specs.HistoryLines.{call_alone, answered_call, call_from};

use crate::client_call::ClientCall;
use epx_lines::read_id_parts;
use epx_report::has_text;
use epx_types::{Memory, Reply};
use epx_verify::read_reply;
use serde_json::Value;
use std::alloc::Global;

/// Each time is below this.
const END_OF_TIME: u64 = 1 << 63;

/// Reads a time. None if the value is no whole number below `END_OF_TIME`.
#[tactic(auto, unfolding(epx_lines::specs::Elements::whole))]
fn read_time(value: &Value) -> Option<u64>
    ensures { result ≡ time_from (view value.now) }
{
    let time = value.as_u64()?;
    if time < END_OF_TIME { Some(time) } else { None }
}

/// Reads the time at which a call returned, or null if no answer came.
#[tactic(auto, unfolding(crate::specs::HistoryLines::time_or_null))]
fn read_time_or_null(value: &Value) -> Option<Option<u64>>
    ensures { result ≡ time_or_null (view value.now) }
{
    if value.is_null() {
        return Some(None);
    }
    Some(Some(read_time(value)?))
}

/// Whether a call did not return before it was invoked.
pub(crate) fn is_up_to(invoked: u64, returned: Option<u64>) -> bool
    ensures { result ≡ is_up_to invoked returned }
{
    match returned {
        Some(returned) => invoked <= returned,
        None => true,
    }
}

/// Reads the first elements of a line. The others say when the call returned, and its answer.
#[tactic(auto, unfolding(crate::specs::HistoryLines::call_with))]
fn read_call_with(
    name: &Value,
    replica: &Value,
    number: &Value,
    invoked: &Value,
    returned: Option<u64>,
    answer: Option<Reply>,
) -> Option<ClientCall>
    ensures { result ≡ call_with (view name.now) (view replica.now) (view number.now)
        (view invoked.now) returned answer }
{
    if !has_text(name, "call") {
        return None;
    }
    let id = read_id_parts(replica, number)?;
    let invoked = read_time(invoked)?;
    if !is_up_to(invoked, returned) {
        return None;
    }
    Some(ClientCall {
        id,
        invoked,
        returned,
        answer,
    })
}

/// `["call",r,i,invoked,returned]`
#[tactic(auto, unfolding(crate::specs::HistoryLines::call_alone))]
fn read_call_alone(
    name: &Value,
    replica: &Value,
    number: &Value,
    invoked: &Value,
    returned: &Value,
) -> Option<ClientCall>
    ensures { result ≡ call_alone (view name.now) (view replica.now) (view number.now)
        (view invoked.now) (view returned.now) }
{
    let returned = read_time_or_null(returned)?;
    read_call_with(name, replica, number, invoked, returned, None)
}

/// `["call",r,i,invoked,returned,"ok",[v,..]]` or `["call",r,i,invoked,returned,"abort",j]`
#[tactic(auto, unfolding(crate::specs::HistoryLines::answered_call))]
fn read_answered_call(
    alloc: Global,
    name: &Value,
    replica: &Value,
    number: &Value,
    invoked: &Value,
    returned: &Value,
    kind: &Value,
    value: &Value,
) -> Result<Option<ClientCall>, Memory>
    ensures { IfOk result (λ o. o ≡ answered_call (view name.now) (view replica.now)
        (view number.now) (view invoked.now) (view returned.now) (view kind.now)
        (view value.now)) }
{
    let Some(returned) = read_time(returned) else {
        return Ok(None);
    };
    let Some(reply) = read_reply(alloc, kind, value)? else {
        return Ok(None);
    };
    let (returned, answer) = (Some(returned), Some(reply));
    Ok(read_call_with(name, replica, number, invoked, returned, answer))
}

/// Reads the call of a line. None if it says no call.
#[tactic(auto, unfolding(crate::specs::HistoryLines::call_from))]
pub(crate) fn read_call_value(alloc: Global, value: &Value) -> Result<Option<ClientCall>, Memory>
    ensures { IfOk result (λ o. o ≡ call_from (view value.now)) }
{
    let Some(parts) = value.as_array() else {
        return Ok(None);
    };
    let [name, r, i, invoked, returned, more @ ..] = parts.as_slice() else {
        return Ok(None);
    };
    match more {
        [] => Ok(read_call_alone(name, r, i, invoked, returned)),
        [a, b] => read_answered_call(alloc, name, r, i, invoked, returned, a, b),
        _ => Ok(None),
    }
}
