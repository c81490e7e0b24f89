//! The text of the answer about a history.
ghost use Rattle.std.specs.Prelude.{◌≡◌, ◌++◌, flat_map, zip, option_map, IfOk};
ghost use Rattle.std.specs.Prelude.{OnOk, option_and_then, slice_get};
ghost use Rattle.epx_linear.specs.ClientCalls.{IsHistory, calls_at, calls_in};
ghost use Rattle.epx_linear.specs.LinearTexts.{is_answered_otherwise, findings_at};
ghost use Rattle.epx_linear.specs.LinearTexts.{lost_line, findings, linear_text, or_linear};

use crate::calls::History;
use crate::client_call::ClientCall;
use crate::linear_lines::{append_lateness, append_lost, append_other_reply};
use crate::lost_calls::lost_ids;
use epx_report::name_line;
use epx_types::{Id, Memory, Reply};
use epx_verify::is_same_reply;
use std::alloc::Global;

/// Whether the call, if there is one, has another answer than this reply.
fn is_answered_otherwise(call: Option<&ClientCall>, reply: &Reply) -> bool
    ensures { result ≡ is_answered_otherwise (option_map (λ c. c.now) call.entry)
        reply.now }
{
    let Some(call) = call else {
        return false;
    };
    match &call.answer {
        Some(answer) => !is_same_reply(answer, reply),
        None => false,
    }
}

/// Returns the call at a place, if it has one.
fn call_at(history: &[ClientCall], place: Option<usize>) -> Option<&ClientCall>
    ensures { option_map (λ c. c.now) result
        ≡ option_and_then (slice_get history.now) place }
{
    match place {
        Some(at) => history.get(at),
        None => None,
    }
}

/// Appends what is wrong with the calls of executed instances. The call of each is at its place.
fn append_findings(
    alloc: Global,
    text: &mut Vec<u8>,
    history: &[ClientCall],
    ids: &[Id],
    replies: &[Reply],
    late: &[Option<Id>],
    places: &[Option<usize>],
) -> Result<(), Memory>
    requires { calls_at history.now places.now ≡ calls_in history.now ids.now }
    ensures { OnOk result (text.new.items ≡ text.old.items ++ flat_map (findings_at history.now)
        (zip (zip ids.now replies.now) late.now)) }
{
    for (((id, reply), late), place) in ids.iter().zip(replies).zip(late).zip(places) {
        if is_answered_otherwise(call_at(history, *place), reply) {
            append_other_reply(alloc, text, *id)?;
        }
        append_lateness(alloc, text, *id, *late)?;
    }
    Ok(())
}

/// Appends the lines of the instances whose calls are lost.
fn append_all_lost(alloc: Global, text: &mut Vec<u8>, ids: &[Id]) -> Result<(), Memory>
    ensures { OnOk result (text.new.items ≡ text.old.items ++ flat_map lost_line ids.now) }
{
    for id in ids {
        append_lost(alloc, text, *id)?;
    }
    Ok(())
}

/// Returns the lines of what is wrong with a history, over instances that were executed in this
/// order with these replies.
fn findings(
    alloc: Global,
    ids: &[Id],
    replies: &[Reply],
    history: &[ClientCall],
    places: &[Option<usize>],
    late: &[Option<Id>],
) -> Result<Vec<u8>, Memory>
    requires history { IsHistory history.now }
    requires places { calls_at history.now places.now ≡ calls_in history.now ids.now }
    ensures { IfOk result (λ text. text.items
        ≡ findings ids.now replies.now history.now late.now) }
{
    let lost = lost_ids(alloc, history, places)?;
    let mut text = Vec::new(alloc);
    append_findings(alloc, &mut text, history, ids, replies, late, places)?;
    append_all_lost(alloc, &mut text, &lost)?;
    Ok(text)
}

/// Returns the text, or one line if it is empty.
fn or_linear(alloc: Global, text: Vec<u8>) -> Result<Vec<u8>, Memory>
    ensures { IfOk result (λ line. line.items ≡ or_linear text.items) }
{
    if text.is_empty() {
        return Ok(name_line(alloc, "linear")?);
    }
    Ok(text)
}

/// Says where a history does not fit instances, which were executed in this order with these
/// replies, and whose calls are at these places. First comes for each instance whether its call was
/// answered otherwise, and which call it is late for, as `late_calls` finds. Then come the calls
/// that returned and are not executed, by rising Id. If there is nothing to say, the text is the
/// line `["linear"]`. Takes O(n log n) time.
pub fn linear_text(
    alloc: Global,
    ids: &[Id],
    replies: &[Reply],
    history: &History,
    places: &[Option<usize>],
    late: &[Option<Id>],
) -> Result<Vec<u8>, Memory>
    requires { calls_at history.now places.now ≡ calls_in history.now ids.now }
    ensures { IfOk result (λ text. text.items
        ≡ linear_text ids.now replies.now history.now late.now) }
{
    let text = findings(alloc, ids, replies, history.calls(), places, late)?;
    or_linear(alloc, text)
}
