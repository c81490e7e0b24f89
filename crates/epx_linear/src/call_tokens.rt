//! Reads a line of a history from its tokens, without a JSON value. Each function takes the part
//! that it is named after from the front of the tokens. None is not a fault: the caller then reads
//! the line as a JSON value.
ghost use Rattle.std.specs.Prelude.{◌≡◌, [], ◌∷◌, Some, IfSome, option_and_then};
ghost use Rattle.serde_json.specs.Data.{Data};
ghost use Rattle.epx_lines.specs.Meaning.{json_of};
ghost use Rattle.epx_lines.specs.between.Tokens.{ReadsValues, ParsesTo};
ghost use Rattle.epx_verify.specs.SaidLines.{values_of, op_index_of, reply_of};
ghost use Rattle.epx_linear.specs.HistoryLines.{time_from, time_or_null, call_from};
ghost use Rattle.epx_linear.specs.inner.AnswerTokens.{answer_from, ParsesToEnd};

use crate::call_line::is_up_to;
use crate::client_call::ClientCall;
use epx_lines::{take_id_parts, take_number, take_text, take_value_or_null};
use epx_types::entry::MAX_OPS;
use epx_types::{Reply, Values};
use json::{Reader, Scratch, Token};
use std::alloc::Global;
use std::str;

/// Takes the time at which a call returned, or null if no answer came.
fn take_time_or_null(reader: &mut Reader<'_>) -> Option<Option<u64>>
    ensures { IfSome result (λ t. ParsesTo 0 time_or_null reader.old t reader.new) }
{
    match take_value_or_null(reader)? {
        Some(time) => Some(Some(u64::try_from(time).ok()?)),
        None => Some(None),
    }
}

/// Takes a time that is not null.
fn take_time(reader: &mut Reader<'_>) -> Option<u64>
    ensures { IfSome result (λ t. ParsesTo 0 time_from reader.old t reader.new) }
{
    take_time_or_null(reader)?
}

/// Takes the list of values of a reply.
fn take_values(alloc: Global, reader: &mut Reader<'_>) -> Option<Vec<Option<i64>>>
    ensures { IfSome result (λ vs. ParsesTo 1 values_of reader.old vs.items reader.new) }
{
    let Token::BeginArray = reader.next()? else {
        return None;
    };
    let mut values = Vec::new(alloc);
    while !reader.take_end_array() {
        if values.len() == MAX_OPS {
            return None;
        }
        values.push(take_value_or_null(reader)?).ok()?;
    }
    Some(values)
}

/// Takes the index of an operation that aborted.
fn take_op_index(reader: &mut Reader<'_>) -> Option<u64>
    ensures { IfSome result (λ j. ParsesTo 0 op_index_of reader.old j reader.new) }
{
    let index = take_number(reader)?;
    if index < MAX_OPS as u64 {
        Some(index)
    } else {
        None
    }
}

/// `"ok",[v,..]` or `"abort",j`
fn take_reply(alloc: Global, reader: &mut Reader<'_>) -> Option<Reply>
    ensures { IfSome result
        (λ y. (a : Data) × (b : Data) × ReadsValues 1 reader.old (a ∷ b ∷ []) reader.new
        × (reply_of a b ≡ Some y)) }
{
    let kind = take_text(reader)?;
    if kind == "ok" {
        Some(Reply::Values(Values::new(take_values(alloc, reader)?)))
    } else if kind == "abort" {
        Some(Reply::Abort(take_op_index(reader)?))
    } else {
        None
    }
}

/// Takes the answer, if there is one, and the end of the array.
fn take_answer(alloc: Global, reader: &mut Reader<'_>) -> Option<Option<Reply>>
    ensures { IfSome result
        (λ answer. ParsesToEnd 1 answer_from reader.old answer reader.new) }
{
    if reader.take_end_array() {
        return Some(None);
    }
    let reply = take_reply(alloc, reader)?;
    if !reader.take_end_array() {
        return None;
    }
    Some(Some(reply))
}

/// Takes the array of a call.
fn take_call(alloc: Global, reader: &mut Reader<'_>) -> Option<ClientCall>
    ensures { IfSome result (λ c. ParsesTo 2 call_from reader.old c reader.new) }
{
    let Token::BeginArray = reader.next()? else {
        return None;
    };
    if take_text(reader)? != "call" {
        return None;
    }
    let id = take_id_parts(reader)?;
    let invoked = take_time(reader)?;
    let returned = take_time_or_null(reader)?;
    let answer = take_answer(alloc, reader)?;
    if !is_up_to(invoked, returned) {
        return None;
    }
    if returned.is_none() && answer.is_some() {
        return None;
    }
    Some(ClientCall {
        id,
        invoked,
        returned,
        answer,
    })
}

/// Reads a line that is one array and nothing else.
pub(crate) fn call_from_tokens(
    alloc: Global,
    scratch: &mut Scratch,
    bytes: &[u8],
) -> Option<ClientCall>
    ensures { IfSome result (λ c. option_and_then call_from (json_of bytes.now) ≡ Some c) }
{
    let text = str::from_utf8(bytes).ok()?;
    let mut reader = Reader::new(text, scratch).ok()?;
    let call = take_call(alloc, &mut reader)?;
    if reader.next().is_some() {
        return None;
    }
    Some(call)
}
