//! Reads a line of a base from its tokens, without a JSON value. Each function takes the part that
//! it is named after from the front of the tokens. None is not a fault: the caller then reads the
//! line as a JSON value.
ghost use Rattle.std.specs.Prelude.{◌≡◌, true, [], ◌∷◌, codes, Some, IfSome, option_and_then};
ghost use Rattle.serde_json.specs.Data.{Data};
ghost use Rattle.epx_lines.specs.Meaning.{json_of};
ghost use Rattle.epx_lines.specs.between.Tokens.{ReadsValue, ReadsValues, ParsesTo, ParsesAllTo};
ghost use Rattle.epx_report.specs.Forms.{is_value_list, is_op_index, is_outcome, form_named};
ghost use Rattle.epx_report.specs.Forms.{form_of};

use crate::from_value::{BaseLine, Counts};
use epx_lines::{take_id_parts, take_key, take_number, take_signed, take_text, take_value_or_null};
use epx_types::entry::MAX_OPS;
use json::{Reader, Scratch, Token};
use std::alloc::Global;
use std::str;

/// Takes the list of values of a reply. The values are checked and dropped.
fn take_values(reader: &mut Reader<'_>) -> Option<()>
    ensures { IfSome result
        (λ _. (d : Data) × ReadsValue 1 reader.old d reader.new × (is_value_list d ≡ true)) }
{
    let Token::BeginArray = reader.next()? else {
        return None;
    };
    let mut count = 0;
    while !reader.take_end_array() {
        if count == MAX_OPS {
            return None;
        }
        take_value_or_null(reader)?;
        count += 1;
    }
    Some(())
}

/// Takes the index of an operation that aborted.
fn take_op_index(reader: &mut Reader<'_>) -> Option<()>
    ensures { IfSome result
        (λ _. (d : Data) × ReadsValue 0 reader.old d reader.new × (is_op_index d ≡ true)) }
{
    if take_number(reader)? < MAX_OPS as u64 {
        Some(())
    } else {
        None
    }
}

/// `"ok",[v,..]` or `"abort",j`
fn take_outcome(reader: &mut Reader<'_>) -> Option<()>
    ensures { IfSome result
        (λ _. (a : Data) × (b : Data) × ReadsValues 1 reader.old (a ∷ b ∷ []) reader.new
        × (is_outcome a b ≡ true)) }
{
    let kind = take_text(reader)?;
    if kind == "ok" {
        take_values(reader)
    } else if kind == "abort" {
        take_op_index(reader)
    } else {
        None
    }
}

/// `r,i,..` after `"reply"`
fn take_reply(reader: &mut Reader<'_>) -> Option<BaseLine>
    ensures { IfSome result
        (λ l. ParsesAllTo 1 (form_named (codes "reply")) reader.old l reader.new) }
{
    let id = take_id_parts(reader)?;
    take_outcome(reader)?;
    Some(BaseLine::Reply(id))
}

/// `r,i` after `"done"`
fn take_done(reader: &mut Reader<'_>) -> Option<BaseLine>
    ensures { IfSome result
        (λ l. ParsesAllTo 1 (form_named (codes "done")) reader.old l reader.new) }
{
    Some(BaseLine::Done(take_id_parts(reader)?))
}

/// `k,v` after `"store"`
fn take_store(alloc: Global, reader: &mut Reader<'_>) -> Option<BaseLine>
    ensures { IfSome result
        (λ l. ParsesAllTo 1 (form_named (codes "store")) reader.old l reader.new) }
{
    let key = take_key(alloc, reader)?;
    let value = take_signed(reader)?;
    Some(BaseLine::Store { key, value })
}

/// `r,i,mr,mi` after `"waiting"`
fn take_waiting(reader: &mut Reader<'_>) -> Option<BaseLine>
    ensures { IfSome result
        (λ l. ParsesAllTo 1 (form_named (codes "waiting")) reader.old l reader.new) }
{
    let id = take_id_parts(reader)?;
    let _missing = take_id_parts(reader)?;
    Some(BaseLine::Waiting(id))
}

/// `E,"waiting",W,"components",C` after `"executed"`
fn take_header(reader: &mut Reader<'_>) -> Option<BaseLine>
    ensures { IfSome result
        (λ l. ParsesAllTo 1 (form_named (codes "executed")) reader.old l reader.new) }
{
    let executed = take_number(reader)?;
    if take_text(reader)? != "waiting" {
        return None;
    }
    let waiting = take_number(reader)?;
    if take_text(reader)? != "components" {
        return None;
    }
    if take_number(reader)? > executed {
        return None;
    }
    Some(BaseLine::Header(Counts { executed, waiting }))
}

/// Takes what follows the name of a line.
fn take_named(alloc: Global, name: &str, reader: &mut Reader<'_>) -> Option<BaseLine>
    ensures { IfSome result
        (λ l. ParsesAllTo 1 (form_named name.now) reader.old l reader.new) }
{
    if name == "reply" {
        take_reply(reader)
    } else if name == "done" {
        take_done(reader)
    } else if name == "store" {
        take_store(alloc, reader)
    } else if name == "waiting" {
        take_waiting(reader)
    } else if name == "executed" {
        take_header(reader)
    } else {
        None
    }
}

/// Takes a whole line: the array of its name and of what follows.
fn take_line(alloc: Global, reader: &mut Reader<'_>) -> Option<BaseLine>
    ensures { IfSome result (λ l. ParsesTo 2 form_of reader.old l reader.new) }
{
    let Token::BeginArray = reader.next()? else {
        return None;
    };
    let name = take_text(reader)?;
    let line = take_named(alloc, name, reader)?;
    if !reader.take_end_array() {
        return None;
    }
    Some(line)
}

/// Reads a line that is one array and nothing else.
pub(crate) fn line_from_tokens(
    alloc: Global,
    scratch: &mut Scratch,
    bytes: &[u8],
) -> Option<BaseLine>
    ensures { IfSome result (λ l. option_and_then form_of (json_of bytes.now) ≡ Some l) }
{
    let text = str::from_utf8(bytes).ok()?;
    let mut reader = Reader::new(text, scratch).ok()?;
    let line = take_line(alloc, &mut reader)?;
    if reader.next().is_some() {
        return None;
    }
    Some(line)
}
