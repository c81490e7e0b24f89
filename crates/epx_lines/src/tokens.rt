//! Takes parts of a line from the front of its tokens, without a JSON value. None is not a fault:
//! the caller then reads the line as a JSON value.
ghost use Rattle.std.specs.Prelude.{◌^◌, IfSome};
ghost use Rattle.serde_json.specs.Data.{string};
ghost use Rattle.epx_lines.specs.DependencyList.{id_of_pair};
ghost use Rattle.epx_lines.specs.Elements.{whole, signed};
ghost use Rattle.epx_lines.specs.OperationList.{key_of, value_or_null};
ghost use Rattle.epx_lines.specs.between.Tokens.{ReadsValue, ParsesTo, ParsesAllTo};

use crate::digits::{read_signed, read_unsigned};
use epx_types::{Id, Key};
use json::{Reader, Token};
use std::alloc::Global;

/// Takes a whole number below 2^64.
pub fn take_number(reader: &mut Reader<'_>) -> Option<u64>
    ensures { IfSome result (λ n. ParsesTo 0 (whole (2 ^ 64)) reader.old n reader.new) }
{
    let Token::Number(text) = reader.next()? else {
        return None;
    };
    Some(read_unsigned(text)?)
}

/// Takes the number of a replica, below 256.
pub fn take_replica(reader: &mut Reader<'_>) -> Option<u8>
    ensures { IfSome result (λ r. ParsesTo 0 (whole 256) reader.old r reader.new) }
{
    Some(u8::try_from(take_number(reader)?).ok()?)
}

/// Takes a replica and then a number. Returns the Id of both.
pub fn take_id_parts(reader: &mut Reader<'_>) -> Option<Id>
    ensures { IfSome result (λ x. ParsesAllTo 0 id_of_pair reader.old x reader.new) }
{
    let replica = take_replica(reader)?;
    let number = take_number(reader)?;
    Some(Id { replica, number })
}

/// Takes a signed whole number of 64 bits.
pub fn take_signed(reader: &mut Reader<'_>) -> Option<i64>
    ensures { IfSome result (λ z. ParsesTo 0 signed reader.old z reader.new) }
{
    let Token::Number(text) = reader.next()? else {
        return None;
    };
    Some(read_signed(text)?)
}

/// Takes a value of 64 bits, or null for absence.
pub fn take_value_or_null(reader: &mut Reader<'_>) -> Option<Option<i64>>
    ensures { IfSome result (λ v. ParsesTo 0 value_or_null reader.old v reader.new) }
{
    match reader.next()? {
        Token::Number(text) => Some(Some(read_signed(text)?)),
        Token::Null => Some(None),
        _ => None,
    }
}

/// Takes a text, borrowed from the line or from the reader's scratch.
pub fn take_text<'a>(reader: &mut Reader<'a>) -> Option<&'a str>
    ensures { IfSome result (λ s. ReadsValue 0 reader.old (string s.now) reader.new) }
{
    match reader.next()? {
        Token::String(text) => Some(text),
        _ => None,
    }
}

/// Takes a key: a text of 1 to 64 bytes.
pub fn take_key(alloc: Global, reader: &mut Reader<'_>) -> Option<Key>
    ensures { IfSome result (λ k. ParsesTo 0 key_of reader.old k reader.new) }
{
    let text = take_text(reader)?;
    Some(Key::new(alloc, text).ok()??)
}
