//! Reads an instance from the tokens of its line, without a JSON value of the whole line. Each
//! function takes the part that it is named after from the front of the tokens. None is not a
//! fault: the caller then reads the line as a JSON value.
ghost use Rattle.std.specs.Prelude.{◌≡◌, ◌↔◌, true, Ok, Some, IfSome, IsTrue};
ghost use Rattle.serde_json.specs.Data.{Members, object};
ghost use Rattle.epx_types.specs.SmallLists.{items_of};
ghost use Rattle.epx_types.specs.declared.fault.Why.TheVariants.{NotJson};
ghost use Rattle.epx_lines.specs.declared.Line.TheVariants as line;
ghost use Rattle.epx_lines.specs.DependencyList.{id_of};
ghost use Rattle.epx_lines.specs.Elements.{whole, each_of_at_most};
ghost use Rattle.epx_lines.specs.Meaning.{json_of, need, is_committed, meaning_of_value};
ghost use Rattle.epx_lines.specs.Meaning.{meaning_of_object};
ghost use Rattle.epx_lines.specs.OperationList.{op_with_value, op_of, ops_of};
ghost use Rattle.epx_lines.specs.between.Tokens.{ReadsValue, ParsesTo, HoldsParts, AddsMember};

use crate::deps::sort_other_ids;
use crate::digits::read_signed;
use crate::ops::{op_named, op_with_absence, op_with_number, op_with_target};
use crate::status::committed_by;
use crate::tokens::{take_id_parts, take_key, take_number, take_replica, take_text};
use epx_types::entry::{MAX_DEPS, MAX_OPS};
use epx_types::{Entry, Id, Key, Op, SmallList};
use json::{Reader, Scratch, Token};
use std::alloc::Global;
use std::str;

/// The parts of an instance that have been read so far.
#[derive(Drop)]
pub(crate) struct Parts {
    pub(crate) replica: Option<u8>,
    pub(crate) number: Option<u64>,
    pub(crate) seq: Option<u64>,
    /// The Ids in `deps`, as they are written.
    pub(crate) named: Option<SmallList<Id>>,
    pub(crate) ops: Option<SmallList<Op>>,
}

/// Buffers for the lists of the current line. The next line reuses them.
#[derive(Drop)]
pub(crate) struct ListBuffers {
    ids: Vec<Id>,
    ops: Vec<Op>,
}

impl ListBuffers {
    /// Returns empty buffers.
    pub(crate) fn new(alloc: Global) -> ListBuffers {
        ListBuffers {
            ids: Vec::new(alloc),
            ops: Vec::new(alloc),
        }
    }
}

/// Takes an Id that is written as `[r,i]`.
fn take_id(reader: &mut Reader<'_>) -> Option<Id>
    ensures { IfSome result (λ x. ParsesTo 1 id_of reader.old x reader.new) }
{
    let Token::BeginArray = reader.next()? else {
        return None;
    };
    let id = take_id_parts(reader)?;
    if !reader.take_end_array() {
        return None;
    }
    Some(id)
}

/// Moves the items out of a buffer.
fn move_items<T: Drop>(alloc: Global, gathered: &mut Vec<T>) -> Option<SmallList<T>>
    ensures { IfSome result (λ list. items_of list ≡ gathered.old.items) }
{
    SmallList::take(alloc, gathered).ok()
}

/// Takes an array of at most `MAX_DEPS` Ids, through the buffer `ids`.
fn take_ids(alloc: Global, reader: &mut Reader<'_>, ids: &mut Vec<Id>) -> Option<SmallList<Id>>
    ensures { IfSome result
        (λ ids. ParsesTo 2 (each_of_at_most 256 id_of) reader.old (items_of ids) reader.new) }
{
    let Token::BeginArray = reader.next()? else {
        return None;
    };
    ids.clear();
    while !reader.take_end_array() {
        if ids.len() == MAX_DEPS {
            return None;
        }
        ids.push(take_id(reader)?).ok()?;
    }
    move_items(alloc, ids)
}

/// Takes the value after the name and the key of an operation. Returns the operation.
fn take_op_with(alloc: Global, reader: &mut Reader<'_>, name: &str, key: Key) -> Option<Op>
    ensures { IfSome result
        (λ op. ParsesTo 0 (op_with_value name.now key) reader.old op reader.new) }
{
    match reader.next()? {
        Token::Number(text) => op_with_number(name, key, read_signed(text)?),
        Token::String(text) => op_with_target(name, key, Key::new(alloc, text).ok()??),
        Token::Null => op_with_absence(name, key),
        _ => None,
    }
}

/// Takes an operation: `[name,key]`, or `[name,key,d]` with the argument d.
fn take_op(alloc: Global, reader: &mut Reader<'_>) -> Option<Op>
    ensures { IfSome result (λ op. ParsesTo 1 op_of reader.old op reader.new) }
{
    let Token::BeginArray = reader.next()? else {
        return None;
    };
    let name = take_text(reader)?;
    let key = take_key(alloc, reader)?;
    if reader.take_end_array() {
        return Some(op_named(name, key)?);
    }
    let op = take_op_with(alloc, reader, name, key)?;
    if !reader.take_end_array() {
        return None;
    }
    Some(op)
}

/// Takes an array of at most `MAX_OPS` operations, through the buffer `ops`.
fn take_ops(alloc: Global, reader: &mut Reader<'_>, ops: &mut Vec<Op>) -> Option<SmallList<Op>>
    ensures { IfSome result (λ ops. ParsesTo 2 ops_of reader.old (items_of ops) reader.new) }
{
    let Token::BeginArray = reader.next()? else {
        return None;
    };
    ops.clear();
    while !reader.take_end_array() {
        if ops.len() == MAX_OPS {
            return None;
        }
        ops.push(take_op(alloc, reader)?).ok()?;
    }
    move_items(alloc, ops)
}

/// Takes a status. None unless an instance with this status is committed.
fn take_committed(reader: &mut Reader<'_>) -> Option<()>
    ensures { IfSome result
        (λ _. ParsesTo 0 (λ d. is_committed (Some d)) reader.old true reader.new) }
{
    if committed_by(take_text(reader)?)? {
        Some(())
    } else {
        None
    }
}

/// Whether a member has this name. Most names differ in length, and then no text is compared.
fn is_named(name: &str, text: &str) -> bool
    ensures { IsTrue result ↔ (name.now ≡ text.now) }
{
    name.len() == text.len() && name == text
}

/// Takes the value of the member with this name, and stores it in `parts`.
fn take_member(
    alloc: Global,
    name: &str,
    reader: &mut Reader<'_>,
    lists: &mut ListBuffers,
    parts: &mut Parts,
) -> Option<()>
    ensures { IfSome result (λ _. AddsMember name.now reader.old reader.new parts.old parts.new) }
{
    if is_named(name, "r") {
        parts.replica = Some(take_replica(reader)?);
    } else if is_named(name, "i") {
        parts.number = Some(take_number(reader)?);
    } else if is_named(name, "seq") {
        parts.seq = Some(take_number(reader)?);
    } else if is_named(name, "deps") {
        parts.named = Some(take_ids(alloc, reader, &mut lists.ids)?);
    } else if is_named(name, "ops") {
        parts.ops = Some(take_ops(alloc, reader, &mut lists.ops)?);
    } else if is_named(name, "status") {
        take_committed(reader)?;
    } else {
        return None;
    }
    Some(())
}

/// Takes an object. None too if it has a member of another name, or if its status does not commit
/// the instance.
fn take_parts(alloc: Global, reader: &mut Reader<'_>, lists: &mut ListBuffers) -> Option<Parts>
    ensures { IfSome result (λ parts. (ms : Members)
        × ReadsValue 3 reader.old (object ms) reader.new × HoldsParts ms parts) }
{
    let Token::BeginObject = reader.next()? else {
        return None;
    };
    let mut parts = Parts {
        replica: None,
        number: None,
        seq: None,
        named: None,
        ops: None,
    };
    while let Some(name) = reader.next_key().ok()? {
        take_member(alloc, name, reader, lists, &mut parts)?;
    }
    Some(parts)
}

/// The entry of the parts of an object. None if one is missing, or if memory runs out.
fn entry_from_parts(alloc: Global, parts: Parts) -> Option<Entry>
    ensures { IfSome result
        (λ e. (ms : Members) → HoldsParts ms parts
        → meaning_of_object (object ms) ≡ Ok (line.Entry e)) }
{
    // All parts are there, or all are dropped at once.
    let (Some(replica), Some(number), Some(seq)) = (parts.replica, parts.number, parts.seq) else {
        return None;
    };
    let id = Id { replica, number };
    let (named, ops) = parts.named.zip(parts.ops)?;
    let deps = sort_other_ids(alloc, id, named).ok()?;
    Entry::from_lists(id, seq, deps, ops)
}

/// Reads the entry of a line that is one object and nothing else.
pub(crate) fn entry_from_tokens(
    alloc: Global,
    scratch: &mut Scratch,
    lists: &mut ListBuffers,
    bytes: &[u8],
) -> Option<Entry>
    ensures { IfSome result
        (λ e. need NotJson (json_of bytes.now) meaning_of_value ≡ Ok (line.Entry e)) }
{
    let text = str::from_utf8(bytes).ok()?;
    let mut reader = Reader::new(text, scratch).ok()?;
    let parts = take_parts(alloc, &mut reader, lists)?;
    if reader.next().is_some() {
        return None;
    }
    entry_from_parts(alloc, parts)
}
