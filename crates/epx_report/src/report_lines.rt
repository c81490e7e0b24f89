//! Writes the lines of a report token by token: JSON (RFC 8259) in compact form, each ended by a
//! line feed.
ghost use Rattle.std.specs.Prelude.{◌≡◌, ◌++◌, ◌∷◌, [], map, flat_map, zip, OnOk, IfOk};
ghost use Rattle.std.specs.FinMap as contents;
ghost use Rattle.json.specs.Token.{begin_array, end_array, string};
ghost use Rattle.json.specs.Print.{print};
ghost use Rattle.epx_report.specs.inner.LineTokens.{id_tokens, value_token, reply_tokens};
ghost use Rattle.epx_report.specs.ReportLines.{line_feed, done_line, header_line, reply_line};
ghost use Rattle.epx_report.specs.ReportLines.{store_line, waiting_line};

use epx_store::Store;
use epx_types::{Id, Key, Memory, Reply};
use json::Writer;
use std::alloc::{AllocError, Global};
use std::mem::replace;

pub(crate) const LINE_FEED: u8 = 10;

/// Begins the array of a line and writes its name. The line is written into the buffer of the
/// previous line, because a writer at the end of the whole text would first clear the text's spare
/// capacity.
pub(crate) fn begin_line(
    alloc: Global,
    line: &mut Vec<u8>,
    name: &str,
) -> Result<Writer, AllocError>
    ensures tokens { IfOk result (λ out. out.tokens ≡ begin_array ∷ string name.now ∷ []) }
    ensures before { IfOk result (λ out. out.before ≡ []) }
{
    line.clear();
    let mut out = Writer::new(replace(line, Vec::new(alloc)));
    out.begin_array()?;
    out.string(name)?;
    Ok(out)
}

/// Ends the array of a line, and appends the line to a text.
pub(crate) fn end_line(
    text: &mut Vec<u8>,
    line: &mut Vec<u8>,
    mut out: Writer,
) -> Result<(), AllocError>
    ensures { OnOk result (text.new.items ≡ text.old.items
        ++ ((out.before ++ print (out.tokens ++ end_array ∷ [])) ++ line_feed ∷ [])) }
{
    out.end_array()?;
    *line = out.into_inner();
    text.extend_from_slice(line)?;
    text.push(LINE_FEED)?;
    Ok(())
}

/// Writes the replica and the number of an Id.
pub(crate) fn write_id_parts(out: &mut Writer, id: Id) -> Result<(), AllocError>
    ensures tokens { OnOk result (out.new.tokens ≡ out.old.tokens ++ id_tokens id) }
    ensures before { out.new.before ≡ out.old.before }
{
    out.u64(id.replica as u64)?;
    out.u64(id.number)
}

/// Writes a value: a number, or null where there is none.
fn write_value(out: &mut Writer, value: Option<i64>) -> Result<(), AllocError>
    ensures tokens { OnOk result (out.new.tokens ≡ out.old.tokens ++ value_token value ∷ []) }
    ensures before { out.new.before ≡ out.old.before }
{
    match value {
        Some(value) => out.i64(value),
        None => out.null(),
    }
}

/// Writes values, without the brackets of their array.
fn write_values(out: &mut Writer, values: &[Option<i64>]) -> Result<(), AllocError>
    ensures tokens { OnOk result (out.new.tokens ≡ out.old.tokens ++ map value_token values.now) }
    ensures before { out.new.before ≡ out.old.before }
{
    for value in values {
        write_value(out, *value)?;
    }
    Ok(())
}

/// Writes `"ok"` and the array of values, or `"abort"` and the index of the operation.
fn write_reply(out: &mut Writer, reply: &Reply) -> Result<(), AllocError>
    ensures tokens { OnOk result (out.new.tokens ≡ out.old.tokens ++ reply_tokens reply.now) }
    ensures before { out.new.before ≡ out.old.before }
{
    match reply {
        Reply::Values(values) => {
            out.string("ok")?;
            out.begin_array()?;
            write_values(out, values.as_slice())?;
            out.end_array()
        }
        Reply::Abort(index) => {
            out.string("abort")?;
            out.u64(*index as u64)
        }
    }
}

/// Appends the header: the number of executed instances, of waiting instances, and of components
/// that the executed ones make up.
pub fn append_header(
    alloc: Global,
    text: &mut Vec<u8>,
    executed: usize,
    waiting: usize,
    components: usize,
) -> Result<(), AllocError>
    ensures { OnOk result (text.new.items ≡ text.old.items
        ++ header_line executed waiting components) }
{
    let line = &mut Vec::new(alloc);
    let mut out = begin_line(alloc, line, "executed")?;
    out.u64(executed as u64)?;
    out.string("waiting")?;
    out.u64(waiting as u64)?;
    out.string("components")?;
    out.u64(components as u64)?;
    end_line(text, line, out)
}

/// Appends the line of an instance that was done before. `line` is a buffer to reuse.
fn append_done_instance(
    alloc: Global,
    text: &mut Vec<u8>,
    line: &mut Vec<u8>,
    id: Id,
) -> Result<(), AllocError>
    ensures { OnOk result (text.new.items ≡ text.old.items ++ done_line id) }
{
    let mut out = begin_line(alloc, line, "done")?;
    write_id_parts(&mut out, id)?;
    end_line(text, line, out)
}

/// Appends the line of an executed instance and its reply. `line` is a buffer to reuse.
fn append_reply(
    alloc: Global,
    text: &mut Vec<u8>,
    line: &mut Vec<u8>,
    id: Id,
    reply: &Reply,
) -> Result<(), AllocError>
    ensures { OnOk result (text.new.items ≡ text.old.items ++ reply_line (id, reply.now)) }
{
    let mut out = begin_line(alloc, line, "reply")?;
    write_id_parts(&mut out, id)?;
    write_reply(&mut out, reply)?;
    end_line(text, line, out)
}

/// Appends the line of a key and its value. `line` is a buffer to reuse.
fn append_store_pair(
    alloc: Global,
    text: &mut Vec<u8>,
    line: &mut Vec<u8>,
    key: &Key,
    value: &i64,
) -> Result<(), AllocError>
    ensures { OnOk result (text.new.items ≡ text.old.items ++ store_line (key.now, value.now)) }
{
    let mut out = begin_line(alloc, line, "store")?;
    out.string(key.text())?;
    out.i64(*value)?;
    end_line(text, line, out)
}

/// Appends the line of an instance that waits for a missing one.
pub fn append_waiter(
    alloc: Global,
    text: &mut Vec<u8>,
    line: &mut Vec<u8>,
    id: Id,
    missing: Id,
) -> Result<(), AllocError>
    ensures { OnOk result (text.new.items ≡ text.old.items
        ++ waiting_line (record { id = id; missing = missing })) }
{
    let mut out = begin_line(alloc, line, "waiting")?;
    write_id_parts(&mut out, id)?;
    write_id_parts(&mut out, missing)?;
    end_line(text, line, out)
}

/// Appends the lines of the instances that were done before.
pub fn append_done(alloc: Global, text: &mut Vec<u8>, done: &[Id]) -> Result<(), AllocError>
    ensures { OnOk result (text.new.items ≡ text.old.items ++ flat_map done_line done.now) }
{
    let mut line = Vec::new(alloc);
    for id in done {
        append_done_instance(alloc, text, &mut line, *id)?;
    }
    Ok(())
}

/// Appends the reply lines of instances, up to the end of the shorter list.
pub fn append_replies(
    alloc: Global,
    text: &mut Vec<u8>,
    ids: &[Id],
    replies: &[Reply],
) -> Result<(), AllocError>
    ensures { OnOk result (text.new.items ≡ text.old.items
        ++ flat_map reply_line (zip ids.now replies.now)) }
{
    let mut line = Vec::new(alloc);
    for (id, reply) in ids.iter().zip(replies) {
        append_reply(alloc, text, &mut line, *id, reply)?;
    }
    Ok(())
}

/// Appends the store lines of keys with their values.
pub fn append_pairs(
    alloc: Global,
    text: &mut Vec<u8>,
    pairs: &[(&Key, i64)],
) -> Result<(), AllocError>
    ensures { OnOk result (text.new.items ≡ text.old.items
        ++ flat_map store_line (map (λ p. (p.0.now, p.1)) pairs.now)) }
{
    let mut line = Vec::new(alloc);
    for (key, value) in pairs {
        append_store_pair(alloc, text, &mut line, key, value)?;
    }
    Ok(())
}

/// Appends the lines of a store, in byte order of the keys.
pub fn append_store(alloc: Global, text: &mut Vec<u8>, store: &Store) -> Result<(), Memory>
    ensures { OnOk result (text.new.items ≡ text.old.items
        ++ flat_map store_line (contents.entries store.now)) }
{
    append_pairs(alloc, text, &store.pairs()?)?;
    Ok(())
}
