//! Reads a line.
ghost use Rattle.std.specs.Prelude.{◌≡◌, Ok, IfOk, IfErr, codes, option_map};
ghost use Rattle.serde_json.specs.Find.{get};
ghost use Rattle.serde_json.specs.View.{view};
ghost use Rattle.epx_types.specs.SmallLists.{items_of};
ghost use Rattle.epx_types.specs.declared.fault.Why.TheVariants.{NotJson};
ghost use Rattle.epx_lines.specs.Meaning.{is_blank, json_of, need, at_member, is_committed};
ghost use Rattle.epx_lines.specs.Meaning.{meaning_of_object, meaning_of_value, meaning_of};
ghost use Rattle.epx_lines.specs.DependencyList.{deps_of};
ghost use Rattle.epx_lines.specs.OperationList.{ops_of};
ghost use Rattle.epx_lines.specs.between.Faults.{IsFaultOf};

use crate::deps::{read_deps, read_number, read_replica};
use crate::from_tokens::{ListBuffers, entry_from_tokens};
use crate::ops::read_ops;
use crate::status::committed_by;
use crate::{Line, LineFault};
use epx_types::{Entry, Id, Memory, Op, SmallList, Why};
use json::Scratch;
use serde_json::Value;
use std::alloc::Global;

/// The most bytes that a line may have if it is not blank, without its line feed.
pub const MAX_LINE_BYTES: usize = 65_536;

/// Whether a line is empty or has only spaces, tabs and carriage returns.
pub fn is_blank_line(bytes: &[u8]) -> bool
    ensures { result ≡ is_blank bytes.now }
{
    bytes.iter().all(|b| matches!(*b, b' ' | b'\t' | b'\r'))
}

/// Whether an object's instance is committed. An object without a status is. None if there is no
/// such status.
fn is_committed(object: &Value) -> Option<bool>
    ensures { result ≡ is_committed (get (codes "status") (view object.now)) }
{
    let Some(status) = object.get("status") else {
        return Some(true);
    };
    committed_by(status.as_str()?)
}

/// Reads the member `deps` of an object. None if it is missing, or is not an array of at most
/// `MAX_DEPS` Ids.
fn member_deps(alloc: Global, id: Id, object: &Value) -> Result<Option<SmallList<Id>>, Memory>
    ensures { IfOk result
        (λ o. option_map items_of o
        ≡ at_member (codes "deps") (deps_of id) (view object.now)) }
{
    match object.get("deps") {
        Some(value) => read_deps(alloc, id, value),
        None => Ok(None),
    }
}

/// Reads the member `ops` of an object. None if it is missing, or is not an array of at most
/// `MAX_OPS` operations.
fn member_ops(alloc: Global, object: &Value) -> Result<Option<Vec<Op>>, Memory>
    ensures { IfOk result
        (λ o. option_map (λ v. v.items) o
        ≡ at_member (codes "ops") ops_of (view object.now)) }
{
    match object.get("ops") {
        Some(value) => read_ops(alloc, value),
        None => Ok(None),
    }
}

/// What an object means. Its members are read in the order in which their faults are reported.
#[tactic(auto, unfolding(crate::specs::Meaning::meaning_of_object))]
fn read_object(alloc: Global, value: &Value) -> Result<Line, LineFault>
    ensures ok { IfOk result (λ l. meaning_of_object (view value.now) ≡ Ok l) }
    ensures bad { IfErr result (λ f. IsFaultOf f (meaning_of_object (view value.now))) }
{
    let replica = value
        .get("r")
        .and_then(read_replica)
        .ok_or(LineFault::Bad(Why::Replica))?;
    let number = value
        .get("i")
        .and_then(read_number)
        .ok_or(LineFault::Bad(Why::Number))?;
    let seq = value
        .get("seq")
        .and_then(read_number)
        .ok_or(LineFault::Bad(Why::Seq))?;
    if !is_committed(value).ok_or(LineFault::Bad(Why::Status))? {
        return Ok(Line::Blank);
    }
    let id = Id { replica, number };
    let Some(deps) = member_deps(alloc, id, value)? else {
        return Err(LineFault::Bad(Why::Deps));
    };
    let Some(ops) = member_ops(alloc, value)? else {
        return Err(LineFault::Bad(Why::Ops));
    };
    let ops = SmallList::from_vec(ops);
    Ok(Line::Entry(Entry::from_lists(id, seq, deps, ops).unwrap()))
}

/// Parses a JSON text. None if the bytes are not JSON.
pub fn read_json(alloc: Global, bytes: &[u8]) -> Result<Option<Value>, Memory>
    ensures { IfOk result (λ o. option_map view o ≡ json_of bytes.now) }
{
    match Value::from_slice(alloc, bytes) {
        Ok(value) => Ok(Some(value)),
        Err(error) => {
            if error.is_memory() {
                return Err(Memory);
            }
            Ok(None)
        }
    }
}

/// Reads a line that is neither blank nor too long, from its JSON value.
fn read_json_line(alloc: Global, bytes: &[u8]) -> Result<Line, LineFault>
    ensures ok { IfOk result (λ l. need NotJson (json_of bytes.now) meaning_of_value ≡ Ok l) }
    ensures bad { IfErr result
        (λ f. IsFaultOf f (need NotJson (json_of bytes.now) meaning_of_value)) }
{
    let Some(value) = read_json(alloc, bytes)? else {
        return Err(LineFault::Bad(Why::NotJson));
    };
    if !value.is_object() {
        return Err(LineFault::Bad(Why::NotObject));
    }
    read_object(alloc, &value)
}

/// Reads lines one after another and reuses its buffers.
pub struct LineReader {
    scratch: Scratch,
    lists: ListBuffers,
}

impl Drop for LineReader {
    fn drop(self) {
        let LineReader {
            scratch: _,
            lists: _,
        } = self;
    }
}

impl LineReader {
    /// Returns a reader with empty buffers.
    pub fn new(alloc: Global) -> LineReader {
        LineReader {
            scratch: Scratch::new(alloc),
            lists: ListBuffers::new(alloc),
        }
    }

    /// Reads one line, without its line feed. Unknown members of its object may have any value.
    /// `Memory` is meant for a failed allocation. No clause says that it comes only then.
    pub fn read(&mut self, alloc: Global, bytes: &[u8]) -> Result<Line, LineFault>
        ensures ok { IfOk result (λ l. meaning_of bytes.now ≡ Ok l) }
        ensures bad { IfErr result (λ f. IsFaultOf f (meaning_of bytes.now)) }
    {
        if is_blank_line(bytes) {
            return Ok(Line::Blank);
        }
        if bytes.len() > MAX_LINE_BYTES {
            return Err(LineFault::Bad(Why::TooLong));
        }
        if let Some(entry) = entry_from_tokens(alloc, &mut self.scratch, &mut self.lists, bytes) {
            return Ok(Line::Entry(entry));
        }
        read_json_line(alloc, bytes)
    }
}

/// Reads one line with a new `LineReader`.
pub fn read_line(alloc: Global, bytes: &[u8]) -> Result<Line, LineFault>
    ensures ok { IfOk result (λ l. meaning_of bytes.now ≡ Ok l) }
    ensures bad { IfErr result (λ f. IsFaultOf f (meaning_of bytes.now)) }
{
    LineReader::new(alloc).read(alloc, bytes)
}
