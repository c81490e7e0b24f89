//! Reads a list of instances.
ghost use Rattle.std.specs.Prelude.{◌≡◌, IfOk, IfErr};
ghost use Rattle.epx_report.specs.Lists.{IsList, IsListFault, listed_id_of};
ghost use Rattle.epx_report.specs.inner.ListReadings.{with_line};
ghost use Rattle.epx_report.specs.inner.Progress.{some_if};

use crate::base::BaseFault;
use epx_lines::{MAX_LINE_BYTES, cut_line, is_blank_line, read_id, read_json};
use epx_types::{Id, Memory};
use std::alloc::Global;

/// Reads the instance that a line names, without its line feed. None if it names no instance.
#[tactic(auto, unfolding(crate::specs::Lists::listed_id_of))]
fn read_listed_id(alloc: Global, bytes: &[u8]) -> Result<Option<Id>, Memory>
    ensures { IfOk result (λ id. id ≡ listed_id_of bytes.now) }
{
    if bytes.len() > MAX_LINE_BYTES {
        return Ok(None);
    }
    let Some(value) = read_json(alloc, bytes)? else {
        return Ok(None);
    };
    Ok(read_id(&value))
}

/// Adds the instance of one more line to the list. False if the line is not blank and names no
/// instance.
fn take_line(alloc: Global, ids: &mut Vec<Id>, bytes: &[u8]) -> Result<bool, Memory>
    ensures { IfOk result (λ named. with_line ids.old.items bytes.now
        ≡ some_if named ids.new.items) }
{
    if is_blank_line(bytes) {
        return Ok(true);
    }
    let Some(id) = read_listed_id(alloc, bytes)? else {
        return Ok(false);
    };
    ids.push(id)?;
    Ok(true)
}

/// Reads a list of instances, one `[r,i]` on each line, in time linear in the bytes. Blank lines
/// are skipped but counted. Returns `Bad` with the first line that is neither blank nor an
/// instance, counted from 1, and `Memory` only if an allocation fails.
pub fn read_list(alloc: Global, bytes: &[u8]) -> Result<Vec<Id>, BaseFault>
    ensures list { IfOk result (λ ids. IsList bytes.now ids.items) }
    ensures bad { IfErr result (λ f. IsListFault bytes.now f) }
{
    let mut ids = Vec::new(alloc);
    let mut rest = bytes;
    let mut line = 1;
    while !rest.is_empty() {
        let (next, more) = cut_line(rest);
        if !take_line(alloc, &mut ids, next)? {
            return Err(BaseFault::Bad { line });
        }
        rest = more;
        line += 1;
    }
    Ok(ids)
}
