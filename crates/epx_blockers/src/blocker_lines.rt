//! Writes the lines about missing instances: JSON (RFC 8259) in compact form, each ended by a line
//! feed.
ghost use Rattle.std.specs.Prelude.{◌≡◌, ◌++◌, false, flat_map, IfOk, OnOk};
ghost use Rattle.serde_json.specs.View.{view};
ghost use Rattle.serde_json.specs.Written.{has_float};
ghost use Rattle.epx_report.specs.ReportLines.{array_of};
ghost use Rattle.epx_blockers.specs.BlockerLines.{blocks_data, blocks_line, several_line};

use crate::blocker::Blocker;
use epx_report::append_line;
use epx_types::{Id, Memory};
use serde_json::{Value, json};
use std::alloc::{AllocError, Global};

/// The array of a missing instance: `["blocks",r,i,alone,named]`.
fn blocks_value(alloc: Global, blocker: Blocker) -> Result<Value, AllocError>
    ensures data { IfOk result (λ v. view v ≡ array_of (blocks_data blocker)) }
    ensures whole { IfOk result (λ v. has_float (view v) ≡ false) }
{
    let Id { replica, number } = blocker.id;
    let (alone, named) = (blocker.alone as u64, blocker.named as u64);
    json!(in alloc; ["blocks", replica, number, alone, named])
}

/// Appends a line for each of the blockers.
pub(crate) fn append_blockers(
    alloc: Global,
    text: &mut Vec<u8>,
    blockers: &[Blocker],
) -> Result<(), Memory>
    ensures { OnOk result (text.new.items
        ≡ text.old.items ++ flat_map blocks_line blockers.now) }
{
    for blocker in blockers {
        append_line(alloc, text, &blocks_value(alloc, *blocker)?)?;
    }
    Ok(())
}

/// Appends the line with the number of instances that several missing ones block.
pub(crate) fn append_several(
    alloc: Global,
    text: &mut Vec<u8>,
    several: usize,
) -> Result<(), Memory>
    ensures { OnOk result (text.new.items ≡ text.old.items ++ several_line several) }
{
    let several = several as u64;
    append_line(alloc, text, &json!(in alloc; ["several", several])?)
}
