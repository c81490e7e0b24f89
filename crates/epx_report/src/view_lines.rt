//! Writes the lines of an execution order, of conflict levels, of an audit and of the verdict on a
//! list, token by token: JSON (RFC 8259) in compact form, each ended by a line feed.
ghost use Rattle.std.specs.Prelude.{◌≡◌, ◌++◌, OnOk, IfOk};
ghost use Rattle.epx_report.specs.ReportLines.{line_of};
ghost use Rattle.epx_report.specs.ViewLines.{order_data, level_line, name_line, uncovered_line};
ghost use Rattle.epx_report.specs.ViewLines.{position_line, missing_line};

use crate::report_lines::{begin_line, end_line, write_id_parts};
use epx_types::Id;
use std::alloc::{AllocError, Global};

/// Appends the line of an instance of an execution order. The line is written into the buffer of
/// the previous line.
pub fn append_ranked(
    alloc: Global,
    text: &mut Vec<u8>,
    line: &mut Vec<u8>,
    id: Id,
    depth: usize,
    leader: Id,
) -> Result<(), AllocError>
    ensures { OnOk result (text.new.items ≡ text.old.items
        ++ line_of (order_data id depth leader)) }
{
    let mut out = begin_line(alloc, line, "order")?;
    write_id_parts(&mut out, id)?;
    out.u64(depth as u64)?;
    write_id_parts(&mut out, leader)?;
    end_line(text, line, out)
}

/// Appends the line of an instance and the conflict level of its command. The line is written into
/// the buffer of the previous line.
pub fn append_level(
    alloc: Global,
    text: &mut Vec<u8>,
    line: &mut Vec<u8>,
    id: Id,
    level: usize,
) -> Result<(), AllocError>
    ensures { OnOk result (text.new.items ≡ text.old.items ++ level_line (id, level)) }
{
    let mut out = begin_line(alloc, line, "level")?;
    write_id_parts(&mut out, id)?;
    out.u64(level as u64)?;
    end_line(text, line, out)
}

/// The line that is a name alone: `covered` or `lawful`.
pub fn name_line(alloc: Global, name: &str) -> Result<Vec<u8>, AllocError>
    ensures { IfOk result (λ text. text.items ≡ name_line name.now) }
{
    let mut text = Vec::new(alloc);
    let line = &mut Vec::new(alloc);
    let out = begin_line(alloc, line, name)?;
    end_line(&mut text, line, out)?;
    Ok(text)
}

/// The line of two instances that conflict and are not related.
pub fn uncovered_line(alloc: Global, pair: (Id, Id)) -> Result<Vec<u8>, AllocError>
    ensures { IfOk result (λ text. text.items ≡ uncovered_line pair.0 pair.1) }
{
    let mut text = Vec::new(alloc);
    let line = &mut Vec::new(alloc);
    let mut out = begin_line(alloc, line, "uncovered")?;
    write_id_parts(&mut out, pair.0)?;
    write_id_parts(&mut out, pair.1)?;
    end_line(&mut text, line, out)?;
    Ok(text)
}

/// The line of a fault of a list: its name, and the position that has it, counted from 0.
pub fn position_line(alloc: Global, name: &str, position: usize) -> Result<Vec<u8>, AllocError>
    ensures { IfOk result (λ text. text.items ≡ position_line name.now position) }
{
    let mut text = Vec::new(alloc);
    let line = &mut Vec::new(alloc);
    let mut out = begin_line(alloc, line, name)?;
    out.u64(position as u64)?;
    end_line(&mut text, line, out)?;
    Ok(text)
}

/// The line of a ready instance that a list lacks.
pub fn missing_line(alloc: Global, id: Id) -> Result<Vec<u8>, AllocError>
    ensures { IfOk result (λ text. text.items ≡ missing_line id) }
{
    let mut text = Vec::new(alloc);
    let line = &mut Vec::new(alloc);
    let mut out = begin_line(alloc, line, "missing")?;
    write_id_parts(&mut out, id)?;
    end_line(&mut text, line, out)?;
    Ok(text)
}
