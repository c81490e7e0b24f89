//! Writes the lines of a trace: JSON (RFC 8259) in compact form, each ended by a line feed.
ghost use Rattle.std.specs.Prelude.{◌≡◌, ◌++◌, false, IfOk, OnOk};
ghost use Rattle.serde_json.specs.View.{view};
ghost use Rattle.serde_json.specs.Written.{has_float};
ghost use Rattle.epx_lines.specs.Text.{data_of_value};
ghost use Rattle.epx_report.specs.ReportLines.{array_of};
ghost use Rattle.epx_trace.specs.TraceLines.{read_data, write_data, touch_line};

use crate::touch::Touch;
use epx_report::append_line;
use epx_types::{Id, Memory};
use serde_json::{Value, json};
use std::alloc::{AllocError, Global};

/// The array of a write: `["write",r,i,before,after]`, with null where the key is absent.
fn write_value(
    alloc: Global,
    id: Id,
    before: Option<i64>,
    after: Option<i64>,
) -> Result<Value, AllocError>
    ensures data { IfOk result (λ v. view v ≡ array_of (write_data id before after)) }
    ensures whole { IfOk result (λ v. has_float (view v) ≡ false) }
{
    let Id { replica, number } = id;
    json!(in alloc; ["write", replica, number, before, after])
}

/// The array of a read: `["read",r,i,value]`, with null where the key is absent.
fn read_value(alloc: Global, id: Id, stored: Option<i64>) -> Result<Value, AllocError>
    ensures data { IfOk result (λ v. view v ≡ array_of (read_data id stored)) }
    ensures whole { IfOk result (λ v. has_float (view v) ≡ false) }
{
    let Id { replica, number } = id;
    json!(in alloc; ["read", replica, number, stored])
}

/// Appends the line of a write, or of a read if reads are asked for.
pub(crate) fn append_touch(
    alloc: Global,
    text: &mut Vec<u8>,
    reads: bool,
    touch: Touch,
) -> Result<(), Memory>
    ensures { OnOk result (text.new.items ≡ text.old.items ++ touch_line reads touch) }
{
    match touch {
        Touch::Write { id, before, after } => {
            append_line(alloc, text, &write_value(alloc, id, before, after)?)
        }
        Touch::Read { id, value } if reads => {
            append_line(alloc, text, &read_value(alloc, id, value)?)
        }
        Touch::Read { .. } => Ok(()),
    }
}
