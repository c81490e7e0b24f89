//! Writes the lines of the answer about a history: JSON (RFC 8259) in compact form, each ended by a
//! line feed.
ghost use Rattle.std.specs.Prelude.{◌≡◌, ◌++◌, OnOk};
ghost use Rattle.epx_linear.specs.LinearTexts.{other_reply_line, lost_line, lateness};

use epx_report::append_line;
use epx_types::{Id, Memory};
use serde_json::json;
use std::alloc::Global;

/// Appends the line of an instance whose call has another answer than the reply.
pub(crate) fn append_other_reply(alloc: Global, text: &mut Vec<u8>, id: Id) -> Result<(), Memory>
    ensures { OnOk result (text.new.items ≡ text.old.items ++ other_reply_line id) }
{
    let Id { replica, number } = id;
    append_line(alloc, text, &json!(in alloc; ["reply", replica, number])?)
}

/// Appends the line of an instance whose call is lost.
pub(crate) fn append_lost(alloc: Global, text: &mut Vec<u8>, id: Id) -> Result<(), Memory>
    ensures { OnOk result (text.new.items ≡ text.old.items ++ lost_line id) }
{
    let Id { replica, number } = id;
    append_line(alloc, text, &json!(in alloc; ["lost", replica, number])?)
}

/// Appends the line of an instance and of what it is late for, nothing if it is not late.
pub(crate) fn append_lateness(
    alloc: Global,
    text: &mut Vec<u8>,
    id: Id,
    late: Option<Id>,
) -> Result<(), Memory>
    ensures { OnOk result (text.new.items ≡ text.old.items ++ lateness id late) }
{
    let Some(other) = late else {
        return Ok(());
    };
    let (r, i) = (id.replica, id.number);
    let (other_r, other_i) = (other.replica, other.number);
    append_line(
        alloc,
        text,
        &json!(in alloc; ["late", r, i, other_r, other_i])?,
    )
}
