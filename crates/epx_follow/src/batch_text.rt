//! The text that the end of a batch writes.
ghost use Rattle.std.specs.Prelude.{◌≡◌, ◌<◌, ◌≤◌, ◌^◌, ◌+◌, false, length, map, zip, IfOk};
ghost use Rattle.serde_json.specs.View.{view};
ghost use Rattle.serde_json.specs.Written.{has_float};
ghost use Rattle.epx_report.specs.ReportLines.{array_of};
ghost use Rattle.epx_follow.specs.BatchEnds.{came_data, batch_text};

use epx_report::{append_line, append_replies};
use epx_types::{Id, Memory, Reply};
use serde_json::{Value, json};
use std::alloc::{AllocError, Global};

/// The value of the first line of the text.
fn came_value(
    alloc: Global,
    came: usize,
    executed: usize,
    waiting: usize,
) -> Result<Value, AllocError>
    ensures data { IfOk result (λ v. view v ≡ array_of (came_data came executed waiting)) }
    ensures whole { IfOk result (λ v. has_float (view v) ≡ false) }
{
    let (came, executed, waiting) = (came as u64, executed as u64, waiting as u64);
    json!(in alloc; ["came", came, "executed", executed, "waiting", waiting])
}

/// The instances and the replies of a list of both.
pub(crate) fn parts_of(
    alloc: Global,
    executed: Vec<(Id, Reply)>,
) -> Result<(Vec<Id>, Vec<Reply>), Memory>
    ensures ids { IfOk result (λ v. v.0.items ≡ map (λ r. r.0) executed.items) }
    ensures replies { IfOk result (λ v. v.1.items ≡ map (λ r. r.1) executed.items) }
{
    let mut ids = Vec::with_capacity(alloc, executed.len())?;
    let mut replies = Vec::with_capacity(alloc, executed.len())?;
    for (id, reply) in executed {
        ids.push(id)?;
        replies.push(reply)?;
    }
    Ok((ids, replies))
}

/// How many instances of a batch are new. Before it `waited` instances waited, and after it
/// `waiting` do.
pub(crate) fn count_came(waited: usize, executed: usize, waiting: usize) -> usize
    requires few { executed + waiting < 2 ^ 64 }
    requires some { waited ≤ executed + waiting }
    ensures { result + waited ≡ executed + waiting }
{
    executed + waiting - waited
}

/// The text of a batch of which `came` instances are new, and after which `waiting` wait.
pub(crate) fn batch_text(
    alloc: Global,
    came: usize,
    waiting: usize,
    ids: &[Id],
    replies: &[Reply],
) -> Result<Vec<u8>, Memory>
    requires same { length ids.now ≡ length replies.now }
    ensures { IfOk result (λ text.
        text.items ≡ batch_text came waiting (zip ids.now replies.now)) }
{
    let mut text = Vec::new(alloc);
    append_line(
        alloc,
        &mut text,
        &came_value(alloc, came, ids.len(), waiting)?,
    )?;
    append_replies(alloc, &mut text, ids, replies)?;
    Ok(text)
}
