//! Executes the instances of a list in its order, from the empty store.
ghost use Rattle.std.specs.Prelude.{◌≡◌, IfOk};
ghost use Rattle.epx_verify.specs.ListExecutions.{list_execution, replay_text};

use epx_committed::{Merged, commands_of};
use epx_report::{append_replies, append_store};
use epx_txn::{Store, apply};
use epx_types::{Id, Memory, Reply};
use std::alloc::Global;

/// Executes the instances, one after another. One that is not committed does nothing. Returns the
/// store after them, and their replies.
pub(crate) fn execute_list(
    alloc: Global,
    merged: &Merged,
    ids: &[Id],
) -> Result<(Store, Vec<Reply>), Memory>
    ensures store { IfOk result (λ v. v.0 ≡ (list_execution merged.now ids.now).final) }
    ensures replies { IfOk result
        (λ v. v.1.items ≡ (list_execution merged.now ids.now).replies) }
{
    let commands = commands_of(alloc, merged, ids)?;
    let mut store = Store::new(alloc);
    let mut replies = Vec::with_capacity(alloc, ids.len())?;
    for command in &commands {
        replies.push(apply(alloc, &mut store, command.ops)?)?;
    }
    Ok((store, replies))
}

/// Executes the instances of a list in its order, from the empty store. Returns their reply lines,
/// and then the lines of the store. Takes O(n log n) time for n operations, besides looking up the
/// instances.
pub fn replay_text(alloc: Global, merged: &Merged, ids: &[Id]) -> Result<Vec<u8>, Memory>
    ensures { IfOk result (λ text. text.items ≡ replay_text merged.now ids.now) }
{
    let (store, replies) = execute_list(alloc, merged, ids)?;
    let mut text = Vec::new(alloc);
    append_replies(alloc, &mut text, ids, &replies)?;
    append_store(alloc, &mut text, &store)?;
    Ok(text)
}
