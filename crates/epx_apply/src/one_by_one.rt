//! Executes commands one after another in one thread.
ghost use Rattle.std.specs.Prelude.{◌≡◌, ◌++◌, IfOk, OnOk};
ghost use Rattle.epx_types.specs.Execution.{execute};
ghost use Rattle.epx_apply.specs.inner.Effects.{op_lists_of};

use epx_txn::{Store, apply_with_room, reply_len};
use epx_types::{Command, Memory, Reply};
use std::alloc::Global;

/// Commands run this many at a time. First a short loop counts the values that their replies will
/// have. It is the first to look at their operations, which often are in memory that another
/// worker wrote. The loop does little else, so the processor waits for many commands at once. In
/// a longer run the operations of the first commands would leave the nearest cache again.
const RUN_LEN: usize = 32;

/// Executes a few commands, and appends their replies. `rooms` is scratch memory for the lengths of
/// the replies. They are hints, which never change the result.
fn run_few(
    alloc: Global,
    store: &mut Store,
    commands: &[Command],
    rooms: &mut Vec<usize>,
    replies: &mut Vec<Reply>,
) -> Result<(), Memory>
    ensures store { OnOk result
        (store.new ≡ (execute (op_lists_of commands.now) store.old).final) }
    ensures replies { OnOk result (replies.new.items
        ≡ replies.old.items ++ (execute (op_lists_of commands.now) store.old).replies) }
{
    rooms.clear();
    for command in commands {
        rooms.push(reply_len(command.ops))?;
    }
    for (index, command) in commands.iter().enumerate() {
        let room = rooms.get(index).copied().unwrap_or(0);
        replies.push(apply_with_room(alloc, store, command.ops, room)?)?;
    }
    Ok(())
}

/// Executes all commands one after another. Returns the store after them, and their replies.
pub(crate) fn run_one_by_one(
    alloc: Global,
    store: Store,
    commands: &[Command],
) -> Result<(Store, Vec<Reply>), Memory>
    ensures store { IfOk result (λ v. v.0 ≡ (execute (op_lists_of commands.now) store).final) }
    ensures replies { IfOk result
        (λ v. v.1.items ≡ (execute (op_lists_of commands.now) store).replies) }
{
    let mut store = store;
    let mut replies = Vec::with_capacity(alloc, commands.len())?;
    let mut rooms = Vec::with_capacity(alloc, RUN_LEN)?;
    let mut start = 0;
    while start < commands.len() {
        let end = start + RUN_LEN.min(commands.len() - start);
        run_few(
            alloc,
            &mut store,
            &commands[start..end],
            &mut rooms,
            &mut replies,
        )?;
        start = end;
    }
    Ok((store, replies))
}
