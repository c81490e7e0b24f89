//! Executes commands one by one, and notes what they do with a key.
ghost use Rattle.std.specs.Prelude.{◌≡◌, ◌++◌, map, IfOk, OnOk};
ghost use Rattle.epx_types.specs.Commands.{command_on};
ghost use Rattle.epx_types.specs.Execution.{execute};
ghost use Rattle.epx_trace.specs.Traces.{touches_of, trace_of};

use crate::command_keys::{touches, writes};
use crate::touch::Touch;
use epx_txn::{Store, apply};
use epx_types::{Command, Key, Memory};
use std::alloc::Global;

/// Executes a command on a store, and notes what it does with the key, if it touches the key.
fn execute_one(
    alloc: Global,
    store: &mut Store,
    command: Command,
    key: &Key,
    noted: &mut Vec<Touch>,
) -> Result<(), Memory>
    ensures after { OnOk result (store.new ≡ (command_on command.entry.ops.now store.old).after) }
    ensures noted { OnOk result (noted.new.items ≡ noted.old.items
        ++ touches_of (command.entry.id, command.entry.ops.now) store.old key.now) }
{
    let Command { id, ops } = command;
    if !touches(ops, key) {
        apply(alloc, store, ops)?;
        return Ok(());
    }
    let before = store.get(key);
    let reply = apply(alloc, store, ops)?;
    if writes(&reply, ops, key) {
        let after = store.get(key);
        noted.push(Touch::Write { id, before, after })?;
    } else {
        noted.push(Touch::Read { id, value: before })?;
    }
    Ok(())
}

/// Executes commands on a store one by one, and returns what they do with a key, in their order.
/// After `Memory` the store may have the writes of some of the commands.
///
/// The time is linear in the operations, apart from the store, which takes logarithmic time for
/// each key that an operation uses.
pub fn trace_of(
    alloc: Global,
    store: &mut Store,
    commands: &[Command],
    key: &Key,
) -> Result<Vec<Touch>, Memory>
    ensures trace { IfOk result (λ touches. touches.items
        ≡ trace_of (map (λ c. (c.id, c.ops.now)) commands.now) store.old key.now) }
    ensures after { OnOk result (store.new
        ≡ (execute (map (λ c. c.ops.now) commands.now) store.old).final) }
{
    let mut noted = Vec::new(alloc);
    for command in commands {
        execute_one(alloc, store, *command, key, &mut noted)?;
    }
    Ok(noted)
}
