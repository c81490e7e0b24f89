//! Runs a command of one operation, which needs no draft.
ghost use Rattle.std.specs.Prelude.{◌≡◌, ◌∷◌, [], IfOk, OnOk};
ghost use Rattle.epx_types.specs.Commands.{command_on};
ghost use Rattle.epx_txn.specs.inner.Actions.{value_used};

use crate::action::{Action, action_of, key_used};
use epx_store::Store;
use epx_types::{Memory, Op, Reply, Values};
use std::alloc::Global;

/// Returns the value in the store that an operation uses.
fn value_before(store: &Store, op: &Op) -> Option<i64>
    ensures { result ≡ value_used op.now store.now }
{
    match key_used(op) {
        Some(key) => store.get(key),
        None => None,
    }
}

/// Runs a command of one operation, and returns its reply, whose values get room for `room` of them
/// at the start. After `Memory` the store may have the write of the operation.
pub(crate) fn apply_lone(
    alloc: Global,
    store: &mut Store,
    op: &Op,
    room: usize,
) -> Result<Reply, Memory>
    ensures reply { IfOk result (λ r. r ≡ (command_on (op.now ∷ []) store.old).reply) }
    ensures after { OnOk result (store.new ≡ (command_on (op.now ∷ []) store.old).after) }
{
    let mut got = Vec::with_capacity(alloc, room)?;
    match action_of(op, value_before(store, op)) {
        Action::Read(value) => got.push(value)?,
        Action::Write(key, value) => store.write(key, value)?,
        Action::Pass => {}
        Action::Abort => return Ok(Reply::Abort(0)),
    }
    Ok(Reply::Values(Values::new(got)))
}
