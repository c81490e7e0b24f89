//! Runs one command over a store.
ghost use Rattle.std.specs.Prelude.{◌≡◌, IfOk, OnOk};
ghost use Rattle.std.specs.FinMap as contents;
ghost use Rattle.epx_types.specs.Commands.{command_on};
ghost use Rattle.epx_types.specs.Writes.{writes_of};
ghost use Rattle.epx_txn.specs.between.ReplyLengths.{reply_length};

use crate::draft::{Draft, Step, operate};
use crate::lone_op::apply_lone;
use epx_store::{Effect, Store, Writes};
use epx_types::{Memory, Op, Reply, Values};
use std::alloc::Global;

/// Returns how many values the reply to a command has, unless the command aborts: one for each
/// `get`.
pub fn reply_len(ops: &[Op]) -> usize
    ensures { result ≡ reply_length ops.now }
{
    let mut values = 0;
    for op in ops {
        if matches!(op, Op::Get { .. }) {
            values += 1;
        }
    }
    values
}

/// Runs a command over a store that it only reads. Returns its reply and its writes. The values
/// read get room for `room` of them at the start.
fn operate_all<'a>(
    alloc: Global,
    store: &Store,
    ops: &'a [Op],
    room: usize,
) -> Result<(Reply, Draft<'a>), Memory>
    ensures reply { IfOk result (λ r. r.0 ≡ (command_on ops.now store.now).reply) }
    ensures writes { IfOk result (λ r. contents.entries r.1 ≡ writes_of ops.now store.now) }
{
    let mut draft = Draft::new(alloc);
    let mut got = Vec::with_capacity(alloc, room)?;
    for (index, op) in ops.iter().enumerate() {
        match operate(&mut draft, store, op)? {
            Step::Read(value) => got.push(value)?,
            Step::Done => {}
            Step::Abort => {
                let nothing = Draft::new(alloc);
                return Ok((Reply::Abort(index as u64), nothing));
            }
        }
    }
    Ok((Reply::Values(Values::new(got)), draft))
}

/// Runs a command over a store without changing the store. Returns its reply and its writes.
pub fn eval(alloc: Global, store: &Store, ops: &[Op]) -> Result<Effect, Memory>
    ensures reply { IfOk result (λ e. e.reply ≡ (command_on ops.now store.now).reply) }
    ensures writes { IfOk result (λ e. e.writes ≡ writes_of ops.now store.now) }
{
    let (reply, draft) = operate_all(alloc, store, ops, reply_len(ops))?;
    let writes = Writes::new(draft.into_pairs()?);
    Ok(Effect { reply, writes })
}

/// Runs a command and puts its writes into the store. Returns its reply, whose values get room for
/// `room` of them at the start. The room never changes the result: `reply_len` is the best one.
/// After `Memory` the store may have some of the writes.
pub fn apply_with_room(
    alloc: Global,
    store: &mut Store,
    ops: &[Op],
    room: usize,
) -> Result<Reply, Memory>
    ensures reply { IfOk result (λ r. r ≡ (command_on ops.now store.old).reply) }
    ensures after { OnOk result (store.new ≡ (command_on ops.now store.old).after) }
{
    if let [op] = ops {
        return apply_lone(alloc, store, op, room);
    }
    let (reply, draft) = operate_all(alloc, store, ops, room)?;
    draft.put_into(store)?;
    Ok(reply)
}

/// Runs a command and puts its writes into the store. Returns its reply. After `Memory` the store
/// may have some of the writes.
pub fn apply(alloc: Global, store: &mut Store, ops: &[Op]) -> Result<Reply, Memory>
    ensures reply { IfOk result (λ r. r ≡ (command_on ops.now store.old).reply) }
    ensures after { OnOk result (store.new ≡ (command_on ops.now store.old).after) }
{
    apply_with_room(alloc, store, ops, reply_len(ops))
}
