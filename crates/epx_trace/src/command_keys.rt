//! Tests whether commands touch and write a key.
ghost use Rattle.std.specs.Prelude.{◌≡◌, map};
ghost use Rattle.epx_types.specs.CommandKeys.{touched_by, written_by, touched_keys, written_keys};
ghost use Rattle.epx_types.specs.Contents.{Contents};
ghost use Rattle.epx_types.specs.Writes.{writes_by};
ghost use Rattle.epx_trace.specs.Traces.{has_key};

use epx_types::{Key, Op, Reply};

/// Whether an operation has the key in its text.
fn op_touches(op: &Op, key: &Key) -> bool
    ensures { result ≡ has_key (touched_by op.now) key.now }
{
    let (first, second) = op.accesses();
    if key == first.key {
        return true;
    }
    match second {
        Some(access) => key == access.key,
        None => false,
    }
}

/// Whether an operation writes the key, if its command does not abort.
fn op_writes(op: &Op, key: &Key) -> bool
    ensures { result ≡ has_key (written_by op.now) key.now }
{
    let (first, second) = op.accesses();
    if first.writes && key == first.key {
        return true;
    }
    match second {
        Some(access) => access.writes && key == access.key,
        None => false,
    }
}

/// Whether the text of a command has the key.
pub(crate) fn touches(ops: &[Op], key: &Key) -> bool
    ensures { result ≡ has_key (touched_keys ops.now) key.now }
{
    for op in ops {
        if op_touches(op, key) {
            return true;
        }
    }
    false
}

/// Whether an operation of a command writes the key.
fn has_write(ops: &[Op], key: &Key) -> bool
    ensures { result ≡ has_key (written_keys ops.now) key.now }
{
    for op in ops {
        if op_writes(op, key) {
            return true;
        }
    }
    false
}

/// Whether a command with this reply writes the key. An aborted command writes nothing.
pub(crate) fn writes(reply: &Reply, ops: &[Op], key: &Key) -> bool
    ensures { (after : Contents)
        → result ≡ has_key (map (λ w. w.0) (writes_by reply.now ops.now after)) key.now }
{
    match reply {
        Reply::Values(_) => has_write(ops, key),
        Reply::Abort(_) => false,
    }
}
