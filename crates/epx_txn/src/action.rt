//! What an operation does, once the value that it uses is read.
ghost use Rattle.std.specs.Prelude.{◌≡◌, if◌then◌else◌, option_map};
ghost use Rattle.epx_types.specs.Contents.{Contents};
ghost use Rattle.epx_txn.specs.inner.Actions.{IsAction, key_used, value_used};

use epx_types::{Key, Op};

/// What an operation does: adds a value to the reply, writes, goes on, or aborts.
#[derive(Clone, Copy, Debug)]
pub(crate) enum Action<'a> {
    Read(Option<i64>),
    Write(&'a Key, Option<i64>),
    Pass,
    Abort,
}

/// Returns the key whose value the operation uses, or None if it uses no value.
pub(crate) fn key_used(op: &Op) -> Option<&Key>
    ensures { option_map (λ key. key.now) result ≡ key_used op.now }
{
    match op {
        Op::Get { key }
        | Op::Add { key, .. }
        | Op::Is { key, .. }
        | Op::Floor { key, .. }
        | Op::Copy { source: key, .. } => Some(key),
        Op::Put { .. } | Op::Del { .. } => None,
    }
}

/// Returns what an operation does that only tests a value: it goes on if the test holds.
fn pass_or_abort<'a>(holds: bool) -> Action<'a>
    ensures { result ≡ (if holds then Action.Pass else Action.Abort) }
{
    if holds { Action::Pass } else { Action::Abort }
}

/// Returns what the operation does where `found` is the value that it uses.
pub(crate) fn action_of<'a>(op: &'a Op, found: Option<i64>) -> Action<'a>
    ensures { (c : Contents) → found ≡ value_used op.now c → IsAction result op.now c }
{
    match op {
        Op::Get { .. } => Action::Read(found),
        Op::Put { key, value } => Action::Write(key, Some(*value)),
        Op::Del { key } => Action::Write(key, None),
        Op::Add { key, amount } => match found.unwrap_or(0).checked_add(*amount) {
            Some(sum) => Action::Write(key, Some(sum)),
            None => Action::Abort,
        },
        Op::Is { value, .. } => pass_or_abort(found == *value),
        Op::Floor { least, .. } => pass_or_abort(found.unwrap_or(0) >= *least),
        Op::Copy { target, .. } => Action::Write(target, found),
    }
}
