//! The operations of a command.
ghost use Rattle.std.specs.Prelude.{◌≡◌, IfOk, true, false};
ghost use Rattle.epx_types.specs.between.Accesses.{access_of, accesses_in};
ghost use Rattle.epx_types.specs.CommandKeys.{accesses_of};

use crate::key::Key;
use crate::memory::Memory;

/// One operation on the store. If an operation aborts, the whole command is undone.
#[derive(Debug, PartialEq, Eq, Hash)]
pub enum Op {
    /// Adds the key's value to the reply, or None if the key is absent.
    Get { key: Key },
    /// Sets the key to the value.
    Put { key: Key, value: i64 },
    /// Removes the key.
    Del { key: Key },
    /// Adds the amount to the key's value; an absent key counts as 0. Aborts if the sum does not
    /// fit in 64 bits.
    Add { key: Key, amount: i64 },
    /// Aborts if the key does not have the value. None means absent.
    Is { key: Key, value: Option<i64> },
    /// Aborts if the key's value is less than `least`; an absent key counts as 0.
    Floor { key: Key, least: i64 },
    /// Sets the target to the source's value, or removes it if the source is absent. Both may be
    /// the same key.
    Copy { source: Key, target: Key },
}

impl Drop for Op {
    fn drop(self) {
        match self {
            Op::Get { key: _ } => {}
            Op::Put { key: _, value: _ } => {}
            Op::Del { key: _ } => {}
            Op::Add { key: _, amount: _ } => {}
            Op::Is { key: _, value: _ } => {}
            Op::Floor { key: _, least: _ } => {}
            Op::Copy {
                source: _,
                target: _,
            } => {}
        }
    }
}

/// A key that an operation touches.
#[derive(Clone, Copy, Debug)]
pub struct Access<'a> {
    pub key: &'a Key,
    /// Whether the operation writes the key.
    pub writes: bool,
}

/// The access of an operation that reads the key and does not write it.
fn read(key: &Key) -> Access<'_>
    ensures { access_of result ≡ (key.now, false) }
{
    Access { key, writes: false }
}

/// The access of an operation that writes the key.
fn write(key: &Key) -> Access<'_>
    ensures { access_of result ≡ (key.now, true) }
{
    Access { key, writes: true }
}

/// The copy of a key to another one, with its own target.
fn copy_to(source: Key, target: &Key) -> Result<Op, Memory>
    ensures { IfOk result (λ copy. copy ≡ Op.Copy source target.now) }
{
    Ok(Op::Copy {
        source,
        target: target.copy()?,
    })
}

impl Op {
    /// An equal operation with keys of its own.
    pub fn copy(&self) -> Result<Op, Memory>
        ensures { IfOk result (λ copy. copy ≡ self.now) }
    {
        let copy = match self {
            Op::Get { key } => Op::Get { key: key.copy()? },
            Op::Put { key, value } => Op::Put {
                key: key.copy()?,
                value: *value,
            },
            Op::Del { key } => Op::Del { key: key.copy()? },
            Op::Add { key, amount } => Op::Add {
                key: key.copy()?,
                amount: *amount,
            },
            Op::Is { key, value } => Op::Is {
                key: key.copy()?,
                value: *value,
            },
            Op::Floor { key, least } => Op::Floor {
                key: key.copy()?,
                least: *least,
            },
            Op::Copy { source, target } => copy_to(source.copy()?, target)?,
        };
        Ok(copy)
    }

    /// The keys that the operation touches: one, or two for a copy, the source first.
    pub fn accesses(&self) -> (Access<'_>, Option<Access<'_>>)
        ensures { accesses_of self.now ≡ accesses_in result.0 result.1 }
    {
        match self {
            Op::Get { key } | Op::Is { key, .. } | Op::Floor { key, .. } => (read(key), None),
            Op::Put { key, .. } | Op::Del { key } | Op::Add { key, .. } => (write(key), None),
            Op::Copy { source, target } => (read(source), Some(write(target))),
        }
    }
}
