//! Committed instances.
ghost use Rattle.std.specs.Prelude.{◌≡◌, ◌↔◌, ℕ, IfOk, IfSome, IsSome, IsTrue};
ghost use Rattle.epx_types.specs.Ids.{IsRising};
ghost use Rattle.epx_types.specs.Instances.{IsWellFormed};

use crate::id::Id;
use crate::memory::Memory;
use crate::op::Op;
use crate::small_list::SmallList;
use std::alloc::Global;
use std::marker::Model;

/// An instance has at most this many dependencies.
pub const MAX_DEPS: usize = 256;

/// A command has at most this many operations.
pub const MAX_OPS: usize = 64;

/// A committed instance: its Id, its sequence number, its dependencies and the operations of its
/// command.
#[derive(Debug)]
pub struct Entry {
    id: Id,
    seq: u64,
    deps: SmallList<Id>,
    ops: SmallList<Op>,
}

impl Drop for Entry {
    fn drop(self) {
        let Entry {
            id: _,
            seq: _,
            deps: _,
            ops: _,
        } = self;
    }
}

impl Model for Entry {
    ghost use Rattle.epx_types.specs.Instances.{Instance, IsWellFormed};
    ghost use Rattle.epx_types.specs.SmallLists.{items_of};

    ghost Value = { Instance };

    ghost view = { λ e. record {
      id = e.id;
      seq = e.seq;
      deps = items_of e.deps;
      ops = items_of e.ops;
    } };

    ghost invariant = { λ e. IsWellFormed (record {
      id = e.id;
      seq = e.seq;
      deps = items_of e.deps;
      ops = items_of e.ops;
    }) };
}

impl Entry {
    ghost use Rattle.epx_types.specs.Instances.{Instance, IsWellFormed};
    ghost use Rattle.epx_types.specs.SmallLists.{items_of};

    /// None if the dependencies are not strictly rising, are more than 256 or name the instance
    /// itself, or if there are more than 64 operations.
    pub fn new(id: Id, seq: u64, deps: Vec<Id>, ops: Vec<Op>) -> Option<Entry>
        ensures fits { IsSome result
            ↔ IsWellFormed (record { id = id; seq = seq; deps = deps.items; ops = ops.items }) }
        ensures entry { IfSome result
            (λ e. e ≡ record { id = id; seq = seq; deps = deps.items; ops = ops.items }) }
    {
        Entry::from_lists(id, seq, SmallList::from_vec(deps), SmallList::from_vec(ops))
    }

    /// An entry of lists whose lone items need no allocation. None if the dependencies do not
    /// strictly rise or name the instance itself, or if a list is too long.
    pub fn from_lists(id: Id, seq: u64, deps: SmallList<Id>, ops: SmallList<Op>) -> Option<Entry>
        ensures fits { IsSome result ↔ IsWellFormed
            (record { id = id; seq = seq; deps = items_of deps; ops = items_of ops }) }
        ensures entry { IfSome result
            (λ e. e ≡ record { id = id; seq = seq; deps = items_of deps; ops = items_of ops }) }
    {
        if is_well_formed(id, deps.as_slice(), ops.as_slice()) {
            Some(Entry { id, seq, deps, ops })
        } else {
            None
        }
    }

    /// An equal entry with lists of its own.
    pub fn copy(&self, alloc: Global) -> Result<Entry, Memory>
        ensures { IfOk result (λ copy. copy ≡ self.now) }
    {
        let deps = copy_ids(alloc, self.deps())?;
        let ops = copy_ops(alloc, self.ops())?;
        Ok(Entry::new(self.id, self.seq, deps, ops).unwrap())
    }

    /// The Id of the instance.
    pub fn id(&self) -> Id
        ensures { result ≡ self.now.id }
    {
        self.id
    }

    /// The sequence number with which the instance was committed.
    pub fn seq(&self) -> u64
        ensures { result ≡ self.now.seq }
    {
        self.seq
    }

    /// The Ids of the dependencies, in rising order.
    pub fn deps(&self) -> &[Id]
        ensures deps { result.now ≡ self.now.deps }
        ensures fits { IsWellFormed self.now }
    {
        self.deps.as_slice()
    }

    /// The operations of the command, in order. A no-op has none.
    pub fn ops(&self) -> &[Op]
        ensures ops { result.now ≡ self.now.ops }
        ensures fits { IsWellFormed self.now }
    {
        self.ops.as_slice()
    }
}

/// The Ids in a vector of their own.
fn copy_ids(alloc: Global, ids: &[Id]) -> Result<Vec<Id>, Memory>
    ensures { IfOk result (λ copies. copies.items ≡ ids.now) }
{
    let mut copies = Vec::with_capacity(alloc, ids.len())?;
    copies.extend_from_slice(ids)?;
    Ok(copies)
}

/// Equal operations, with keys of their own.
fn copy_ops(alloc: Global, ops: &[Op]) -> Result<Vec<Op>, Memory>
    ensures { IfOk result (λ copies. copies.items ≡ ops.now) }
{
    let mut copies = Vec::with_capacity(alloc, ops.len())?;
    for op in ops {
        copies.push(op.copy()?)?;
    }
    Ok(copies)
}

/// Whether an instance can have these dependencies and these operations.
fn is_well_formed(id: Id, deps: &[Id], ops: &[Op]) -> bool
    ensures { (seq : ℕ) → IsTrue result ↔ IsWellFormed
        (record { id = id; seq = seq; deps = deps.now; ops = ops.now }) }
{
    let few = deps.len() <= MAX_DEPS && ops.len() <= MAX_OPS;
    few && is_rising(deps) && !deps.contains(&id)
}

/// Whether each Id is less than the next.
pub fn is_rising(ids: &[Id]) -> bool
    ensures { IsTrue result ↔ IsRising ids.now }
{
    for i in 1..ids.len() {
        if ids[i - 1] >= ids[i] {
            return false;
        }
    }
    true
}
