//! Runs the operations of a command over a borrowed store, and keeps its writes in a draft.
ghost use Rattle.std.specs.Prelude.{◌≡◌, IfOk, OnOk};
ghost use Rattle.std.specs.FinMap as contents;
ghost use Rattle.epx_types.specs.Writes.{apply_writes};
ghost use Rattle.epx_txn.specs.inner.Actions.{value_used};
ghost use Rattle.epx_txn.specs.inner.Drafts.{contents_through, IsStepOf};

use crate::action::{Action, action_of, key_used};
use epx_store::{FewWrites, KeyMap, Store};
use epx_types::{Key, Memory, Op};
use std::alloc::Global;
use std::marker::Model;

/// The writes of a command so far: under each written key a value, or None for absence. Contracts
/// see it as one finite map.
#[derive(Drop)]
pub(crate) struct Draft<'a> {
    alloc: Global,
    few: FewWrites<'a>,
    /// All writes, once there are too many for `few`. From then on `few` is not used.
    many: Option<KeyMap<Option<i64>>>,
}

impl<'a> Model for Draft<'a> {
    ghost use Rattle.std.specs.Prelude.{ℤ, Option, unwrap_or};
    ghost use Rattle.std.specs.FinMap as contents;
    ghost use Rattle.std.specs.Coded.{coded_list, coded_ℕ, coded_ℤ, coded_option};
    ghost use Rattle.epx_types.specs.Keys.{key_cmp};

    ghost Value = { contents.FinMap key_cmp (Option ℤ) };

    ghost coded = { contents.code (coded_list coded_ℕ) (coded_option coded_ℤ) };

    ghost view = { λ d. unwrap_or d.many d.few };
}

impl<'a> Draft<'a> {
    /// Returns the draft of a command that has written nothing. Allocates nothing.
    pub(crate) fn new(alloc: Global) -> Draft<'a>
        ensures { result ≡ contents.empty }
    {
        Draft {
            alloc,
            few: FewWrites::new(alloc),
            many: None,
        }
    }

    /// Returns what the command has written under the key: `Some(None)` if it removed the key,
    /// None if it has not written it.
    fn get(&self, key: &Key) -> Option<Option<i64>>
        ensures { result ≡ contents.get self.now key.now }
    {
        match &self.many {
            Some(tree) => tree.get(key),
            None => self.few.get(key),
        }
    }

    /// Writes under a key; None removes it. Moves all writes to a tree once `few` has no room.
    fn set(&mut self, key: &'a Key, value: Option<i64>) -> Result<(), Memory>
        ensures { OnOk result (self.new ≡ contents.insert self.old key.now value) }
    {
        if let Some(tree) = &mut self.many {
            return tree.set(key, value);
        }
        if self.few.set(key, value)? {
            return Ok(());
        }
        let mut tree = self.few.tree(self.alloc)?;
        tree.set(key, value)?;
        self.many = Some(tree);
        Ok(())
    }

    /// Puts all writes into a store.
    pub(crate) fn put_into(&self, store: &mut Store) -> Result<(), Memory>
        ensures { OnOk result (store.new ≡ apply_writes (contents.entries self.now) store.old) }
    {
        match &self.many {
            Some(tree) => tree.put_into(store),
            None => self.few.put_into(store),
        }
    }

    /// Returns copies of the keys with their values, by rising key. Each key is copied once.
    pub(crate) fn into_pairs(self) -> Result<Vec<(Key, Option<i64>)>, Memory>
        ensures { IfOk result (λ v. v.items ≡ contents.entries self.entry) }
    {
        let Draft { alloc, few, many } = self;
        match many {
            Some(tree) => tree.into_pairs(),
            None => few.pairs(alloc),
        }
    }
}

/// The result of one operation.
#[derive(Clone, Copy, Debug, PartialEq, Eq)]
pub(crate) enum Step {
    Read(Option<i64>),
    Done,
    Abort,
}

/// Returns the value under a key as the command sees it: from the draft, or else from the store.
fn value_before(draft: &Draft, store: &Store, key: &Key) -> Option<i64>
    ensures { result ≡ contents.get (contents_through draft.now store.now) key.now }
{
    match draft.get(key) {
        Some(value) => value,
        None => store.get(key),
    }
}

/// Returns the value that an operation of the command uses.
fn read_used(draft: &Draft, store: &Store, op: &Op) -> Option<i64>
    ensures { result ≡ value_used op.now (contents_through draft.now store.now) }
{
    match key_used(op) {
        Some(key) => value_before(draft, store, key),
        None => None,
    }
}

/// Runs one operation: reads through the draft and writes into it.
pub(crate) fn operate<'a>(draft: &mut Draft<'a>, store: &Store, op: &'a Op) -> Result<Step, Memory>
    ensures { IfOk result (λ s. IsStepOf s op.now store.now draft.old draft.new) }
{
    match action_of(op, read_used(draft, store, op)) {
        Action::Read(value) => Ok(Step::Read(value)),
        Action::Write(key, value) => {
            draft.set(key, value)?;
            Ok(Step::Done)
        }
        Action::Pass => Ok(Step::Done),
        Action::Abort => Ok(Step::Abort),
    }
}
