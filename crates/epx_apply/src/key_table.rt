//! For each key, the levels of the commands so far that touch it and that write it. Callers may
//! note other numbers in place of levels.
ghost use Rattle.std.specs.Prelude.{◌≡◌, ◌<◌, ◌^◌, ◌+◌, ℕ, List, [], ◌∷◌, length, max, flat_map};
ghost use Rattle.std.specs.Prelude.{fold, All, IfOk, OnOk};
ghost use Rattle.epx_types.specs.declared.op.Op.{Op};
ghost use Rattle.epx_apply.specs.between.KeyTables.{IsKeyTableOf, CollectsCommand, NotesCommand};
ghost use Rattle.epx_apply.specs.inner.LevelTables.{IsLevelTableOf, AddsAccesses, AddsCommand};
ghost use Rattle.epx_apply.specs.inner.LevelTables.{level_for, raise};
ghost use Rattle.epx_types.specs.CommandKeys.{accesses_of};

use epx_seed::Seed;
use epx_types::{Key, Memory, Op};
use indexmap::IndexSet;
use std::alloc::Global;
use std::marker::Model;

/// The levels of the commands that use a key. Each number is one above the greatest level of such
/// commands, or 0 if there are none.
#[derive(Clone, Copy, Debug)]
pub(crate) struct KeyLevels {
    /// For the commands that write the key.
    writers: usize,
    /// For the commands that touch the key.
    touchers: usize,
}

/// A key that a command touches, by its number.
#[derive(Clone, Copy, Debug)]
pub(crate) struct TableAccess {
    key: usize,
    writes: bool,
}

/// The keys of the commands so far, numbered in the order in which they came, with the levels of
/// each.
#[derive(Debug)]
pub struct KeyTable<'a> {
    keys: IndexSet<&'a str, Seed>,
    key_levels: Vec<KeyLevels>,
    /// The keys of the current command.
    accesses: Vec<TableAccess>,
}

impl Drop for KeyTable<'_> {
    fn drop(self) {
        let KeyTable {
            keys: _,
            key_levels: _,
            accesses: _,
        } = self;
    }
}

impl<'a> Model for KeyTable<'a> {
    ghost use Rattle.std.specs.Prelude.{map};
    ghost use Rattle.epx_apply.specs.between.KeyTables.{KeyTableView};

    ghost Value = { KeyTableView };

    ghost view = { λ t. record {
      keys = map (λ k. k.now) t.keys.keys;
      key_levels = t.key_levels.items;
      accesses = t.accesses.items;
    } };
}

/// Returns the least level that is above every earlier command that conflicts over one of these
/// accesses.
fn least_level(key_levels: &[KeyLevels], accesses: &[TableAccess]) -> usize
    requires { All (λ a. a.key < length key_levels.now) accesses.now }
    ensures { result ≡ fold (λ level a. max level (level_for key_levels.now a)) 0 accesses.now }
{
    let mut level = 0;
    for access in accesses {
        let at_key = key_levels[access.key];
        level = level.max(if access.writes {
            at_key.touchers
        } else {
            at_key.writers
        });
    }
    level
}

/// Raises the levels of each key of a command to at least `least`.
fn raise_levels(key_levels: &mut [KeyLevels], accesses: &[TableAccess], least: usize)
    requires { All (λ a. a.key < length key_levels.old) accesses.now }
    ensures { key_levels.new ≡ fold (raise least) key_levels.old accesses.now }
{
    for access in accesses {
        let KeyLevels { writers, touchers } = key_levels[access.key];
        key_levels[access.key] = KeyLevels {
            writers: if access.writes {
                writers.max(least)
            } else {
                writers
            },
            touchers: touchers.max(least),
        };
    }
}

impl<'a> KeyTable<'a> {
    /// Returns a table without keys that hashes with the seed.
    pub fn new(alloc: Global, seed: Seed) -> KeyTable<'a>
        ensures { IsKeyTableOf [] [] result }
    {
        KeyTable {
            keys: IndexSet::with_hasher(alloc, seed),
            key_levels: Vec::new(alloc),
            accesses: Vec::new(alloc),
        }
    }

    /// Adds a key to those of the current command.
    fn add_access(&mut self, key: &'a Key, writes: bool) -> Result<(), Memory>
        ensures { OnOk result (AddsAccesses ((key.now, writes) ∷ []) self.old self.new) }
    {
        let (number, is_new) = self.keys.insert_full(key.text())?;
        if is_new {
            self.key_levels.push(KeyLevels {
                writers: 0,
                touchers: 0,
            })?;
        }
        self.accesses.push(TableAccess {
            key: number,
            writes,
        })?;
        Ok(())
    }

    /// Adds the keys of an operation to those of the current command.
    fn add_accesses(&mut self, op: &'a Op) -> Result<(), Memory>
        ensures { OnOk result (AddsAccesses (accesses_of op.now) self.old self.new) }
    {
        let (first, second) = op.accesses();
        self.add_access(first.key, first.writes)?;
        match second {
            Some(access) => self.add_access(access.key, access.writes),
            None => Ok(()),
        }
    }

    /// Collects the keys of the next command. Returns one above the greatest number of an earlier
    /// command that conflicts with it, or 0 if there is none. `note` notes the command.
    pub fn least_above(&mut self, ops: &'a [Op]) -> Result<usize, Memory>
        requires { (done : List (List Op × ℕ)) × IsKeyTableOf done [] self.old }
        ensures { IfOk result (λ n. CollectsCommand ops.now n self.old self.new) }
    {
        for op in ops {
            self.add_accesses(op)?;
        }
        Ok(least_level(&self.key_levels, &self.accesses))
    }

    /// Adds the command whose keys are collected to the table, with this number.
    pub fn note(&mut self, number: usize)
        requires collected { (done : List (List Op × ℕ)) × (ops : List Op)
            × IsKeyTableOf done (flat_map accesses_of ops) self.old }
        requires fits { number + 1 < 2 ^ 64 }
        ensures { NotesCommand number self.old self.new }
    {
        raise_levels(&mut self.key_levels, &self.accesses, number + 1);
        self.accesses.clear();
    }

    /// Returns the level of the next command and adds the command to the table. All its keys are
    /// looked up before any level is raised, so it does not conflict with itself.
    pub(crate) fn push_command(&mut self, ops: &'a [Op]) -> Result<usize, Memory>
        requires { (done : List (List Op × ℕ)) × IsLevelTableOf done self.old
            × (length done + 1 < 2 ^ 64) }
        ensures { IfOk result (λ level. AddsCommand ops.now level self.old self.new) }
    {
        let level = self.least_above(ops)?;
        self.note(level);
        Ok(level)
    }
}
