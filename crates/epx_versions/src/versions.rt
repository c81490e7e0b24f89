//! Versions, each once.
ghost use Rattle.std.specs.Prelude.{◌≡◌, ◌<◌, [], length, slice_get, IfOk, OnOk, Some};
ghost use Rattle.indexmap.specs.IndexSet.{insert_key};
ghost use Rattle.epx_seed.specs.declared.Seed.{Seed};
ghost use Rattle.epx_versions.specs.SameInstances.{same_instance};
ghost use Rattle.epx_versions.specs.inner.HashedVersions.{IsHashed};
ghost use Rattle.epx_versions.specs.between.VersionLists.{AreHashed};

use crate::hashed_version::HashedVersion;
use epx_types::{Entry, Memory};
use indexmap::IndexSet;
use std::alloc::Global;
use std::marker::Model;

/// Versions by number, each once. Contracts see what they commit, and their hashes.
#[derive(Drop)]
pub struct Versions {
    /// The hashes of the versions depend on a random seed, so the hasher of the table needs none:
    /// nobody can choose versions that collide.
    table: IndexSet<HashedVersion>,
}

impl Model for Versions {
    ghost use Rattle.std.specs.Prelude.{map};
    ghost use Rattle.epx_versions.specs.between.VersionLists.{VersionList};

    ghost Value = { VersionList };

    ghost view = { λ v. record {
      keys = map (λ k. k.version) v.table.keys;
      hashes = map (λ k. k.hash) v.table.keys;
    } };
}

impl Versions {
    /// No versions.
    pub(crate) fn new(alloc: Global) -> Versions
        ensures keys { result.keys ≡ [] }
        ensures hashes { result.hashes ≡ [] }
    {
        Versions {
            table: IndexSet::new(alloc),
        }
    }

    /// How many versions there are.
    pub fn len(&self) -> usize
        ensures { result ≡ length self.now.keys }
    {
        self.table.len()
    }

    /// What the version with this number commits.
    pub fn entry(&self, number: usize) -> &Entry
        requires { number < length self.now.keys }
        ensures { slice_get self.now.keys number ≡ Some result.now }
    {
        let Some(hashed) = self.table.get_index(number) else {
            unreachable!()
        };
        hashed.version.entry()
    }

    /// Adds a version, unless it is there. Returns its number.
    pub(crate) fn insert(&mut self, version: HashedVersion) -> Result<usize, Memory>
        ensures added { OnOk result ((seed : Seed) → AreHashed seed self.old
            → IsHashed seed version → AreHashed seed self.new
            × (self.new.keys ≡ insert_key same_instance self.old.keys version.version)) }
        ensures number { IfOk result
            (λ number. slice_get self.new.keys number ≡ Some version.version) }
    {
        let (number, _) = self.table.insert_full(version)?;
        Ok(number)
    }
}
