//! What is noted of the lines of logs.
ghost use Rattle.std.specs.Prelude.{◌≡◌, ◌∷◌, ◌++◌, [], List, Some, IfOk, OnOk, slice_get};
ghost use Rattle.epx_seed.specs.declared.Seed.{Seed};
ghost use Rattle.epx_types.specs.Instances.{Instance};
ghost use Rattle.epx_types.specs.PlacedLines.{Placed};
ghost use Rattle.epx_merge.specs.LogLines.{BadLineAt};
ghost use Rattle.epx_versions.specs.inner.HashedVersions.{IsHashed};
ghost use Rattle.epx_versions.specs.between.NotedRows.{AreNoted};
ghost use Rattle.epx_versions.specs.between.VersionLists.{AreHashed};

use crate::hashed_version::HashedVersion;
use crate::versions::Versions;
use epx_types::{Memory, Place, Why};
use std::alloc::Global;

/// A line that commits an instance: its place, and the number of what it commits.
#[derive(Clone, Copy, Debug)]
pub struct NotedLine {
    pub place: Place,
    pub version: usize,
}

/// A line with a fault, and its reason.
#[derive(Clone, Copy, Debug)]
pub struct NotedBadLine {
    pub place: Place,
    pub why: Why,
}

/// What lines say, by rising place.
pub struct Noted {
    pub versions: Versions,
    pub rows: Vec<NotedLine>,
    pub bad: Vec<NotedBadLine>,
}

impl Drop for Noted {
    fn drop(self) {
        let Noted {
            versions: _,
            rows: _,
            bad: _,
        } = self;
    }
}

impl Noted {
    /// Nothing is noted.
    pub(crate) fn new(alloc: Global) -> Noted
        ensures none { AreNoted [] [] result }
        ensures hashed { (seed : Seed) → AreHashed seed result.versions }
    {
        Noted {
            versions: Versions::new(alloc),
            rows: Vec::new(alloc),
            bad: Vec::new(alloc),
        }
    }

    /// Notes a line that commits a version. Returns its number.
    pub(crate) fn note_entry(
        &mut self,
        place: Place,
        version: HashedVersion,
    ) -> Result<usize, Memory>
        ensures noted { OnOk result ((lines : List Placed) (bad : List BadLineAt) (seed : Seed)
            → AreNoted lines bad self.old → AreHashed seed self.old.versions
            → IsHashed seed version
            → AreNoted (lines ++ record { place = place; instance = version.version } ∷ []) bad
            self.new × AreHashed seed self.new.versions) }
        ensures number { IfOk result
            (λ number. slice_get self.new.versions.keys number ≡ Some version.version) }
    {
        let number = self.versions.insert(version)?;
        self.rows.push(NotedLine {
            place,
            version: number,
        })?;
        Ok(number)
    }

    /// Notes a line that commits the version with this number.
    pub(crate) fn note_version(&mut self, place: Place, version: usize) -> Result<(), Memory>
        ensures noted { OnOk result ((lines : List Placed) (bad : List BadLineAt)
            (instance : Instance) → slice_get self.old.versions.keys version ≡ Some instance
            → AreNoted lines bad self.old
            → AreNoted (lines ++ record { place = place; instance = instance } ∷ []) bad
            self.new) }
        ensures versions { OnOk result (self.new.versions ≡ self.old.versions) }
    {
        self.rows.push(NotedLine { place, version })?;
        Ok(())
    }

    /// Notes a bad line.
    pub(crate) fn note_bad(&mut self, place: Place, why: Why) -> Result<(), Memory>
        ensures noted { OnOk result ((lines : List Placed) (bad : List BadLineAt)
            → AreNoted lines bad self.old
            → AreNoted lines (bad ++ record { place = place; why = why } ∷ []) self.new) }
        ensures versions { OnOk result (self.new.versions ≡ self.old.versions) }
    {
        self.bad.push(NotedBadLine { place, why })?;
        Ok(())
    }
}
