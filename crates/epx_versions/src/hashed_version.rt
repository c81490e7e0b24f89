//! A version with its hash.
ghost use Rattle.std.specs.Prelude.{◌≡◌};
ghost use Rattle.epx_versions.specs.between.VersionLists.{hash_by};

use crate::version::Version;
use epx_seed::Seed;
use epx_types::Entry;
use std::hash::{BuildHasher, Hash, Hasher};

/// A version with the hash of what it commits, so that a table reads only the hash.
#[derive(Debug, Drop)]
pub struct HashedVersion {
    pub(crate) version: Version,
    pub(crate) hash: u64,
}

impl HashedVersion {
    /// The version of a line that commits an entry, hashed with the seed.
    pub(crate) fn new(entry: Entry, seed: Seed) -> HashedVersion
        ensures version { result.version ≡ entry }
        ensures hash { result.hash ≡ hash_by seed entry }
    {
        let version = Version::new(entry);
        let hash = seed.hash_one(&version);
        HashedVersion { version, hash }
    }
}

impl PartialEq for HashedVersion {
    ghost use Rattle.epx_versions.specs.inner.HashedVersions.{same_hashed, same_hashed_per};

    ghost eq = { same_hashed };

    ghost laws = { same_hashed_per };

    fn eq(&self, other: &HashedVersion) -> bool {
        self.hash == other.hash && self.version == other.version
    }
}

impl Eq for HashedVersion {
    ghost use Rattle.epx_versions.specs.inner.HashedVersions.{same_hashed_equiv};

    ghost laws = { same_hashed_equiv };
}

impl Hash for HashedVersion {
    ghost use Rattle.std.specs.Hash as fed;
    ghost use Rattle.epx_versions.specs.inner.HashedVersions.{hashed_decide};
    ghost use Rattle.std.proofs.Common.{ap};

    ghost hash_input = { λ v. fed.u64 v.hash };

    ghost respects_eq = { λ v w same. ap (λ x. fed.u64 x.hash) ((hashed_decide v w).0 same) };

    fn hash<H: Hasher>(&self, state: &mut H) {
        self.hash.hash(state);
    }
}
