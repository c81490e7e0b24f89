//! An instance as a line commits it.
ghost use Rattle.std.specs.Prelude.{◌≡◌};

use epx_types::{Entry, Id, Op};
use std::hash::{Hash, Hasher};
use std::marker::Model;

/// An instance as a line commits it. Two versions are equal if they commit the same.
#[derive(Debug, Drop)]
pub(crate) struct Version {
    entry: Entry,
}

impl Model for Version {
    ghost use Rattle.epx_types.specs.Instances.{Instance};

    ghost Value = { Instance };

    ghost view = { λ v. v.entry };
}

impl Version {
    /// The version of an entry.
    pub(crate) fn new(entry: Entry) -> Version
        ensures { result ≡ entry }
    {
        Version { entry }
    }

    /// The entry that lines of this version commit.
    pub(crate) fn entry(&self) -> &Entry
        ensures { result.now ≡ self.now }
    {
        &self.entry
    }
}

impl PartialEq for Version {
    ghost use Rattle.epx_versions.specs.SameInstances.{same_instance};
    ghost use Rattle.epx_versions.specs.inner.EqualVersions.{same_instance_per};

    ghost eq = { same_instance };

    ghost laws = { same_instance_per };

    fn eq(&self, other: &Version) -> bool {
        let (first, second) = (&self.entry, &other.entry);
        first.id() == second.id()
            && first.seq() == second.seq()
            && first.deps() == second.deps()
            && first.ops() == second.ops()
    }
}

impl Eq for Version {
    ghost use Rattle.epx_versions.specs.inner.EqualVersions.{same_instance_equiv};

    ghost laws = { same_instance_equiv };
}

impl Hash for Version {
    ghost use Rattle.std.specs.Prelude.{◌++◌};
    ghost use Rattle.std.specs.Hash as fed;
    ghost use Rattle.epx_types.specs.contracts.id.IdHash.TheImpl as id_hash;
    ghost use Rattle.epx_types.specs.contracts.op.OpHash.TheImpl as op_hash;
    ghost use Rattle.epx_versions.specs.inner.EqualVersions.{same_instance-equal};
    ghost use Rattle.std.proofs.Common.{ap};

    ghost hash_input = { λ e. id_hash.hash_input-value.it e.id ++ (fed.u64 e.seq
        ++ (fed.slice id_hash.hash_input-value.it e.deps
        ++ fed.slice op_hash.hash_input-value.it e.ops)) };

    ghost respects_eq = { λ d e same. ap (λ x. id_hash.hash_input-value.it x.id ++ (fed.u64 x.seq
        ++ (fed.slice id_hash.hash_input-value.it x.deps
        ++ fed.slice op_hash.hash_input-value.it x.ops))) (same_instance-equal d e same) };

    fn hash<H: Hasher>(&self, state: &mut H) {
        self.entry.id().hash(state);
        self.entry.seq().hash(state);
        self.entry.deps().hash(state);
        self.entry.ops().hash(state);
    }
}
