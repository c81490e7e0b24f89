//! The members in which versions differ.
ghost use Rattle.std.specs.Prelude.{◌≡◌, ◌<◌, ◌||◌, not, length, map, All};
ghost use Rattle.epx_versions.specs.SameInstances.{same_seq, same_deps, same_ops};
ghost use Rattle.epx_compare.specs.inner.NumberedVersions.{version_at, differs_from, AreDiffering};

use epx_types::Entry;
use epx_versions::Versions;

/// Whether versions differ, member by member.
#[derive(Clone, Copy, Debug, Default)]
pub(crate) struct Members {
    pub(crate) seq: bool,
    pub(crate) deps: bool,
    pub(crate) ops: bool,
}

/// What the version with this number commits.
fn entry_at(versions: &Versions, number: usize) -> &Entry
    requires { number < length versions.now.keys }
    ensures { result.now ≡ version_at versions.now.keys number }
{
    versions.entry(number)
}

impl Members {
    /// Adds the members in which two entries differ.
    fn note(&mut self, first: &Entry, later: &Entry)
        ensures seq { self.new.seq ≡ (self.old.seq || not (same_seq first.now later.now)) }
        ensures deps { self.new.deps ≡ (self.old.deps || not (same_deps first.now later.now)) }
        ensures ops { self.new.ops ≡ (self.old.ops || not (same_ops first.now later.now)) }
    {
        self.seq = self.seq || first.seq() != later.seq();
        self.deps = self.deps || first.deps() != later.deps();
        self.ops = self.ops || first.ops() != later.ops();
    }

    /// The members in which some version with one of these numbers differs from an entry.
    fn from_first(versions: &Versions, first: &Entry, later: &[usize]) -> Members
        requires { All (λ v. v < length versions.now.keys) later.now }
        ensures seq { result.seq ≡ differs_from same_seq first.now versions.now.keys later.now }
        ensures deps { result.deps ≡ differs_from same_deps first.now versions.now.keys later.now }
        ensures ops { result.ops ≡ differs_from same_ops first.now versions.now.keys later.now }
    {
        let mut members = Members::default();
        for number in later {
            members.note(first, entry_at(versions, *number));
        }
        members
    }

    /// The members in which the versions with these numbers differ. It is enough to compare each
    /// with the first.
    pub(crate) fn differing(versions: &Versions, numbers: &[usize]) -> Members
        requires { All (λ v. v < length versions.now.keys) numbers.now }
        ensures { AreDiffering (map (version_at versions.now.keys) numbers.now) result }
    {
        match numbers.split_first() {
            None => Members::default(),
            Some((first, later)) => {
                Members::from_first(versions, entry_at(versions, *first), later)
            }
        }
    }
}
