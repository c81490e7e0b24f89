//! The bytes that a device has transferred, for clauses alone.
ghost use Rattle.std.specs.Prelude.{◌≡◌, ℕ, List, [], ◌++◌};
ghost use Rattle.std.specs.Borrow.{ftrue};

use std::marker::{Model, PhantomData};

/// A list of bytes that only clauses read. It takes no memory.
#[derive(Drop)]
pub(crate) struct Transferred {
    marker: PhantomData<u8>,
    pub ghost bytes: { List ℕ },
}

impl Model for Transferred {
    ghost also_owns = { λ _. ftrue };
}

impl Transferred {
    /// No bytes are transferred yet.
    pub(crate) fn new() -> Transferred
        ensures { result.bytes ≡ [] }
    {
        Transferred {
            marker: PhantomData,
        }
    }

    /// Appends these bytes.
    pub(crate) fn note(&mut self, _part: &[u8])
        ensures { self.new.bytes ≡ self.old.bytes ++ _part.now }
    {}
}
