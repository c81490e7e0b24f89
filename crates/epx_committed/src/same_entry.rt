//! Whether two lines commit the same.
ghost use Rattle.std.specs.Prelude.{◌≡◌, ◌↔◌, IsTrue};

use epx_types::{Entry, Id, Op};

/// Whether two commands have the same operations.
fn same_command(first: &[Op], second: &[Op]) -> bool
    ensures { IsTrue result ↔ (first.now ≡ second.now) }
{
    first == second
}

/// Whether two lists of Ids are the same.
fn same_ids(first: &[Id], second: &[Id]) -> bool
    ensures { IsTrue result ↔ (first.now ≡ second.now) }
{
    first == second
}

/// Whether two entries have the same Id, sequence number, dependencies and command.
pub fn same_entry(first: &Entry, second: &Entry) -> bool
    ensures { IsTrue result ↔ (first.now ≡ second.now) }
{
    if first.id() != second.id() || first.seq() != second.seq() {
        return false;
    }
    if !same_ids(first.deps(), second.deps()) {
        return false;
    }
    same_command(first.ops(), second.ops())
}
