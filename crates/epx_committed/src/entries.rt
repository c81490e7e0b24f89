//! The committed map of entries in memory, or why they commit none.
ghost use Rattle.std.specs.Prelude.{MatchResult, OnOk};
ghost use Rattle.epx_committed.specs.between.EntryLines.{entry_lines};
ghost use Rattle.epx_committed.specs.between.Ledgers.{NotesLines};
ghost use Rattle.epx_committed.specs.MergedLines.{IsMerged, IsMergeFault};

use crate::ledger::Ledger;
use crate::merged::Merged;
use crate::placed::PlacedEntry;
use epx_seed::Seed;
use epx_types::{Entry, Fault, Memory, Place};
use std::alloc::Global;
use std::hash::{DefaultHasher, Hash};

/// A seed derived from the Ids of all entries, since this function has no random source.
fn seed_after(entries: &[Entry]) -> Seed {
    let mut names = DefaultHasher::new();
    for entry in entries {
        entry.id().hash(&mut names);
    }
    Seed::after(names)
}

/// Records each entry as a line of its own. The first is line 1.
fn note_each(alloc: Global, entries: Vec<Entry>, ledger: &mut Ledger) -> Result<(), Memory>
    ensures { OnOk result (NotesLines (entry_lines entries.items) ledger.old ledger.new) }
{
    let mut line = 0;
    let mut lines = Vec::with_capacity(alloc, entries.len())?;
    for entry in entries {
        line += 1;
        lines.push(PlacedEntry::new(Place { log: 0, line }, entry))?;
    }
    ledger.note(lines)
}

/// The committed map of entries in memory, without writing and reading their text.
///
/// The map is the one that `read_logs` returns for one log with a line for each entry. The order
/// of the entries does not matter, and equal entries count as one.
///
/// If the entries commit no map, the error is the first that applies:
/// - `TooManyInstances`: they have more than `MAX_INSTANCES` distinct Ids.
/// - `Disagree`: the least Id of which two entries differ, its first entry, and the first later
///   entry that differs from that one. Both have places in log 0; the line is the number of the
///   entry, counted from 1.
///
/// `Memory` can come instead of any result.
pub fn from_entries(alloc: Global, entries: Vec<Entry>) -> Result<Merged, Fault>
    ensures { let lines = entry_lines entries.items in
        MatchResult result (IsMerged lines) (IsMergeFault lines) }
{
    let mut ledger = Ledger::for_lines(alloc, seed_after(&entries), entries.len());
    note_each(alloc, entries, &mut ledger)?;
    ledger.close()
}
