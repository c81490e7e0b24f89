//! Noted lines: the first line of each instance, and the instances whose lines differ.
ghost use Rattle.std.specs.Prelude.{◌<◌, List, [], ◌∷◌, Contains, IfOk, IfSome, OnOk, MatchResult};
ghost use Rattle.std.specs.Prelude.{length, slice_get};
ghost use Rattle.epx_types.specs.declared.id.Id.{Id};
ghost use Rattle.epx_types.specs.PlacedLines.{Placed};
ghost use Rattle.epx_committed.specs.between.Ledgers.{IsLedgerOf, NotesLines};
ghost use Rattle.epx_committed.specs.inner.FirstLines.{AreFirstLines, Extends, ledger_view};
ghost use Rattle.epx_committed.specs.LineRows.{IsLineRow};
ghost use Rattle.epx_committed.specs.inner.LeastDisagreement.{IsLeastDisagreement};
ghost use Rattle.epx_committed.specs.between.LineOrder.{IsSortedByPlace};
ghost use Rattle.epx_committed.specs.MergedLines.{IsMerged, IsMergeFault};

use crate::line_index::LineIndex;
use crate::merged::Merged;
use crate::number_ranges::NumberRanges;
use crate::placed::PlacedEntry;
use crate::rows::{Row, hints_of, sort_rows};
use crate::same_entry::same_entry;
use epx_seed::Seed;
use epx_types::limits::MAX_INSTANCES;
use epx_types::{Fault, Id, Memory, Place};
use indexmap::IndexMap;
use std::alloc::Global;
use std::marker::Model;

/// The first line of an instance, and the first line that differs from it.
#[derive(Clone, Copy, Debug)]
pub(crate) struct Disagreement {
    pub(crate) first: Place,
    pub(crate) second: Place,
}

/// The first line of each instance, and the first line that differs from it.
#[derive(Debug, Drop)]
pub(crate) struct FirstLines {
    /// A row for each instance, in the order of noting.
    rows: Vec<Row>,
    /// Finds the row of an Id.
    index: LineIndex,
    disagreements: IndexMap<Id, Disagreement, Seed>,
}

/// Records a line of an instance whose first line is known.
fn compare(
    first: &PlacedEntry,
    line: &PlacedEntry,
    disagreements: &mut IndexMap<Id, Disagreement, Seed>,
) -> Result<(), Memory>
    ensures { OnOk result ((firsts : List (Id × Placed))
        → Contains firsts (line.now.instance.id, first.now)
        → NotesLines (line.now ∷ [])
        (record { firsts = firsts; disagreements = disagreements.old.entries })
        (record { firsts = firsts; disagreements = disagreements.new.entries })) }
{
    let id = line.id();
    if same_entry(first.entry(), line.entry()) || disagreements.contains_key(&id) {
        return Ok(());
    }
    let disagreement = Disagreement {
        first: first.place(),
        second: line.place(),
    };
    disagreements.insert(id, disagreement)?;
    Ok(())
}

impl FirstLines {
    /// Records a line, which the row names.
    fn note_line(
        &mut self,
        lists: &[Vec<PlacedEntry>],
        line: &PlacedEntry,
        row: Row,
    ) -> Result<(), Memory>
        requires firsts { AreFirstLines lists.now self.old }
        requires row { IsLineRow lists.now line.now row }
        ensures firsts { AreFirstLines lists.now self.new }
        ensures rows { Extends self.old.rows.items self.new.rows.items }
        ensures noted { OnOk result (NotesLines (line.now ∷ [])
            (ledger_view lists.now self.old) (ledger_view lists.now self.new)) }
    {
        if let Some(index) = self.index.find(row.id) {
            let first = self.rows[index].line_in(lists);
            return compare(first, line, &mut self.disagreements);
        }
        // Reserve first, so that an Id never goes in without its row.
        self.rows.reserve(1)?;
        self.index.add(row.id, self.rows.len())?;
        self.rows.push(row)?;
        Ok(())
    }

    /// Records the lines of the list with this index.
    fn note_list(&mut self, lists: &[Vec<PlacedEntry>], list: usize) -> Result<(), Memory>
        requires list { list < length lists.now }
        requires firsts { AreFirstLines lists.now self.old }
        ensures firsts { AreFirstLines lists.now self.new }
        ensures rows { Extends self.old.rows.items self.new.rows.items }
        ensures noted { OnOk result (IfSome (slice_get lists.now list)
            (λ lines. NotesLines lines.items
            (ledger_view lists.now self.old) (ledger_view lists.now self.new))) }
    {
        let lines = &lists[list];
        for at in 0..lines.len() {
            let line = &lines[at];
            self.note_line(lists, line, Row::of_line(line, list, at))?;
        }
        Ok(())
    }
}

/// How many marks a ledger may have beside five for each Id, if nobody knows how many lines come.
const SPARE_MARKS: usize = 65_536;

/// How many marks a ledger may have beside five for each Id and one for each line, if the number
/// of lines is known.
const FEW_SPARE_MARKS: usize = 1_024;

/// Records lists of lines. Keeps each list that has the first line of an instance.
#[derive(Debug, Drop)]
pub struct Ledger {
    alloc: Global,
    /// The lists that were kept.
    lists: Vec<Vec<PlacedEntry>>,
    firsts: FirstLines,
}

impl Model for Ledger {
    ghost use Rattle.epx_committed.specs.between.Ledgers.{LedgerView};
    ghost use Rattle.epx_committed.specs.inner.FirstLines.{AreFirstLines, ledger_view};

    ghost Value = { LedgerView };

    ghost view = { λ l. ledger_view l.lists.items l.firsts };

    ghost invariant = { λ l. AreFirstLines l.lists.items l.firsts };
}

impl Ledger {
    /// A ledger of no lines. Its tables hash with the seed.
    pub fn new(alloc: Global, seed: Seed) -> Ledger
        ensures { IsLedgerOf [] result }
    {
        Ledger::with_spare(alloc, seed, SPARE_MARKS)
    }

    /// A ledger of no lines, for about this many. Its tables hash with the seed. A few lines cost
    /// little memory, whatever the numbers of their instances are.
    pub fn for_lines(alloc: Global, seed: Seed, lines: usize) -> Ledger
        ensures { IsLedgerOf [] result }
    {
        Ledger::with_spare(alloc, seed, lines.saturating_add(FEW_SPARE_MARKS))
    }

    /// A ledger of no lines, which may have this many marks beside five for each Id.
    fn with_spare(alloc: Global, seed: Seed, spare: usize) -> Ledger
        ensures { IsLedgerOf [] result }
    {
        Ledger {
            alloc,
            lists: Vec::new(alloc),
            firsts: FirstLines {
                rows: Vec::new(alloc),
                index: LineIndex::new(alloc, seed, spare),
                disagreements: IndexMap::with_hasher(alloc, seed),
            },
        }
    }

    /// Records the lines of a list, which come by rising place. If it runs out of memory, some may
    /// be recorded, and the ledger is of no more use.
    pub fn note(&mut self, lines: Vec<PlacedEntry>) -> Result<(), Memory>
        ensures { OnOk result (NotesLines lines.items self.old self.new) }
    {
        let list = self.lists.len();
        let known = self.firsts.rows.len();
        self.lists.push(lines)?;
        self.firsts.note_list(&self.lists, list)?;
        if self.firsts.rows.len() == known {
            // No line of the list is a first one, and no row names it.
            self.lists.truncate(list);
        }
        Ok(())
    }

    /// The map that the noted lines commit, or the fault for which they commit none, as in
    /// `from_entries`.
    pub fn close(self) -> Result<Merged, Fault>
        ensures { (lines : List Placed) → IsSortedByPlace lines → IsLedgerOf lines self
            → MatchResult result (IsMerged lines) (IsMergeFault lines) }
    {
        let Ledger {
            alloc,
            lists,
            firsts,
        } = self;
        let FirstLines {
            rows,
            index,
            disagreements,
        } = firsts;
        let row_slots = index.line_slots(alloc, rows.len())?;
        drop(index);
        let rows = sort_rows(alloc, rows, &row_slots)?;
        let ranges = NumberRanges::of_rows(alloc, &rows)?;
        let hints = hints_of(alloc, &rows, ranges.len())?;
        let least = least_of(disagreements)?;
        if rows.len() > MAX_INSTANCES {
            return Err(Fault::TooManyInstances);
        }
        match least {
            Some((id, disagreement)) => Err(Fault::Disagree {
                id,
                first: disagreement.first,
                second: disagreement.second,
            }),
            None => Ok(Merged::new(lists, rows, ranges, hints)),
        }
    }
}

/// The disagreement of the least Id, if there is any.
fn least_of(
    mut disagreements: IndexMap<Id, Disagreement, Seed>,
) -> Result<Option<(Id, Disagreement)>, Memory>
    ensures { IfOk result (IsLeastDisagreement disagreements.entries) }
{
    disagreements.sort_unstable_keys()?;
    match disagreements.first() {
        Some((id, disagreement)) => Ok(Some((*id, *disagreement))),
        None => Ok(None),
    }
}
