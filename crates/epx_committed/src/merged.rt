//! The committed map.
ghost use Rattle.std.specs.Prelude.{◌≡◌, ◌≢◌, ◌==◌, ◌<◌, IfOk, length, map, option_copied};
ghost use Rattle.std.specs.Prelude.{slice_get, Some};
ghost use Rattle.epx_types.specs.CommittedMap.{ids_of, instance_of, position_of};
ghost use Rattle.epx_types.specs.Ids.{IsRising};
ghost use Rattle.epx_types.specs.PlacedLines.{Placed};
ghost use Rattle.epx_committed.specs.declared.rows.Row.{Row};
ghost use Rattle.epx_committed.specs.LineRows.{AreLineRows, IsLineRow, NamesItsLine};
ghost use Rattle.epx_committed.specs.LineRows.{instances_at, line_at};
ghost use Rattle.epx_committed.specs.inner.NumberRanges.{AreRangesIn};

use crate::number_ranges::NumberRanges;
use crate::placed::PlacedEntry;
use crate::position_hints::PositionHints;
use crate::rows::{Row, find_row};
use epx_types::{Entry, Id, Memory};
use std::alloc::Global;
use std::marker::Model;

/// The committed instances of logs that agree. Contracts see the instances by rising Id.
#[derive(Debug)]
pub struct Merged {
    /// Lists that have the first line of each instance.
    lists: Vec<Vec<PlacedEntry>>,
    /// Where the first line of each instance is, by rising Id.
    rows: Vec<Row>,
    ranges: NumberRanges,
    hints: PositionHints,
}

impl Drop for Merged {
    fn drop(self) {
        let Merged {
            lists: _,
            rows: _,
            ranges: _,
            hints: _,
        } = self;
    }
}

impl Model for Merged {
    ghost use Rattle.std.specs.Prelude.{List, map};
    ghost use Rattle.epx_types.specs.Instances.{Instance};
    ghost use Rattle.epx_committed.specs.LineRows.{instances_at, AreLineRows};
    ghost use Rattle.epx_committed.specs.inner.NumberRanges.{AreRangesIn};

    ghost Value = { List Instance };

    ghost view = { λ m. instances_at m.lists.items m.rows.items };

    ghost invariant = { λ m. AreLineRows m.lists.items m.rows.items
        × AreRangesIn (map (λ r. r.id) m.rows.items) m.ranges.ranges.items };
}

/// Takes the entry out of the line that a row names, and leaves an empty one of the instance there.
fn take_entry(alloc: Global, lists: &mut Vec<Vec<PlacedEntry>>, row: Row) -> Entry
    requires { NamesItsLine lists.old.items row }
    ensures entry { (p : Placed) → line_at lists.old.items row ≡ Some p → result ≡ p.instance }
    ensures others { (r : Row) → r.id ≢ row.id → (p : Placed) → IsLineRow lists.old.items p r
        → line_at lists.new.items r ≡ Some p }
{
    let empty = Entry::new(row.id, row.seq, Vec::new(alloc), Vec::new(alloc)).unwrap();
    lists[row.list][row.at].replace_entry(empty)
}

impl Merged {
    /// The map of the instances whose first lines these rows name, by rising Id.
    pub(crate) fn new(
        lists: Vec<Vec<PlacedEntry>>,
        rows: Vec<Row>,
        ranges: NumberRanges,
        hints: PositionHints,
    ) -> Merged
        requires rows { AreLineRows lists.items rows.items }
        requires ranges { AreRangesIn (map (λ r. r.id) rows.items) ranges.ranges.items }
        ensures { result ≡ instances_at lists.items rows.items }
    {
        Merged {
            lists,
            rows,
            ranges,
            hints,
        }
    }

    /// The entries of the committed instances, by rising Id. They are moved, not copied.
    pub fn into_entries(self, alloc: Global) -> Result<Vec<Entry>, Memory>
        ensures { IfOk result (λ entries. entries.items ≡ self) }
    {
        let Merged {
            mut lists,
            rows,
            ranges: _,
            hints: _,
        } = self;
        let mut entries = Vec::with_capacity(alloc, rows.len())?;
        for index in 0..rows.len() {
            entries.push(take_entry(alloc, &mut lists, rows[index]))?;
        }
        Ok(entries)
    }

    /// The position of an instance. Most are in a range, and no row has to be loaded. After a gap
    /// the hint is usually right; otherwise a binary search finds it.
    fn find_position(&self, id: Id) -> Option<usize>
        ensures position { result ≡ position_of self.now id }
        ensures rising { IsRising (ids_of self.now) }
    {
        if let Some(position) = self.ranges.find(id) {
            return Some(position);
        }
        if let Some(position) = self.hints.hint(id) {
            if position < self.rows.len() && self.rows[position].id == id {
                return Some(position);
            }
        }
        find_row(&self.rows, id)
    }

    /// How many instances are committed.
    pub fn len(&self) -> usize
        ensures len { result ≡ length self.now }
        ensures rising { IsRising (ids_of self.now) }
    {
        self.rows.len()
    }

    /// Whether no instance is committed.
    pub fn is_empty(&self) -> bool
        ensures { result ≡ (length self.now == 0) }
    {
        self.len() == 0
    }

    /// The entry of an instance, if it is committed. Takes at most logarithmic time.
    pub fn get(&self, id: Id) -> Option<&Entry>
        ensures { option_copied result ≡ instance_of self.now id }
    {
        match self.find_position(id) {
            Some(position) => Some(self.entry_at(position)),
            None => None,
        }
    }

    /// The position of an instance, if it is committed: how many committed instances have a lower
    /// Id. Takes at most logarithmic time.
    pub fn position(&self, id: Id) -> Option<usize>
        ensures { result ≡ position_of self.now id }
    {
        self.find_position(id)
    }

    /// The Id of the instance at a position.
    pub fn id_at(&self, position: usize) -> Id
        requires { position < length self.now }
        ensures { slice_get (ids_of self.now) position ≡ Some result }
    {
        self.rows[position].id
    }

    /// The sequence number of the instance at a position.
    pub fn seq_at(&self, position: usize) -> u64
        requires { position < length self.now }
        ensures { slice_get (map (λ i. i.seq) self.now) position ≡ Some result }
    {
        self.rows[position].seq
    }

    /// The entry of the instance at a position.
    pub fn entry_at(&self, position: usize) -> &Entry
        requires { position < length self.now }
        ensures { slice_get self.now position ≡ Some result.now }
    {
        self.rows[position].line_in(&self.lists).entry()
    }
}
