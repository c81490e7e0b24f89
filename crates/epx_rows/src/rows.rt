//! Lists of numbers, one after another in one vector.
ghost use Rattle.std.specs.Prelude.{◌≡◌, ◌<◌, ◌≤◌, ◌+◌, ◌^◌, ◌++◌, ◌∷◌, [], length, map};
ghost use Rattle.std.specs.Prelude.{slice_index, slice_range, All, IfOk, OnOk};
ghost use Rattle.epx_rows.specs.between.Rows.{row_of};

use crate::open_row::OpenRow;
use epx_types::Memory;
use std::alloc::Global;
use std::marker::Model;

/// Rows of numbers. Takes one word for each number and one for each row. Contracts see the list of
/// the rows.
#[derive(Debug)]
pub struct Rows {
    /// The end of each row in `numbers`.
    pub(crate) ends: Vec<usize>,
    pub(crate) numbers: Vec<usize>,
}

impl Drop for Rows {
    fn drop(self) {
        let Rows {
            ends: _,
            numbers: _,
        } = self;
    }
}

impl Model for Rows {
    ghost use Rattle.std.specs.Prelude.{ℕ, List, length};
    ghost use Rattle.epx_rows.specs.RowEnds.{rows_from, AreRowEnds};

    ghost Value = { List (List ℕ) };

    ghost view = { λ r. rows_from 0 r.ends.items r.numbers.items };

    ghost invariant = { λ r. AreRowEnds 0 r.ends.items (length r.numbers.items) };
}

/// The start and the end of a row.
fn bounds(ends: &[usize], index: usize) -> (usize, usize)
    requires { index < length ends.now }
    ensures { result ≡ (slice_index (0 ∷ ends.now) index, slice_index ends.now index) }
{
    if index == 0 {
        return (0, ends[0]);
    }
    (ends[index - 1], ends[index])
}

/// Appends the ends of later rows, moved by the count of numbers before them.
fn push_ends(ends: &mut Vec<usize>, before: usize, later: &[usize]) -> Result<(), Memory>
    requires { All (λ end. before + end < 2 ^ 64) later.now }
    ensures { OnOk result (ends.new.items ≡ ends.old.items ++ map (λ end. before + end) later.now) }
{
    for end in later {
        ends.push(before + *end)?;
    }
    Ok(())
}

/// The numbers from `start` up to the one before `end`.
fn part(numbers: &[usize], start: usize, end: usize) -> &[usize]
    requires start { start ≤ end }
    requires end { end ≤ length numbers.now }
    ensures { result.now ≡ slice_range numbers.now start end }
{
    &numbers[start..end]
}

impl Rows {
    /// No rows, with room for some rows and numbers.
    pub fn with_capacity(alloc: Global, rows: usize, numbers: usize) -> Result<Rows, Memory>
        ensures { IfOk result (λ rows. rows ≡ []) }
    {
        Ok(Rows {
            ends: Vec::with_capacity(alloc, rows)?,
            numbers: Vec::with_capacity(alloc, numbers)?,
        })
    }

    /// No rows, with room for as many rows and numbers as these have, and for more numbers.
    pub fn empty_with_room(&self, alloc: Global, more: usize) -> Result<Rows, Memory>
        ensures { IfOk result (λ rows. rows ≡ []) }
    {
        Rows::with_capacity(
            alloc,
            self.ends.len(),
            self.numbers.len().saturating_add(more),
        )
    }

    /// The number of rows.
    pub fn len(&self) -> usize
        ensures { result ≡ length self.now }
    {
        self.ends.len()
    }

    /// The numbers of the row at an index. Takes constant time.
    pub fn row(&self, index: usize) -> &[usize]
        requires { index < length self.now }
        ensures { result.now ≡ row_of self.now index }
    {
        let (start, end) = bounds(&self.ends, index);
        part(&self.numbers, start, end)
    }

    /// Begins the next row, without any numbers yet.
    pub fn open_row(self) -> OpenRow
        ensures { result ≡ record { rows = self; row = [] } }
    {
        let Rows { ends, numbers } = self;
        let start = numbers.len();
        OpenRow {
            ends,
            numbers,
            start,
        }
    }

    /// Appends a row that consists of two parts.
    pub fn push_row(self, low: &[usize], high: &[usize]) -> Result<Rows, Memory>
        ensures { IfOk result (λ rows. rows ≡ self ++ (low.now ++ high.now) ∷ []) }
    {
        let mut row = self.open_row();
        row.extend(low)?;
        row.extend(high)?;
        row.close()
    }

    /// Appends other rows.
    pub fn append(self, later: Rows) -> Result<Rows, Memory>
        ensures { IfOk result (λ rows. rows ≡ self ++ later) }
    {
        let Rows {
            mut ends,
            mut numbers,
        } = self;
        let Rows {
            ends: later_ends,
            numbers: later_numbers,
        } = later;
        let before = numbers.len();
        numbers.extend_from_slice(&later_numbers)?;
        // Frees the numbers early: until here they are in memory twice.
        drop(later_numbers);
        push_ends(&mut ends, before, &later_ends)?;
        Ok(Rows { ends, numbers })
    }
}
