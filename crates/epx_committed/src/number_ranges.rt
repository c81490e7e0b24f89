//! Ranges of consecutive numbers, by which most instances are found at once.
ghost use Rattle.std.specs.Prelude.{◌≡◌, ◌≤◌, ◌<◌, List, Some, IfOk, IfSome, IsTrue, OnOk};
ghost use Rattle.std.specs.Prelude.{length, map, slice_get};
ghost use Rattle.epx_types.specs.declared.id.Id.{Id};
ghost use Rattle.epx_committed.specs.inner.NumberRanges.{AreRangesIn, IsInRange, Lengthens};
ghost use Rattle.epx_committed.specs.inner.NumberRanges.{position_in, range_of};

use crate::rows::Row;
use epx_types::{Id, Memory};
use std::alloc::Global;

/// Consecutive numbers of one replica. Their instances are one after another in a list by rising
/// Id.
#[derive(Clone, Copy, Debug)]
pub(crate) struct NumberRange {
    first: u64,
    /// The number after the last one.
    end: u64,
    /// The position of the instance with the first number.
    position: usize,
}

/// A range without numbers.
const NO_NUMBERS: NumberRange = NumberRange {
    first: 0,
    end: 0,
    position: 0,
};

impl NumberRange {
    /// The position of a number, counted from that of the first one.
    fn count_to(&self, number: u64) -> Option<usize>
        ensures first { IfSome result (λ _. self.now.first ≤ number) }
        ensures position { IfSome result (λ k. k ≡ position_in self.now number) }
    {
        let after = number.checked_sub(self.first)?;
        self.position.checked_add(after as usize)
    }

    /// The position of a number, if the range has it.
    fn find(&self, number: u64) -> Option<usize>
        ensures number { IfSome result (λ _. IsInRange self.now number) }
        ensures position { IfSome result (λ k. k ≡ position_in self.now number) }
    {
        if number < self.end {
            self.count_to(number)
        } else {
            None
        }
    }

    /// Whether a number at a position continues the range.
    fn is_next(&self, number: u64, position: usize) -> bool
        ensures { IsTrue result
            → (number ≡ self.now.end) × (position ≡ position_in self.now number) }
    {
        match self.count_to(number) {
            Some(next) => number == self.end && position == next,
            None => false,
        }
    }

    /// The range with one more number, which is at this position. If these do not continue it, the
    /// range stays as it is.
    fn with_next(self, number: u64, position: usize) -> NumberRange
        ensures { Lengthens self number position result }
    {
        let end = number.saturating_add(1);
        if self.first == self.end {
            return NumberRange {
                first: number,
                end,
                position,
            };
        }
        if self.is_next(number, position) {
            return NumberRange { end, ..self };
        }
        self
    }
}

/// For each replica, the numbers from its first instance up to its first gap.
#[derive(Debug, Drop)]
pub(crate) struct NumberRanges {
    ranges: Vec<NumberRange>,
}

/// Makes ranges, each without numbers, up to a replica.
fn make_ranges(ranges: &mut Vec<NumberRange>, replica: u8) -> Result<(), Memory>
    ensures len { OnOk result (replica < length ranges.new.items) }
    ensures same { (x : Id) → range_of ranges.new.items x ≡ range_of ranges.old.items x }
{
    while ranges.len() <= replica as usize {
        ranges.push(NO_NUMBERS)?;
    }
    Ok(())
}

/// Notes that an instance is at a position.
fn note(ranges: &mut Vec<NumberRange>, id: Id, position: usize) -> Result<(), Memory>
    ensures { OnOk result ((ids : List Id) → slice_get ids position ≡ Some id
        → AreRangesIn ids ranges.old.items → AreRangesIn ids ranges.new.items) }
{
    make_ranges(ranges, id.replica)?;
    let replica = id.replica as usize;
    ranges[replica] = ranges[replica].with_next(id.number, position);
    Ok(())
}

impl NumberRanges {
    /// The ranges of the Ids of rows.
    pub(crate) fn of_rows(alloc: Global, rows: &[Row]) -> Result<NumberRanges, Memory>
        ensures { IfOk result
            (λ made. AreRangesIn (map (λ r. r.id) rows.now) made.ranges.items) }
    {
        let mut ranges = Vec::new(alloc);
        for (position, row) in rows.iter().enumerate() {
            note(&mut ranges, row.id, position)?;
        }
        Ok(NumberRanges { ranges })
    }

    /// How many numbers the ranges have.
    pub(crate) fn len(&self) -> u64 {
        let mut len: u64 = 0;
        for range in &self.ranges {
            len = len.saturating_add(range.end.saturating_sub(range.first));
        }
        len
    }

    /// The position of an instance, if it is in a range.
    pub(crate) fn find(&self, id: Id) -> Option<usize>
        ensures { IfSome result (λ k. (ids : List Id) → AreRangesIn ids self.now.ranges.items
            → slice_get ids k ≡ Some id) }
    {
        self.ranges.get(id.replica as usize)?.find(id.number)
    }
}
