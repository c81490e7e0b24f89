//! A row whose numbers are appended one by one.
ghost use Rattle.std.specs.Prelude.{◌≡◌, ◌++◌, ◌∷◌, [], IfOk, OnOk};

use crate::rows::Rows;
use epx_types::Memory;
use std::marker::Model;

/// Rows, and the next row while its numbers are appended. They go where the row will be, so none
/// is moved.
#[derive(Debug, Drop)]
pub struct OpenRow {
    /// The ends of the rows that are complete.
    pub(crate) ends: Vec<usize>,
    pub(crate) numbers: Vec<usize>,
    /// Where the open row begins in `numbers`.
    pub(crate) start: usize,
}

impl Model for OpenRow {
    ghost use Rattle.std.specs.Prelude.{◌≤◌, length, drop};
    ghost use Rattle.epx_rows.specs.between.OpenRows.{OpenRowView};
    ghost use Rattle.epx_rows.specs.RowEnds.{rows_from, AreRowEnds};

    ghost Value = { OpenRowView };

    ghost view = { λ r. record {
      rows = rows_from 0 r.ends.items r.numbers.items;
      row = drop r.start r.numbers.items;
    } };

    ghost invariant = { λ r. AreRowEnds 0 r.ends.items r.start
        × (r.start ≤ length r.numbers.items) };
}

impl OpenRow {
    /// Appends a number to the row.
    pub fn push(&mut self, number: usize) -> Result<(), Memory>
        ensures { OnOk result (self.new ≡ record {
          rows = self.old.rows;
          row = self.old.row ++ number ∷ [];
        }) }
    {
        self.numbers.push(number)?;
        Ok(())
    }

    /// Appends numbers to the row.
    pub fn extend(&mut self, numbers: &[usize]) -> Result<(), Memory>
        ensures { OnOk result (self.new ≡ record {
          rows = self.old.rows;
          row = self.old.row ++ numbers.now;
        }) }
    {
        self.numbers.extend_from_slice(numbers)?;
        Ok(())
    }

    /// Ends the row.
    pub fn close(self) -> Result<Rows, Memory>
        ensures { IfOk result (λ rows. rows ≡ self.rows ++ self.row ∷ []) }
    {
        let OpenRow {
            mut ends,
            numbers,
            start: _,
        } = self;
        ends.push(numbers.len())?;
        Ok(Rows { ends, numbers })
    }
}
