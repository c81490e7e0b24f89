//! Finds the calls of a history by their instances.
ghost use Rattle.std.specs.Prelude.{◌≡◌, List, true, map, Contains, IfOk, IfSome, MatchOption};
ghost use Rattle.epx_types.specs.declared.id.Id.{Id};
ghost use Rattle.epx_types.specs.Ids.{IsRising};
ghost use Rattle.epx_linear.specs.ClientCalls.{IsHistory};
ghost use Rattle.epx_linear.specs.inner.CallRows.{AreCallRows, AreRowsInOrder, id_position};
ghost use Rattle.epx_linear.specs.inner.HistoryReadings.{called_ids};

use crate::client_call::ClientCall;
use epx_committed::PositionHints;
use epx_types::{Id, Memory};
use rayon::prelude::*;
use std::alloc::Global;
use std::marker::Model;
use std::thread::Threads;

/// The instance of a call, and the position of the call.
#[derive(Clone, Copy, Debug, PartialEq, Eq, PartialOrd, Ord)]
pub(crate) struct CallRow {
    pub(crate) id: Id,
    pub(crate) at: usize,
}

/// The rows of calls, by rising Id.
#[derive(Debug, Drop)]
pub(crate) struct CallTable {
    rows: Vec<CallRow>,
    hints: PositionHints,
}

impl Model for CallTable {
    ghost use Rattle.std.specs.Prelude.{List, map};
    ghost use Rattle.epx_types.specs.Ids.{IsRising};
    ghost use Rattle.epx_linear.specs.declared.call_table.CallRow.{CallRow};

    ghost Value = { List CallRow };

    ghost view = { λ t. t.rows.items };

    ghost invariant = { λ t. IsRising (map (λ r. r.id) t.rows.items) };
}

/// Returns the rows of calls, in the order of the calls.
fn rows_of(alloc: Global, calls: &[ClientCall]) -> Result<Vec<CallRow>, Memory>
    ensures { IfOk result (λ rows. AreRowsInOrder (called_ids calls.now) rows.items) }
{
    let mut rows = Vec::with_capacity(alloc, calls.len())?;
    for at in 0..calls.len() {
        let id = calls[at].id;
        rows.push(CallRow { id, at })?;
    }
    Ok(rows)
}

/// Whether the Ids of rows rise.
fn is_rising(rows: &[CallRow]) -> bool
    ensures { result ≡ true → IsRising (map (λ r. r.id) rows.now) }
{
    for index in 1..rows.len() {
        if !rows[index - 1].id.cmp(&rows[index].id).is_lt() {
            return false;
        }
    }
    true
}

/// Returns the rows of calls, sorted by their Ids.
fn sorted_rows<R: Threads + Sync>(
    rt: &R,
    alloc: Global,
    calls: &[ClientCall],
) -> Result<Vec<CallRow>, Memory>
    ensures rows { IfOk result (λ rows. AreCallRows (called_ids calls.now) rows.items) }
    ensures rising { IfOk result
        (λ rows. IsHistory calls.now → IsRising (map (λ r. r.id) rows.items)) }
{
    let mut rows = rows_of(alloc, calls)?;
    par_sort_unstable(rt, &mut rows);
    Ok(rows)
}

/// The row of an Id, by binary search.
fn find_row(rows: &[CallRow], id: Id) -> Option<CallRow>
    requires { IsRising (map (λ r. r.id) rows.now) }
    ensures { MatchOption result (¬ Contains (map (λ r. r.id) rows.now) id)
        (λ r. Contains rows.now r × (r.id ≡ id)) }
{
    let found = rows.binary_search_by_key(
        &id,
        |row: &CallRow| -> Id
            ensures { result ≡ row.now.id }
        { row.id },
    );
    match found {
        Ok(index) => Some(rows[index]),
        Err(_) => None,
    }
}

impl CallTable {
    /// Returns the table of rows.
    fn of_rows(alloc: Global, rows: Vec<CallRow>) -> Result<CallTable, Memory>
        requires { IsRising (map (λ r. r.id) rows.items) }
        ensures { IfOk result (λ table. table ≡ rows.items) }
    {
        let hints = PositionHints::of(alloc, rows.iter().map(|row| row.id))?;
        Ok(CallTable { rows, hints })
    }

    /// Returns the table of calls, of which no two are of one instance.
    pub(crate) fn new<R: Threads + Sync>(
        rt: &R,
        alloc: Global,
        calls: &[ClientCall],
    ) -> Result<CallTable, Memory>
        requires { IsHistory calls.now }
        ensures { IfOk result (AreCallRows (called_ids calls.now)) }
    {
        let rows = sorted_rows(rt, alloc, calls)?;
        CallTable::of_rows(alloc, rows)
    }

    /// Returns the table of calls. None if two of them are of one instance.
    pub(crate) fn of<R: Threads + Sync>(
        rt: &R,
        alloc: Global,
        calls: &[ClientCall],
    ) -> Result<Option<CallTable>, Memory>
        ensures rows { IfOk result (λ o. IfSome o (AreCallRows (called_ids calls.now))) }
        ensures history { IfOk result (λ o. IfSome o (λ table. IsHistory calls.now)) }
    {
        let rows = sorted_rows(rt, alloc, calls)?;
        if !is_rising(&rows) {
            return Ok(None);
        }
        Ok(Some(CallTable::of_rows(alloc, rows)?))
    }

    /// Returns the position of the call of an instance. Its hint is usually right; otherwise a
    /// binary search finds it.
    pub(crate) fn find(&self, id: Id) -> Option<usize>
        ensures { (ids : List Id) → AreCallRows ids self.now → result ≡ id_position ids id }
    {
        if let Some(place) = self.hints.hint(id) {
            if place < self.rows.len() {
                let row = self.rows[place];
                if row.id == id {
                    return Some(row.at);
                }
            }
        }
        match find_row(&self.rows, id) {
            Some(row) => Some(row.at),
            None => None,
        }
    }
}
