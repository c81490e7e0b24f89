//! What is left of a committed map once some of its instances are done.
ghost use Rattle.std.specs.Prelude.{◌≡◌, ◌↔◌, ◌<◌, length, slice_get, Contains, IsTrue, Some};
ghost use Rattle.std.specs.Prelude.{IfOk};
ghost use Rattle.epx_types.specs.CommittedMap.{ids_of};
ghost use Rattle.epx_types.specs.Done.{remaining_ids, without_deps};
ghost use Rattle.epx_types.specs.Ids.{IsRising};
ghost use Rattle.epx_graph.specs.inner.Remainder.{IsIdStateOf, IsAtPosition, rest_of};

use crate::neighbours::is_absent;
use epx_committed::{Merged, PositionHints};
use epx_types::id_list::find_id;
use epx_types::{Entry, Id, Memory};
use std::alloc::Global;
use std::marker::Model;

/// What an Id is once some instances are done.
#[derive(Clone, Copy, Debug)]
pub(crate) enum IdState {
    /// At this position among the instances that are left.
    Left(usize),
    Done,
    /// Neither committed nor done.
    Missing,
}

/// A committed map and the instances of it that are done.
#[derive(Debug)]
pub(crate) struct Remainder<'a> {
    merged: &'a Merged,
    done: &'a [Id],
    /// Hints at the positions of the done instances.
    hints: PositionHints,
    /// The position in the map of each instance that is left. Empty if nothing is done: the whole
    /// map is left then, and no look-up needs a table.
    positions: Vec<usize>,
    /// For each instance of the map, its position among those that are left, if it is left. Empty
    /// if nothing is done.
    positions_left: Vec<Option<usize>>,
}

impl Drop for Remainder<'_> {
    fn drop(self) {
        let Remainder {
            merged: _,
            done: _,
            hints: _,
            positions: _,
            positions_left: _,
        } = self;
    }
}

impl<'a> Model for Remainder<'a> {
    ghost use Rattle.std.specs.Prelude.{◌<◌, length};
    ghost use Rattle.epx_types.specs.CommittedMap.{ids_of};
    ghost use Rattle.epx_types.specs.Ids.{IsRising};
    ghost use Rattle.epx_graph.specs.inner.Remainder.{ArePositionTables, RemainderView};

    ghost Value = { RemainderView };

    ghost view = { λ l. record { whole = l.merged.now; done = l.done.now } };

    ghost invariant = { λ l.
        let r : RemainderView = record { whole = l.merged.now; done = l.done.now } in
        IsRising (ids_of r.whole) × IsRising r.done
        × (0 < length r.done → ArePositionTables r l.positions.items l.positions_left.items
        (length r.whole)) };
}

/// Whether the Id at this position of the done ones is the given one.
fn has_id_at(done: &[Id], index: usize, id: Id) -> bool
    ensures { IsTrue result → Contains done.now id }
{
    index < done.len() && done[index] == id
}

/// Whether the Id is at its hinted position, which shows that it is done.
fn is_at_hint(done: &[Id], hints: &PositionHints, id: Id) -> bool
    ensures { IsTrue result → Contains done.now id }
{
    match hints.hint(id) {
        Some(index) => has_id_at(done, index, id),
        None => false,
    }
}

/// Whether an Id is done. The hint is usually right; otherwise a binary search decides.
fn is_done(done: &[Id], hints: &PositionHints, id: Id) -> bool
    requires { IsRising done.now }
    ensures { IsTrue result ↔ Contains done.now id }
{
    is_at_hint(done, hints, id) || find_id(done, id).is_some()
}

/// The first position, from `start` on, whose Id is not below the given one.
fn first_not_below(done: &[Id], start: usize, id: Id) -> usize {
    let mut index = start;
    while index < done.len() && done[index] < id {
        index += 1;
    }
    index
}

/// Whether an Id is done. Its neighbours at a position usually show it; otherwise a binary search
/// decides.
fn is_done_near(done: &[Id], index: usize, id: Id) -> bool
    requires { IsRising done.now }
    ensures { IsTrue result ↔ Contains done.now id }
{
    if has_id_at(done, index, id) {
        return true;
    }
    !is_absent(done, index, id) && find_id(done, id).is_some()
}

impl<'a> Remainder<'a> {
    /// What is left of a map. Takes time n log n if something is done, and constant time if
    /// nothing is.
    pub(crate) fn new(
        alloc: Global,
        merged: &'a Merged,
        done: &'a [Id],
    ) -> Result<Remainder<'a>, Memory>
        requires { IsRising done.now }
        ensures { IfOk result (λ left. left ≡ record { whole = merged.now; done = done.now }) }
    {
        let hints = PositionHints::of(alloc, done.iter().copied())?;
        let mut positions = Vec::new(alloc);
        let mut positions_left = Vec::new(alloc);
        let all = merged.len();
        let tabled = if done.is_empty() { 0 } else { all };
        let mut below = 0;
        for position in 0..tabled {
            let id = merged.id_at(position);
            // Both lists rise, so one pass over the done Ids is enough.
            below = first_not_below(done, below, id);
            if is_done_near(done, below, id) {
                positions_left.push(None)?;
                continue;
            }
            positions_left.push(Some(positions.len()))?;
            positions.push(position)?;
        }
        Ok(Remainder {
            merged,
            done,
            hints,
            positions,
            positions_left,
        })
    }

    /// How many instances are left.
    pub(crate) fn len(&self) -> usize
        ensures len { result ≡ length (rest_of self.now) }
        ensures rising { IsRising (ids_of (rest_of self.now)) }
    {
        if self.done.is_empty() {
            return self.merged.len();
        }
        self.positions.len()
    }

    /// The position in the map of the instance at a position of those that are left.
    fn position_at(&self, index: usize) -> usize
        requires { index < length (rest_of self.now) }
        ensures { IsAtPosition self.now result index }
    {
        if self.done.is_empty() {
            return index;
        }
        self.positions[index]
    }

    /// The Id of the instance at a position of those that are left.
    pub(crate) fn id_at(&self, index: usize) -> Id
        requires { index < length (rest_of self.now) }
        ensures { slice_get (ids_of (rest_of self.now)) index ≡ Some result }
    {
        self.merged.id_at(self.position_at(index))
    }

    /// The entry at a position of those that are left. It still has its done dependencies.
    pub(crate) fn entry_at(&self, index: usize) -> &Entry
        requires { index < length (rest_of self.now) }
        ensures { slice_get (rest_of self.now) index
            ≡ Some (without_deps self.now.done result.now) }
    {
        self.merged.entry_at(self.position_at(index))
    }

    /// Whether an Id is left, done or missing.
    pub(crate) fn look_up(&self, id: Id) -> IdState
        ensures { IsIdStateOf self.now id result }
    {
        // Most done Ids are not in the map: this test avoids a search of the map in vain.
        if is_at_hint(self.done, &self.hints, id) {
            return IdState::Done;
        }
        if let Some(position) = self.merged.position(id) {
            if self.done.is_empty() {
                return IdState::Left(position);
            }
            return match self.positions_left[position] {
                Some(index) => IdState::Left(index),
                None => IdState::Done,
            };
        }
        if is_done(self.done, &self.hints, id) {
            IdState::Done
        } else {
            IdState::Missing
        }
    }

    /// How many of the Ids are not done.
    pub(crate) fn count_undone(&self, ids: &[Id]) -> usize
        ensures { result ≡ length (remaining_ids self.now.done ids.now) }
    {
        if self.done.is_empty() {
            return ids.len();
        }
        let mut count = 0;
        for id in ids {
            if is_done(self.done, &self.hints, *id) {
                continue;
            }
            count += 1;
        }
        count
    }
}
