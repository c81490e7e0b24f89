//! A set of Ids that mostly arrive in rising order.
ghost use Rattle.std.specs.Prelude.{◌≡◌, [], not, IfOk, OnOk, option_copied};
ghost use Rattle.std.specs.BTreeSet.{insert_key};
ghost use Rattle.epx_types.specs.Ids.{id_cmp, IsRising};
ghost use Rattle.epx_types.specs.Done.{is_among};
ghost use Rattle.epx_report.specs.inner.Progress.{last, is_after_last};

use epx_types::id_list::find_id;
use epx_types::{Id, Memory};
use std::alloc::Global;
use std::collections::BTreeSet;
use std::marker::Model;

/// Whether the item is greater than the last one. True if there is no last one.
pub(crate) fn is_after_last<T: Ord>(last: Option<&T>, item: &T) -> bool
    ensures { result ≡ is_after_last T.cmp (option_copied last.entry) item.now }
{
    match last {
        Some(last) => last.cmp(item).is_lt(),
        None => true,
    }
}

/// Whether the Id is among rising ones, by binary search.
pub(crate) fn contains_id(rising: &[Id], id: Id) -> bool
    requires { IsRising rising.now }
    ensures { result ≡ is_among rising.now id }
{
    find_id(rising, id).is_some()
}

/// A set of Ids. Contracts see it as the rising list of its Ids. To insert an Id that is greater
/// than all others is only a push.
#[derive(Drop)]
pub(crate) struct IdSet {
    /// The Ids that were greater than all earlier ones.
    rising: Vec<Id>,
    /// The other Ids.
    late: BTreeSet<Id>,
}

impl Model for IdSet {
    ghost use Rattle.std.specs.Prelude.{List};
    ghost use Rattle.std.specs.Coded.{coded_list};
    ghost use Rattle.epx_types.specs.declared.id.Id.{Id};
    ghost use Rattle.epx_report.specs.between.DoneAndStored.{id_code};
    ghost use Rattle.epx_report.specs.inner.IdSets.{AreRisingAndLate, with_late};

    ghost Value = { List Id };

    ghost coded = { coded_list id_code };

    ghost view = { λ s. with_late s.rising.items s.late.keys };

    ghost invariant = { λ s. AreRisingAndLate s.rising.items s.late.keys };
}

impl IdSet {
    /// Returns an empty set.
    pub(crate) fn new(alloc: Global) -> IdSet
        ensures { result ≡ [] }
    {
        IdSet {
            rising: Vec::new(alloc),
            late: BTreeSet::new(alloc),
        }
    }

    /// The greatest Id. None if the set is empty.
    pub(crate) fn last(&self) -> Option<&Id>
        ensures { option_copied result ≡ last self.now }
    {
        self.rising.last()
    }

    /// Whether the Id is in the set. Takes O(log n) time for n Ids.
    pub(crate) fn contains(&self, id: &Id) -> bool
        ensures { result ≡ is_among self.now id.now }
    {
        contains_id(&self.rising, *id) || self.late.contains(id)
    }

    /// Inserts an Id. Returns true if it is new.
    pub(crate) fn insert(&mut self, id: Id) -> Result<bool, Memory>
        ensures added { IfOk result (λ added. added ≡ not (is_among self.old id)) }
        ensures ids { OnOk result (self.new ≡ insert_key id_cmp self.old id) }
    {
        if is_after_last(self.rising.last(), &id) {
            self.rising.push(id)?;
            return Ok(true);
        }
        if contains_id(&self.rising, id) {
            return Ok(false);
        }
        Ok(self.late.insert(id)?)
    }

    /// Returns the Ids in rising order. If they arrived in that order, nothing is sorted.
    pub(crate) fn into_vec(self) -> Result<Vec<Id>, Memory>
        ensures ids { IfOk result (λ ids. ids.items ≡ self) }
        ensures rising { IfOk result (λ ids. IsRising ids.items) }
    {
        let IdSet {
            rising: mut ids,
            late,
        } = self;
        if late.is_empty() {
            return Ok(ids);
        }
        for id in late {
            ids.push(id)?;
        }
        ids.sort()?;
        ids.dedup();
        Ok(ids)
    }
}
