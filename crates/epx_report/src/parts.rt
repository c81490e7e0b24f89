//! What the lines of a base say, by kind.
ghost use Rattle.std.specs.Prelude.{◌≡◌, ◌++◌, [], true, length, IfOk, IfSome};
ghost use Rattle.std.specs.List.{list_any};
ghost use Rattle.std.specs.List.Sorted.{IsPermutation};
ghost use Rattle.std.specs.FinMap as contents;
ghost use Rattle.epx_types.specs.Done.{is_among};
ghost use Rattle.epx_types.specs.Ids.{IsRising};
ghost use Rattle.epx_report.specs.inner.Progress.{some_if};
ghost use Rattle.epx_report.specs.between.PutPairs.{put_pairs};
ghost use Rattle.epx_report.specs.inner.LinesByKind.{with_done, with_reply, with_waiting};
ghost use Rattle.epx_report.specs.inner.LinesByKind.{with_stored, with_next, Rise, IsBaseOf};

use crate::base::Base;
use crate::from_value::{BaseLine, Counts};
use crate::id_set::{contains_id, is_after_last};
use crate::line_parts::Unread;
use crate::progress::store_of;
use epx_store::Store;
use epx_types::entry::is_rising;
use epx_types::{Id, Key, Memory, Plan};
use std::alloc::Global;
use std::marker::Model;
use std::thread::{Threads, join};

/// A store of fewer keys than this is filled by the same thread.
const MIN_KEYS: usize = 1_024;

/// The instances of done lines and of reply lines, by rising Id. None if one is named twice.
fn sort_done(done: Vec<Id>, replied: Vec<Id>) -> Result<Option<Vec<Id>>, Memory>
    ensures { IfOk result (λ sorted. IfSome sorted (λ ids. IsRising ids.items
        × IsPermutation (done.items ++ replied.items) ids.items)) }
{
    let mut ids = done;
    let mut replied = replied;
    ids.append(&mut replied)?;
    ids.sort_unstable();
    if !is_rising(&ids) {
        return Ok(None);
    }
    Ok(Some(ids))
}

/// The store of these values, and the done instances. With several workers another thread fills a
/// store of many keys.
fn fill_and_sort<R: Threads>(
    rt: &R,
    alloc: Global,
    stored: Vec<(Key, i64)>,
    done: Vec<Id>,
    replied: Vec<Id>,
    plan: Plan,
) -> (Result<Store, Memory>, Result<Option<Vec<Id>>, Memory>)
    ensures store { IfOk result.0 (λ s. s ≡ put_pairs stored.items contents.empty) }
    ensures done { IfOk result.1 (λ sorted. IfSome sorted (λ ids. IsRising ids.items
        × IsPermutation (done.items ++ replied.items) ids.items)) }
{
    if plan.workers() == 1 || stored.len() < MIN_KEYS {
        return (store_of(alloc, stored), sort_done(done, replied));
    }
    join(
        rt,
        move || -> Result<Store, Memory>
            ensures { IfOk result (λ s. s ≡ put_pairs stored.items contents.empty) }
        { store_of(alloc, stored) },
        move || -> Result<Option<Vec<Id>>, Memory>
            ensures { IfOk result (λ sorted. IfSome sorted (λ ids. IsRising ids.items
                × IsPermutation (done.items ++ replied.items) ids.items)) }
        { sort_done(done, replied) },
    )
}

/// Whether an instance of a waiting line is done.
fn is_any_done(waiting: &[Id], ids: &[Id]) -> bool
    requires { IsRising ids.now }
    ensures { result ≡ list_any (λ x. is_among ids.now x) waiting.now }
{
    waiting.iter().any(|id| contains_id(ids, *id))
}

/// The lines so far, by kind.
#[derive(Drop)]
pub(crate) struct Parts {
    counts: Counts,
    /// The instances of done lines, of reply lines and of waiting lines.
    done: Vec<Id>,
    replied: Vec<Id>,
    waiting: Vec<Id>,
    /// The keys and values of store lines.
    stored: Vec<(Key, i64)>,
}

impl Model for Parts {
    ghost use Rattle.epx_report.specs.Bases.{BaseParts};

    ghost Value = { BaseParts };

    ghost view = { λ p. record {
      counts = p.counts;
      done = p.done.items;
      replied = p.replied.items;
      waiting = p.waiting.items;
      stored = p.stored.items;
    } };
}

impl Parts {
    /// The header alone.
    pub(crate) fn new(alloc: Global, counts: Counts) -> Parts
        ensures { result
            ≡ record { counts = counts; done = []; replied = []; waiting = []; stored = [] } }
    {
        Parts {
            counts,
            done: Vec::new(alloc),
            replied: Vec::new(alloc),
            waiting: Vec::new(alloc),
            stored: Vec::new(alloc),
        }
    }

    /// Takes one more done line. False after a reply, waiting or store line, or if its Id is not
    /// greater than that of the last done line.
    fn take_done(&mut self, id: Id) -> Result<bool, Memory>
        ensures { IfOk result (λ follows. with_done self.old id ≡ some_if follows self.new) }
    {
        if !self.replied.is_empty() || !self.waiting.is_empty() || !self.stored.is_empty() {
            return Ok(false);
        }
        if !is_after_last(self.done.last(), &id) {
            return Ok(false);
        }
        self.done.push(id)?;
        Ok(true)
    }

    /// Takes one more reply line. False after a waiting or store line. Whether the instance is in
    /// two lines is found by `into_base`.
    fn take_reply(&mut self, id: Id) -> Result<bool, Memory>
        ensures { IfOk result (λ follows. with_reply self.old id ≡ some_if follows self.new) }
    {
        if !self.waiting.is_empty() || !self.stored.is_empty() {
            return Ok(false);
        }
        self.replied.push(id)?;
        Ok(true)
    }

    /// Takes one more waiting line. False after a store line, or if its Id is not greater than
    /// that of the last waiting line.
    fn take_waiting(&mut self, id: Id) -> Result<bool, Memory>
        ensures { IfOk result (λ follows. with_waiting self.old id ≡ some_if follows self.new) }
    {
        if !self.stored.is_empty() || !is_after_last(self.waiting.last(), &id) {
            return Ok(false);
        }
        self.waiting.push(id)?;
        Ok(true)
    }

    /// Takes one more store line. False if its key is not greater than that of the last one.
    fn take_stored(&mut self, key: Key, value: i64) -> Result<bool, Memory>
        ensures { IfOk result (λ follows. with_stored self.old key value
            ≡ some_if follows self.new) }
    {
        if !is_after_last(self.stored.last().map(|pair| &pair.0), &key) {
            return Ok(false);
        }
        self.stored.push((key, value))?;
        Ok(true)
    }

    /// Takes one more line. False if it may not follow, as a second header may not.
    #[tactic(auto, unfolding(crate::specs::inner::LinesByKind::with_next))]
    pub(crate) fn take(&mut self, line: BaseLine) -> Result<bool, Memory>
        ensures { IfOk result (λ follows. with_next self.old line ≡ some_if follows self.new) }
    {
        match line {
            BaseLine::Header(_) => Ok(false),
            BaseLine::Done(id) => self.take_done(id),
            BaseLine::Reply(id) => self.take_reply(id),
            BaseLine::Waiting(id) => self.take_waiting(id),
            BaseLine::Store { key, value } => self.take_stored(key, value),
        }
    }

    /// Whether there are as many lines as the header says.
    fn are_counted(&self) -> bool
        ensures replies { result ≡ true → length self.now.replied ≡ self.now.counts.executed }
        ensures waiting { result ≡ true → length self.now.waiting ≡ self.now.counts.waiting }
    {
        self.replied.len() as u64 == self.counts.executed
            && self.waiting.len() as u64 == self.counts.waiting
    }

    /// The base of these parts, if they are all parts of one.
    pub(crate) fn into_base<R: Threads>(
        self,
        rt: &R,
        alloc: Global,
        plan: Plan,
    ) -> Result<Base, Unread>
        ensures { IfOk result (λ b. Rise self → IsBaseOf self b.done b.stored) }
    {
        if !self.are_counted() {
            return Err(Unread);
        }
        let Parts {
            done,
            replied,
            waiting,
            stored,
            ..
        } = self;
        let (store, sorted) = fill_and_sort(rt, alloc, stored, done, replied, plan);
        let Some(ids) = sorted? else {
            return Err(Unread);
        };
        if is_any_done(&waiting, &ids) {
            return Err(Unread);
        }
        Ok(Base::new(ids, store?))
    }
}
