//! The state of reading the lines of a base one after another.
ghost use Rattle.std.specs.Prelude.{◌≡◌, None, IfOk};
ghost use Rattle.std.specs.FinMap as contents;
ghost use Rattle.epx_report.specs.inner.Progress.{nothing_seen, after_done, after_reply};
ghost use Rattle.epx_report.specs.inner.Progress.{after_waiting, after_store, after_with, after};
ghost use Rattle.epx_report.specs.inner.Progress.{some_if, is_complete};
ghost use Rattle.epx_report.specs.between.PutPairs.{put_pairs};
ghost use Rattle.epx_report.specs.inner.BaseReadings.{after_line};

use crate::base::Base;
use crate::from_value::{BaseLine, Counts};
use crate::id_set::{IdSet, is_after_last};
use crate::read::BaseLineReader;
use epx_store::Store;
use epx_types::{Id, Key, Memory};
use std::alloc::Global;
use std::marker::Model;

/// Puts the values into a new store, one after another: of two for one key the later one stays.
/// Takes n log n time. The only error is out of memory.
pub fn store_of(alloc: Global, pairs: Vec<(Key, i64)>) -> Result<Store, Memory>
    ensures { IfOk result (λ s. s ≡ put_pairs pairs.items contents.empty) }
{
    let mut store = Store::new(alloc);
    for (key, value) in pairs {
        store.put(key, value)?;
    }
    Ok(store)
}

/// What the lines so far say.
#[derive(Drop)]
pub(crate) struct Progress {
    /// The counts of the first line; None before it.
    counts: Option<Counts>,
    /// The instances of done lines and of reply lines.
    done: IdSet,
    /// The number of reply lines.
    replies: u64,
    /// The instances of waiting lines, in order.
    waiting: Vec<Id>,
    /// What the store lines say, in order.
    stored: Vec<(Key, i64)>,
}

impl Model for Progress {
    ghost use Rattle.epx_report.specs.inner.Progress.{Progress};

    ghost Value = { Progress };

    ghost view = { λ p. record {
      counts = p.counts;
      done = p.done;
      replies = p.replies;
      waiting = p.waiting.items;
      stored = p.stored.items;
    } };
}

impl Progress {
    /// The state before the first line.
    pub(crate) fn new(alloc: Global) -> Progress
        ensures { result ≡ nothing_seen }
    {
        Progress {
            counts: None,
            done: IdSet::new(alloc),
            replies: 0,
            waiting: Vec::new(alloc),
            stored: Vec::new(alloc),
        }
    }

    /// Takes one more done line. False after a reply, waiting or store line, or if its Id is not
    /// greater than that of the last done line.
    fn take_done(&mut self, id: Id) -> Result<bool, Memory>
        ensures { IfOk result (λ is_allowed. after_done self.old id ≡ some_if is_allowed self.new) }
    {
        if self.replies != 0 || !self.waiting.is_empty() || !self.stored.is_empty() {
            return Ok(false);
        }
        if !is_after_last(self.done.last(), &id) {
            return Ok(false);
        }
        self.done.insert(id)?;
        Ok(true)
    }

    /// Takes one more reply line. False if the header says that there are no more, or if the
    /// instance is done already.
    fn take_reply(&mut self, counts: Counts, id: Id) -> Result<bool, Memory>
        ensures { IfOk result (λ is_allowed. after_reply counts self.old id
            ≡ some_if is_allowed self.new) }
    {
        if self.replies >= counts.executed || !self.done.insert(id)? {
            return Ok(false);
        }
        self.replies += 1;
        Ok(true)
    }

    /// Takes one more waiting line. False if a reply line is missing, or if the header says that
    /// there are no more. False too if its Id is not greater than that of the last waiting line,
    /// or if its instance is done.
    fn take_waiting(&mut self, counts: Counts, id: Id) -> Result<bool, Memory>
        ensures { IfOk result (λ is_allowed. after_waiting counts self.old id
            ≡ some_if is_allowed self.new) }
    {
        if self.replies != counts.executed || self.waiting.len() as u64 >= counts.waiting {
            return Ok(false);
        }
        if !is_after_last(self.waiting.last(), &id) || self.done.contains(&id) {
            return Ok(false);
        }
        self.waiting.push(id)?;
        Ok(true)
    }

    /// Takes one more store line. False if a reply line or a waiting line is missing, or if its
    /// key is not greater than that of the last store line.
    fn take_store(&mut self, counts: Counts, key: Key, value: i64) -> Result<bool, Memory>
        ensures { IfOk result (λ is_allowed. after_store counts self.old key value
            ≡ some_if is_allowed self.new) }
    {
        if self.replies != counts.executed || self.waiting.len() as u64 != counts.waiting {
            return Ok(false);
        }
        if !is_after_last(self.stored.last().map(|pair| &pair.0), &key) {
            return Ok(false);
        }
        self.stored.push((key, value))?;
        Ok(true)
    }

    /// Takes the first line. False if it is not a header.
    fn take_first(&mut self, line: BaseLine) -> bool
        ensures { after_with None self.old line ≡ some_if result self.new }
    {
        match line {
            BaseLine::Header(counts) => {
                self.counts = Some(counts);
                true
            }
            _ => false,
        }
    }

    /// Takes one more line that was read. False if it is not allowed at its position.
    #[tactic(auto, unfolding(crate::specs::inner::Progress::after))]
    pub(crate) fn take(&mut self, line: BaseLine) -> Result<bool, Memory>
        ensures { IfOk result (λ is_allowed. after self.old line ≡ some_if is_allowed self.new) }
    {
        let Some(counts) = self.counts else {
            return Ok(self.take_first(line));
        };
        match line {
            BaseLine::Header(_) => Ok(false),
            BaseLine::Done(id) => self.take_done(id),
            BaseLine::Reply(id) => self.take_reply(counts, id),
            BaseLine::Waiting(id) => self.take_waiting(counts, id),
            BaseLine::Store { key, value } => self.take_store(counts, key, value),
        }
    }

    /// Reads and takes one more line. False if it is not allowed at its position.
    pub(crate) fn take_line(
        &mut self,
        alloc: Global,
        reader: &mut BaseLineReader,
        bytes: &[u8],
    ) -> Result<bool, Memory>
        ensures { IfOk result (λ is_allowed. after_line self.old bytes.now
            ≡ some_if is_allowed self.new) }
    {
        match reader.read(alloc, bytes)? {
            Some(line) => self.take(line),
            None => Ok(false),
        }
    }

    /// Whether no line is missing.
    pub(crate) fn is_complete(&self) -> bool
        ensures { result ≡ is_complete self.now }
    {
        match self.counts {
            Some(counts) => {
                self.replies == counts.executed && self.waiting.len() as u64 == counts.waiting
            }
            None => false,
        }
    }

    /// Returns the base: the done instances and the store.
    pub(crate) fn into_base(self, alloc: Global) -> Result<Base, Memory>
        ensures done { IfOk result (λ b. b.done ≡ self.done) }
        ensures stored { IfOk result (λ b. b.stored ≡ put_pairs self.stored contents.empty) }
    {
        let Progress { done, stored, .. } = self;
        Ok(Base::new(done.into_vec()?, store_of(alloc, stored)?))
    }
}
