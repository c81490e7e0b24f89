//! Reads what a replica says of itself: its replies, and its store.
ghost use Rattle.std.specs.Prelude.{◌≡◌, IfOk, IfErr, option_map};
ghost use Rattle.std.specs.FinMap as contents;
ghost use Rattle.epx_report.specs.ReportReadings.{replied_ids};
ghost use Rattle.epx_report.specs.between.PutPairs.{put_pairs};
ghost use Rattle.epx_report.specs.inner.Progress.{last, is_after_last, some_if};
ghost use Rattle.epx_types.specs.Keys.{key_cmp};
ghost use Rattle.epx_verify.specs.SaidTexts.{IsSaid, IsSaidFault};
ghost use Rattle.epx_verify.specs.inner.SaidReadings.{nothing_said, after_replied, after_stored};
ghost use Rattle.epx_verify.specs.inner.SaidReadings.{after_said, after_said_line};

use crate::said_line::{SaidLine, read_said_line};
use epx_lines::cut_line;
use epx_report::{BaseFault, store_of};
use epx_txn::Store;
use epx_types::{Id, Key, Memory, Reply};
use std::alloc::Global;
use std::marker::Model;

/// What a replica says of itself.
#[derive(Debug)]
pub struct Said {
    /// The instances and their replies, in the order in which the replica executed them.
    pub replies: Vec<(Id, Reply)>,
    /// The replica's store after them.
    pub store: Store,
}

impl Drop for Said {
    fn drop(self) {
        let Said {
            replies: _,
            store: _,
        } = self;
    }
}

impl Said {
    /// Returns the instances of the replies, in the order in which the replica executed them.
    pub fn ids(&self, alloc: Global) -> Result<Vec<Id>, Memory>
        ensures { IfOk result (λ ids. ids.items ≡ replied_ids self.now.replies.items) }
    {
        let mut ids = Vec::with_capacity(alloc, self.replies.len())?;
        for (id, _) in &self.replies {
            ids.push(*id)?;
        }
        Ok(ids)
    }
}

/// What the lines so far say.
#[derive(Drop)]
struct SaidSoFar {
    replies: Vec<(Id, Reply)>,
    /// By rising key.
    stored: Vec<(Key, i64)>,
}

impl Model for SaidSoFar {
    ghost use Rattle.epx_verify.specs.inner.SaidReadings.{SaidSoFar};

    ghost Value = { SaidSoFar };

    ghost view = { λ s. record { replies = s.replies.items; stored = s.stored.items } };
}

impl SaidSoFar {
    /// The state before the first line.
    fn new(alloc: Global) -> SaidSoFar
        ensures { result ≡ nothing_said }
    {
        SaidSoFar {
            replies: Vec::new(alloc),
            stored: Vec::new(alloc),
        }
    }

    /// Takes one more reply line. False if it is not allowed at its position.
    fn take_replied(&mut self, id: Id, reply: Reply) -> Result<bool, Memory>
        ensures { IfOk result (λ is_allowed. after_replied self.old id reply
            ≡ some_if is_allowed self.new) }
    {
        if !self.stored.is_empty() {
            return Ok(false);
        }
        self.replies.push((id, reply))?;
        Ok(true)
    }

    /// Whether the key is greater than that of the last store line.
    fn is_next_key(&self, key: &Key) -> bool
        ensures { result ≡ is_after_last key_cmp
            (option_map (λ e. e.0) (last self.now.stored)) key.now }
    {
        match self.stored.last() {
            Some((last, _)) => last < key,
            None => true,
        }
    }

    /// Takes one more store line. False if it is not allowed at its position.
    fn take_stored(&mut self, key: Key, value: i64) -> Result<bool, Memory>
        ensures { IfOk result (λ is_allowed. after_stored self.old key value
            ≡ some_if is_allowed self.new) }
    {
        if !self.is_next_key(&key) {
            return Ok(false);
        }
        self.stored.push((key, value))?;
        Ok(true)
    }

    /// Takes one more line that was read. False if it is not allowed at its position.
    #[tactic(auto, unfolding(crate::specs::inner::SaidReadings::after_said))]
    fn take(&mut self, line: SaidLine) -> Result<bool, Memory>
        ensures { IfOk result (λ is_allowed. after_said self.old line
            ≡ some_if is_allowed self.new) }
    {
        match line {
            SaidLine::Replied(id, reply) => self.take_replied(id, reply),
            SaidLine::Stored(key, value) => self.take_stored(key, value),
        }
    }

    /// Reads and takes one more line. False if it is not allowed at its position.
    fn take_line(&mut self, alloc: Global, bytes: &[u8]) -> Result<bool, Memory>
        ensures { IfOk result (λ is_allowed. after_said_line self.old bytes.now
            ≡ some_if is_allowed self.new) }
    {
        match read_said_line(alloc, bytes)? {
            Some(line) => self.take(line),
            None => Ok(false),
        }
    }

    /// Returns all that was said.
    fn into_said(self, alloc: Global) -> Result<Said, Memory>
        ensures replies { IfOk result (λ said. said.replies.items ≡ self.replies) }
        ensures stored { IfOk result (λ said. said.store
            ≡ put_pairs self.stored contents.empty) }
    {
        let SaidSoFar { replies, stored } = self;
        let store = store_of(alloc, stored)?;
        Ok(Said { replies, store })
    }
}

/// Reads what a replica says: reply lines in the order in which it executed, then store lines with
/// rising keys. No line is blank. Takes O(n log n) time for n bytes. Returns `Bad` with the first
/// line that is not allowed at its position, counted from 1, and `Memory` only if an allocation
/// fails.
pub fn read_said(alloc: Global, bytes: &[u8]) -> Result<Said, BaseFault>
    ensures said { IfOk result (λ said. IsSaid bytes.now said.replies.items said.store) }
    ensures bad { IfErr result (λ f. IsSaidFault bytes.now f) }
{
    let mut so_far = SaidSoFar::new(alloc);
    let mut rest = bytes;
    let mut line = 1;
    while !rest.is_empty() {
        let (next, more) = cut_line(rest);
        if !so_far.take_line(alloc, next)? {
            return Err(BaseFault::Bad { line });
        }
        rest = more;
        line += 1;
    }
    Ok(so_far.into_said(alloc)?)
}
