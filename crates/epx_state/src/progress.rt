//! Takes the lines of a state one after another.
ghost use Rattle.std.specs.Prelude.{◌≡◌, ◌↔◌, ◌<◌, ◌^◌, IfOk, IfSome, Contains, length};
ghost use Rattle.std.specs.Prelude.{option_copied};
ghost use Rattle.epx_types.specs.Done.{is_among};
ghost use Rattle.epx_types.specs.Ids.{id_cmp};
ghost use Rattle.epx_types.specs.declared.id.Id.{Id};
ghost use Rattle.epx_executor.specs.Runs.{AreFilled, IsFilledRun, IsInRuns, end_of, ids_in};
ghost use Rattle.epx_executor.specs.Runs.{start_of};
ghost use Rattle.epx_report.specs.inner.Progress.{is_after_last, some_if};
ghost use Rattle.epx_state.specs.inner.StateProgress.{after_counts, after_entry, past_line};
ghost use Rattle.epx_state.specs.inner.StateProgress.{after_pair, after_part, after_run};
ghost use Rattle.epx_state.specs.inner.StateProgress.{is_whole_state, before_lines};

use crate::forms::{StateCounts, read_counts_line, read_entry_line, read_pair_line, read_run_line};
use epx_executor::{DoneRuns, Run};
use epx_lines::LineReader;
use epx_types::{Entry, Id, Key, Memory};
use std::alloc::Global;
use std::marker::Model;

/// The Id with the first number of a run.
fn start(run: &Run) -> Id
    ensures { result ≡ start_of run.now }
{
    Id {
        replica: run.replica,
        number: run.first,
    }
}

/// The Id with the last number of a run.
fn end(run: &Run) -> Id
    ensures { result ≡ end_of run.now }
{
    Id {
        replica: run.replica,
        number: run.last,
    }
}

/// Whether the item is greater than the last one. True if there is no last one.
fn is_after_last<T: Ord>(last: Option<&T>, item: &T) -> bool
    ensures { result ≡ is_after_last T.cmp (option_copied last.entry) item.now }
{
    match last {
        Some(last) => last.cmp(item).is_lt(),
        None => true,
    }
}

/// Whether an Id is greater than the last one. True if there is no last one.
fn is_after(last: Option<Id>, id: Id) -> bool
    ensures { result ≡ is_after_last id_cmp last id }
{
    is_after_last(last.as_ref(), &id)
}

/// The Ids in the runs. `known` is the set of these, if it was built before.
fn ids_in_runs(alloc: Global, known: Option<DoneRuns>, runs: &[Run]) -> Result<DoneRuns, Memory>
    requires filled { AreFilled runs.now }
    requires known { IfSome known (λ d. (x : Id) → Contains d x ↔ IsInRuns runs.now x) }
    ensures { IfOk result (λ d. (x : Id) → Contains d x ↔ IsInRuns runs.now x) }
{
    match known {
        Some(done) => Ok(done),
        None => DoneRuns::from_runs(alloc, runs),
    }
}

/// What the lines so far say.
#[derive(Drop)]
pub(crate) struct StateProgress {
    /// The counts of the first line. None before it.
    counts: Option<StateCounts>,
    runs: Vec<Run>,
    /// The Ids in the runs. None until an instance is looked up in them.
    done: Option<DoneRuns>,
    waiting: Vec<Entry>,
    stored: Vec<(Key, i64)>,
}

impl Model for StateProgress {
    ghost use Rattle.std.specs.Prelude.{◌↔◌, Contains, IfSome};
    ghost use Rattle.epx_types.specs.declared.id.Id.{Id};
    ghost use Rattle.epx_executor.specs.Runs.{AreFilled, IsInRuns};
    ghost use Rattle.epx_state.specs.inner.StateProgress.{StateProgress};

    ghost Value = { StateProgress };

    ghost view = { λ p. record {
      counts = p.counts;
      runs = p.runs.items;
      waiting = p.waiting.items;
      stored = p.stored.items;
    } };

    ghost invariant = { λ p. AreFilled p.runs.items
        × IfSome p.done (λ d. (x : Id) → Contains d x ↔ IsInRuns p.runs.items x) };
}

impl StateProgress {
    /// The state before the first line.
    pub(crate) fn new(alloc: Global) -> StateProgress
        ensures { result ≡ before_lines }
    {
        StateProgress {
            counts: None,
            runs: Vec::new(alloc),
            done: None,
            waiting: Vec::new(alloc),
            stored: Vec::new(alloc),
        }
    }

    /// Whether an instance is in one of the runs. The first call builds the set of their Ids.
    fn is_in_runs(&mut self, alloc: Global, id: Id) -> Result<bool, Memory>
        ensures found { IfOk result (λ found. found ≡ is_among (ids_in self.old.runs) id) }
        ensures unchanged { self.new ≡ self.old }
    {
        let done = ids_in_runs(alloc, self.done.take(), &self.runs)?;
        let found = done.contains(id);
        self.done = Some(done);
        Ok(found)
    }

    /// Takes one more run. False if it does not begin after the last one ends.
    fn take_run(&mut self, run: Run) -> Result<bool, Memory>
        requires { IsFilledRun run }
        ensures { IfOk result (λ is_allowed. after_run self.old run ≡ some_if is_allowed self.new) }
    {
        if !is_after(self.runs.last().map(end), start(&run)) {
            return Ok(false);
        }
        self.done = None;
        self.runs.push(run)?;
        Ok(true)
    }

    /// Takes one more instance that waits. False if its Id is not greater than the last one, or is
    /// in a run.
    fn take_entry(&mut self, alloc: Global, entry: Entry) -> Result<bool, Memory>
        ensures { IfOk result (λ is_allowed. after_entry self.old entry
            ≡ some_if is_allowed self.new) }
    {
        let id = entry.id();
        if !is_after(self.waiting.last().map(|last| last.id()), id) {
            return Ok(false);
        }
        if self.is_in_runs(alloc, id)? {
            return Ok(false);
        }
        self.waiting.push(entry)?;
        Ok(true)
    }

    /// Takes one more key and its value. False if the key is not greater than the last one.
    fn take_pair(&mut self, key: Key, value: i64) -> Result<bool, Memory>
        ensures { IfOk result (λ is_allowed. after_pair self.old (key, value)
            ≡ some_if is_allowed self.new) }
    {
        if !is_after_last(self.stored.last().map(|pair| &pair.0), &key) {
            return Ok(false);
        }
        self.stored.push((key, value))?;
        Ok(true)
    }

    /// Takes the first line. False if it is not that of a state.
    fn take_counts(&mut self, alloc: Global, bytes: &[u8]) -> Result<bool, Memory>
        ensures { IfOk result (λ is_allowed. after_counts self.old bytes.now
            ≡ some_if is_allowed self.new) }
    {
        match read_counts_line(alloc, bytes)? {
            Some(counts) => {
                self.counts = Some(counts);
                Ok(true)
            }
            None => Ok(false),
        }
    }

    /// Takes a line after the first one: a run while runs are missing, then an instance, then a
    /// pair. False if it is none of that kind, is out of order, or is one too many.
    fn take_part(
        &mut self,
        alloc: Global,
        reader: &mut LineReader,
        counts: StateCounts,
        bytes: &[u8],
    ) -> Result<bool, Memory>
        ensures { IfOk result (λ is_allowed. after_part counts self.old bytes.now
            ≡ some_if is_allowed self.new) }
    {
        if (self.runs.len() as u64) < counts.runs {
            return match read_run_line(alloc, bytes)? {
                Some(run) => self.take_run(run),
                None => Ok(false),
            };
        }
        if (self.waiting.len() as u64) < counts.waiting {
            return match read_entry_line(alloc, reader, bytes)? {
                Some(entry) => self.take_entry(alloc, entry),
                None => Ok(false),
            };
        }
        if (self.stored.len() as u64) >= counts.stored {
            return Ok(false);
        }
        match read_pair_line(alloc, bytes)? {
            Some((key, value)) => self.take_pair(key, value),
            None => Ok(false),
        }
    }

    /// Reads and takes one more line. False if it is not allowed at its position.
    #[tactic(auto, unfolding(crate::specs::inner::StateProgress::past_line))]
    pub(crate) fn take_line(
        &mut self,
        alloc: Global,
        reader: &mut LineReader,
        bytes: &[u8],
    ) -> Result<bool, Memory>
        ensures { IfOk result (λ is_allowed. past_line self.old bytes.now
            ≡ some_if is_allowed self.new) }
    {
        match self.counts {
            Some(counts) => self.take_part(alloc, reader, counts, bytes),
            None => self.take_counts(alloc, bytes),
        }
    }

    /// Whether no line is missing.
    pub(crate) fn is_whole_state(&self) -> bool
        ensures { result ≡ is_whole_state self.now }
    {
        match self.counts {
            Some(counts) => {
                self.runs.len() as u64 == counts.runs
                    && self.waiting.len() as u64 == counts.waiting
                    && self.stored.len() as u64 == counts.stored
            }
            None => false,
        }
    }

    /// How many runs there are.
    pub(crate) fn run_count(&self) -> usize
        ensures count { result ≡ length self.now.runs }
        ensures fits { result < 2 ^ 63 }
    {
        self.runs.len()
    }

    /// Returns the Ids in the runs, the instances that wait, and the pairs of the store.
    pub(crate) fn into_parts(
        self,
        alloc: Global,
    ) -> Result<(DoneRuns, Vec<Entry>, Vec<(Key, i64)>), Memory>
        ensures done { IfOk result (λ v. (x : Id) → Contains v.0 x ↔ IsInRuns self.runs x) }
        ensures waiting { IfOk result (λ v. v.1.items ≡ self.waiting) }
        ensures stored { IfOk result (λ v. v.2.items ≡ self.stored) }
    {
        let StateProgress {
            runs,
            done,
            waiting,
            stored,
            ..
        } = self;
        Ok((ids_in_runs(alloc, done, &runs)?, waiting, stored))
    }
}
