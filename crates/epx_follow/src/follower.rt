//! Follows a log: takes its lines one after another, and executes it batch by batch.
ghost use Rattle.std.specs.Prelude.{◌≡◌, ◌≢◌, ◌<◌, ◌≤◌, ◌+◌, ◌^◌, ℕ, List, [], length, IfOk};
ghost use Rattle.std.specs.Prelude.{IfErr, MatchResult, Option};
ghost use Rattle.epx_lines.specs.Lines.{lines_of};
ghost use Rattle.epx_follow.specs.BatchEnds.{EndsBatch, RefusesBatch};
ghost use Rattle.epx_follow.specs.Following.{at_next_log, follower_after, new_follower, next_line};
ghost use Rattle.epx_follow.specs.FollowerLaws.{executor_of};
ghost use Rattle.epx_follow.specs.FollowingStops.{StopsAmong};
ghost use Rattle.epx_follow.specs.LinesTaken.{TakesLine, RefusesLine};
ghost use Rattle.epx_follow.specs.inner.OpenBatches.{HoldsBytes};

use crate::batch_text::{batch_text, count_came, parts_of};
use crate::first_places::{entry_ids, pending_places_from, places_after};
use crate::held_lines::HeldLines;
use crate::line_places::fault_at_lines;
use crate::lines_ahead::LinesAhead;
use epx_executor::Executor;
use epx_executor::laws::commit_leaves_none_ready;
use epx_lines::{LineReader, is_blank_line};
use epx_types::{Fault, Memory, Place, Plan};
use std::alloc::Global;
use std::collections::BTreeMap;
use std::marker::Model;
use std::random::RandomSource;
use std::thread::Threads;

/// What is executed of a log so far, and the lines that are held: those of instances that wait, and
/// those of the batch that is open.
///
/// A batch takes time n log n in its lines and in what the executor looks at. Memory holds what
/// waits, the store twice, and the executed instances as runs of numbers.
#[derive(Drop)]
pub struct Follower {
    executor: Executor,
    held: HeldLines,
}

impl Model for Follower {
    ghost use Rattle.std.specs.Coded.{codes};
    ghost use Rattle.epx_executor.specs.Commits.{contents_code};
    ghost use Rattle.epx_follow.specs.Following.{FollowerView};
    ghost use Rattle.epx_follow.specs.inner.HeldLines.{IsHeld, view_of};

    ghost Value = { FollowerView };

    ghost coded = { Prim.hlevel (codes, contents_code) };

    ghost view = { λ f. view_of f.executor f.held };

    ghost invariant = { λ f. IsHeld f.executor f.held };
}

/// The place of line 1 of log 0.
const FIRST_PLACE: Place = Place { log: 0, line: 1 };

impl Follower {
    /// Nothing is executed, and line 1 of log 0 is the next.
    pub fn new(alloc: Global) -> Follower
        ensures { result ≡ new_follower }
    {
        Follower {
            executor: Executor::new(alloc),
            held: HeldLines::new(alloc, BTreeMap::new(alloc), FIRST_PLACE),
        }
    }

    /// Goes on from what the executor holds. The instances that wait have consecutive lines of a
    /// log, of which the first is `line`. Line 1 of log 0 is the next.
    pub fn after(
        alloc: Global,
        executor: Executor,
        log: usize,
        line: usize,
    ) -> Result<Follower, Memory>
        requires { line + length executor.pending < 2 ^ 63 }
        ensures { IfOk result (λ follower. follower ≡ follower_after executor log line) }
    {
        let places = pending_places_from(alloc, &executor, log, line)?;
        Ok(Follower {
            executor,
            held: HeldLines::new(alloc, places, FIRST_PLACE),
        })
    }

    /// Ends the batch: executes what is ready now. Returns the text of the batch, too.
    pub fn end_batch<R: Threads + RandomSource + Sync>(
        self,
        rt: &R,
        alloc: Global,
        plan: Plan,
    ) -> Result<(Follower, Vec<u8>), Fault>
        ensures { MatchResult result (λ v. EndsBatch self v.0 v.1.items) (RefusesBatch self) }
    {
        let Follower { mut executor, held } = self;
        let HeldLines {
            places,
            batch,
            batch_places,
            next,
            is_open: _,
        } = held;
        let batch_ids = entry_ids(alloc, &batch)?;
        let waited = executor.pending_len();
        let executed = match executor.commit(rt, alloc, batch, plan) {
            Ok(executed) => executed,
            Err(fault) => {
                return Err(fault_at_lines(alloc, &executor, &places, &batch_places, fault));
            }
        };
        let (ids, replies) = parts_of(alloc, executed)?;
        let waiting = executor.pending_len();
        let places = places_after(alloc, waiting, places, &batch_ids, &batch_places, &ids)?;
        let came = count_came(waited, ids.len(), waiting);
        let text = batch_text(alloc, came, waiting, &ids, &replies)?;
        commit_leaves_none_ready();
        let held = HeldLines::new(alloc, places, next);
        Ok((Follower { executor, held }, text))
    }

    /// Takes a line, without its line feed. A blank one ends the batch, and with `each` every line
    /// does. Returns the text of a batch that ended, too. The reader's room is used from line to
    /// line. It is large, so a follower, which is moved into each call, has none.
    pub fn take_line<R: Threads + RandomSource + Sync>(
        self,
        rt: &R,
        alloc: Global,
        reader: &mut LineReader,
        line: &[u8],
        each: bool,
        plan: Plan,
    ) -> Result<(Follower, Vec<u8>), Fault>
        requires { self.next.line < 2 ^ 63 }
        ensures taken { IfOk result (λ v. TakesLine each line.now self v.0 v.1.items) }
        ensures counted { IfOk result (λ v. v.0.next ≡ next_line self.next) }
        ensures refused { IfErr result (RefusesLine each line.now self) }
    {
        let Follower { executor, mut held } = self;
        if is_blank_line(line) {
            held.pass_line();
            let passed = Follower { executor, held };
            return passed.end_batch(rt, alloc, plan);
        }
        held.take_line(alloc, reader, &executor, line)?;
        let follower = Follower { executor, held };
        if each {
            return follower.end_batch(rt, alloc, plan);
        }
        Ok((follower, Vec::new(alloc)))
    }

    /// Takes the lines before the first one that ends a batch. Returns the bytes after them, too.
    // The follower is moved in and out once for all of them: to move it costs as much as to read a
    // line.
    pub(crate) fn hold_lines<'a>(
        self,
        alloc: Global,
        reader: &mut LineReader,
        ahead: &mut LinesAhead<'_>,
        bytes: &'a [u8],
        each: bool,
    ) -> Result<(Follower, &'a [u8]), Fault>
        requires { self.next.line + length bytes.now < 2 ^ 63 }
        ensures held { IfOk result (λ v. HoldsBytes each self bytes.now v.0 v.1.now) }
        ensures counted { IfOk result (λ v. v.0.next.line + length v.1.now
            ≤ self.next.line + length bytes.now) }
        ensures fewer { IfOk result (λ v. length v.1.now ≤ length bytes.now) }
        ensures refused { IfErr result (λ fault. (was : Option (List ℕ))
            → StopsAmong each self (lines_of bytes.now) fault [] was was) }
        ensures unwritten { IfErr result (λ fault. fault ≢ Fault.Write) }
    {
        let Follower { executor, mut held } = self;
        let rest = held.take_lines(alloc, reader, ahead, &executor, bytes, each)?;
        let follower = Follower { executor, held };
        Ok((follower, rest))
    }

    /// The log ended: the next line is the first one of the next log.
    pub fn next_log(self) -> Follower
        requires { self.next.log < 2 ^ 63 }
        ensures { result ≡ at_next_log self }
    {
        let mut follower = self;
        follower.held.next = Place {
            log: follower.held.next.log + 1,
            line: 1,
        };
        follower
    }

    /// The place of the next line.
    pub fn next(&self) -> Place
        ensures { result ≡ self.now.next }
    {
        self.held.next
    }

    /// Whether a line came since the last batch ended.
    pub fn is_open(&self) -> bool
        ensures { result ≡ self.now.is_open }
    {
        self.held.is_open
    }

    /// What is executed, stored and pending. The open batch is no part of it.
    pub fn executor(&self) -> &Executor
        ensures { result.now ≡ executor_of self.now }
    {
        &self.executor
    }
}
