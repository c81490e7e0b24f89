//! The line that says how far a run is.
ghost use Rattle.std.specs.Thread.{IsSync};
ghost use Rattle.epx_claims.specs.between.Seated.{IsSeatOf};

use crate::job::Job;
use crate::reporter::{POLLS, SECOND, erase, report, use_up, write_line};
use epx_claims::Claims;
use std::alloc::Global;
use std::cell::Cell;
use std::io::Eprint;
use std::rt::Clock;
use std::thread::{Threads, join};
use std::time::{Duration, Instant};

/// The line is written anew after so many milliseconds at the earliest.
const TENTH: u64 = 100;

/// What is known of a run of which a line is shown.
#[derive(Drop)]
struct Shown {
    job: Job,
    start: Instant,
    /// How many sources were begun, and how many have ended.
    begun: Cell<u64>,
    ended: Cell<u64>,
    /// How many bytes they have returned.
    bytes: Cell<u64>,
    /// When the line is to be written next, after the start.
    next: Cell<Duration>,
    is_there: Cell<bool>,
}

/// Shows on standard error, once a second has passed, which source is read and how far all are, and
/// then what is done. The line is erased at the end.
#[derive(Drop)]
pub struct Progress<'a, R> {
    rt: &'a R,
    shown: Option<Shown>,
}

impl<'a, R: Clock + Eprint> Progress<'a, R> {
    /// Begins to count. Nothing is ever shown without a job, or where no clock can be read.
    pub fn new(rt: &'a R, job: Option<Job>) -> Progress<'a, R> {
        let shown = match (job, Instant::now(rt)) {
            (Some(job), Ok(start)) => Some(Shown {
                job,
                start,
                begun: Cell::new(0),
                ended: Cell::new(0),
                bytes: Cell::new(0),
                next: Cell::new(Duration::from_millis(SECOND)),
                is_there: Cell::new(false),
            }),
            _ => None,
        };
        Progress { rt, shown }
    }

    /// A source is read for the first time.
    pub(crate) fn begin_source(&self) {
        if let Some(shown) = &self.shown {
            shown.begun.set(shown.begun.get().saturating_add(1));
        }
    }

    /// A source has returned so many bytes.
    pub(crate) fn add_bytes(&self, count: usize) {
        if let Some(shown) = &self.shown {
            shown
                .bytes
                .set(shown.bytes.get().saturating_add(count as u64));
            self.show(shown);
        }
    }

    /// A source has returned all its bytes.
    pub(crate) fn end_source(&self) {
        if let Some(shown) = &self.shown {
            shown.ended.set(shown.ended.get().saturating_add(1));
            // What comes next may take long without a read.
            shown.next.set(Duration::from_millis(SECOND));
            self.show(shown);
        }
    }

    /// Writes the line, if it is time.
    fn show(&self, shown: &Shown) {
        let Ok(elapsed) = shown.start.elapsed(self.rt) else {
            return;
        };
        if elapsed < shown.next.get() {
            return;
        }
        shown
            .next
            .set(elapsed.saturating_add(Duration::from_millis(TENTH)));
        shown.is_there.set(true);
        let job = &shown.job;
        if shown.ended.get() >= job.count {
            return write_line(self.rt, job.doing());
        }
        let (noun, begun, count) = (job.noun(), shown.begun.get(), job.count);
        let _printed = match job.percent(shown.bytes.get()) {
            Some(percent) => {
                eprint!(self.rt; "\repx: reading {noun} {begun} of {count}, {percent} %\x1b[K")
            }
            None => eprint!(self.rt; "\repx: reading {noun} {begun} of {count}\x1b[K"),
        };
    }

    /// Erases the line, before the answer is written or a fault is reported.
    pub fn end(&self) {
        if let Some(shown) = &self.shown {
            if shown.is_there.get() {
                erase(self.rt);
                shown.is_there.set(false);
            }
        }
    }
}

impl<'a, R: Clock + Eprint + Threads + Sync> Progress<'a, R> {
    /// Calls a closure that makes the answer, once all is read, and returns what it returns.
    pub fn during<F: FnOnce() -> T, T>(&self, alloc: Global, make: F) -> T
        requires { F.pre make }
        ensures { F.post make result }
    {
        let Some(shown) = &self.shown else {
            return make();
        };
        let Ok((claims, mut ours)) = Claims::new(alloc, POLLS, 2) else {
            return make();
        };
        let theirs = claims.split(&mut ours);
        let (rt, claims) = (self.rt, &claims);
        let (start, job) = (shown.start, shown.job);
        let reporter = move || -> bool
            requires { IsSync R.row × IsSeatOf claims.now theirs }
        { report(rt, start, job.doing(), claims, theirs) };
        let maker = move || -> T
            requires { F.pre make × IsSeatOf claims.now ours }
            ensures { F.post make result }
        {
            let made = make();
            use_up(claims, ours);
            made
        };
        let (is_there, made) = join(rt, reporter, maker);
        if is_there {
            shown.is_there.set(true);
        }
        made
    }
}
