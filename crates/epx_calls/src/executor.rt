//! Tests of the executor: what each commit executes, how it refuses, and how it goes on.
//!
//! The proof of an early return covers the drop of each value that is owned there. That is long for
//! an executor, an entry or a list of replies, so these are borrowed, or passed on at once.
use crate::effects::{Wanted, expect_reply};
use crate::fixtures::{id, key, plan};
use epx_executor::{DoneRuns, Executor};
use epx_types::{Entry, Fault, Id, Op, Place, Reply};
use std::alloc::Global;
use std::process::Abort;
use std::random::RandomSource;
use std::test::Fail;
use std::thread::Threads;

/// The Id, sequence number and dependencies of an instance that is committed, the instances that
/// the commit executes, and how many are pending after it.
type Step<'a> = (Id, u64, &'a [Id], &'a [Id], usize);

/// An executor, and what its calls take.
#[derive(Drop)]
struct Fixture<'a, R> {
    rt: &'a R,
    alloc: Global,
    executor: Executor,
    /// Whether a commit that meets a fault is tried again.
    tries_again: bool,
}

impl<'a, R: Abort + Threads + RandomSource + Sync> Fixture<'a, R> {
    fn new(rt: &'a R, alloc: Global) -> Self {
        Fixture {
            rt,
            alloc,
            executor: Executor::new(alloc),
            tries_again: false,
        }
    }

    /// An instance. If it has dependencies, it adds one to the key `k`.
    fn entry(&self, of: Id, seq: u64, deps: &[Id]) -> Result<Entry, Fail> {
        let mut ops = Vec::new(self.alloc);
        if !deps.is_empty() {
            let key = key(self.rt, self.alloc, "k")?;
            ops.push(Op::Add { key, amount: 1 })?;
        }
        let deps = Vec::from_slice(self.alloc, deps)?;
        Ok(Entry::new(of, seq, deps, ops).expect(self.rt, "an entry"))
    }

    fn commit_all(&mut self, came: Vec<Entry>) -> Result<Vec<(Id, Reply)>, Fault> {
        self.executor
            .commit(self.rt, self.alloc, came, plan(self.rt))
    }

    /// Commits one entry. If that is tried again, a fault must leave the executor as it was.
    fn commit(&mut self, entry: Entry) -> Result<Vec<(Id, Reply)>, Fail> {
        let (of, again) = (entry.id(), entry.copy(self.alloc)?);
        let (pending, keys) = (self.executor.pending_len(), self.executor.store().len());
        match self.commit_all(vec![in self.alloc; entry]?) {
            Err(_) if self.tries_again => {
                assert!(self.rt; self.executor.pending_len() == pending);
                assert!(self.rt; self.executor.store().len() == keys && !self.executor.is_done(of));
                Ok(self.commit_all(vec![in self.alloc; again]?)?)
            }
            committed => Ok(committed?),
        }
    }

    /// Expects that these instances were executed in this order. None of them reads.
    fn expect(&self, executed: &[(Id, Reply)], wanted: &[Id]) {
        assert!(self.rt; executed.len() == wanted.len());
        for (pair, of) in executed.iter().zip(wanted) {
            assert!(self.rt; pair.0 == *of && self.executor.is_done(*of));
            expect_reply(self.rt, &pair.1, Wanted::Values(&[]));
        }
    }

    /// Takes steps, and expects that the store then has this number under `k`, and nothing else.
    fn run(&mut self, steps: &[Step], count: Option<i64>) -> Result<(), Fail> {
        for (of, seq, deps, wanted, pending) in steps {
            let entry = self.entry(*of, *seq, deps)?;
            let executed = self.commit(entry)?;
            self.expect(&executed, wanted);
            assert!(self.rt; self.executor.pending_len() == *pending, "after {of}");
            let waiters = self.executor.waiting(self.rt, self.alloc, plan(self.rt))?;
            assert!(self.rt; waiters.len() == *pending, "after {of}");
        }
        let store = self.executor.store();
        assert!(self.rt; store.get(&key(self.rt, self.alloc, "k")?) == count);
        assert!(self.rt; store.len() == count.is_some() as u128);
        Ok(())
    }

    fn disagree(&mut self) -> Result<(), Fail> {
        self.run(&[(id(0, 1), 2, &[id(0, 0)], &[], 1)], None)?;
        let other = self.entry(id(0, 1), 3, &[id(0, 0)])?;
        let came = vec![in self.alloc; self.entry(id(0, 0), 1, &[])?, other]?;
        let fault = self.commit_all(came).err();
        assert!(self.rt; !self.executor.is_done(id(0, 0)) && self.executor.pending_len() == 1);
        let wanted = Fault::Disagree {
            id: id(0, 1),
            first: Place { log: 0, line: 1 },
            second: Place { log: 1, line: 2 },
        };
        assert!(self.rt; fault == Some(wanted) || fault == Some(Fault::Memory));
        Ok(())
    }

    /// An executor that goes on from what this one holds. It executes nothing yet.
    fn successor(&self, pending: Vec<Entry>) -> Result<Self, Fail> {
        let done = DoneRuns::from_runs(self.alloc, self.executor.done().runs())?;
        let store = self.executor.store().copy()?;
        let after = Executor::after(self.rt, self.alloc, done, store, pending, plan(self.rt));
        let (executor, replies) = after?;
        assert!(self.rt; replies.is_empty() && executor.pending_len() == 1);
        assert!(self.rt; executor.is_done(id(0, 0)));
        Ok(Fixture { executor, ..*self })
    }

    fn go_on(&mut self) -> Result<(), Fail> {
        self.run(&[(id(0, 0), 1, &[], &[id(0, 0)], 0)], None)?;
        self.run(&[(id(0, 2), 3, &[id(0, 1)], &[], 1)], None)?;
        let pending = vec![in self.alloc; self.entry(id(0, 2), 3, &[id(0, 1)])?]?;
        let mut other = self.successor(pending)?;
        let next: [Step; 1] = [(id(0, 1), 2, &[id(0, 0)], &[id(0, 1), id(0, 2)], 0)];
        self.run(&next, Some(2))?;
        other.run(&next, Some(2))
    }
}

#[test]
fn an_instance_is_executed_once_what_it_reaches_has_come(rt: HostRuntime) -> Result<(), Fail> {
    let steps: [Step; 2] = [
        (id(0, 1), 2, &[id(0, 0)], &[], 1),
        (id(0, 0), 1, &[], &[id(0, 0), id(0, 1)], 0),
    ];
    Fixture::new(&rt, rt.alloc()).run(&steps, Some(1))
}

#[test]
fn a_disagreement_names_the_pending_entry_and_the_one_that_came(
    rt: HostRuntime,
) -> Result<(), Fail> {
    Fixture::new(&rt, rt.alloc()).disagree()
}

#[test]
fn what_is_done_is_passed_over(rt: HostRuntime) -> Result<(), Fail> {
    let steps: [Step; 2] = [
        (id(0, 0), 1, &[], &[id(0, 0)], 0),
        (id(0, 0), 7, &[id(9, 9)], &[], 0),
    ];
    Fixture::new(&rt, rt.alloc()).run(&steps, None)
}

// Under `tools/stress refusals` the first call meets the refused allocation, and the second none.
#[test]
fn a_commit_that_ran_out_of_memory_can_be_tried_again(rt: HostRuntime) -> Result<(), Fail> {
    let steps: [Step; 2] = [
        (id(0, 0), 1, &[], &[id(0, 0)], 0),
        (id(0, 1), 2, &[id(0, 0)], &[id(0, 1)], 0),
    ];
    let mut fixture = Fixture::new(&rt, rt.alloc());
    fixture.tries_again = true;
    fixture.run(&steps, Some(1))
}

// Under `tools/stress refusals` one of these calls meets the refused allocation: what waits stays,
// and is executed once what it needs has come.
#[test]
fn what_waits_stays_where_a_commit_runs_out_of_memory(rt: HostRuntime) -> Result<(), Fail> {
    let all = [id(0, 0), id(0, 1), id(0, 2), id(0, 3)];
    let steps: [Step; 4] = [
        (id(0, 1), 1, &[id(0, 0)], &[], 1),
        (id(0, 2), 2, &[id(0, 1)], &[], 2),
        (id(0, 3), 3, &[id(0, 2)], &[], 3),
        (id(0, 0), 1, &[], &all, 0),
    ];
    let mut fixture = Fixture::new(&rt, rt.alloc());
    fixture.tries_again = true;
    fixture.run(&steps, Some(3))
}

#[test]
fn what_waits_for_the_second_of_two_is_looked_at_again(rt: HostRuntime) -> Result<(), Fail> {
    let steps: [Step; 4] = [
        (id(2, 0), 3, &[id(0, 0), id(1, 0)], &[], 1),
        (id(2, 1), 4, &[id(2, 0)], &[], 2),
        (id(0, 0), 1, &[], &[id(0, 0)], 2),
        (id(1, 0), 1, &[], &[id(1, 0), id(2, 0), id(2, 1)], 0),
    ];
    Fixture::new(&rt, rt.alloc()).run(&steps, Some(2))
}

#[test]
fn a_cycle_that_comes_one_by_one_is_executed_as_one(rt: HostRuntime) -> Result<(), Fail> {
    let steps: [Step; 3] = [
        (id(0, 0), 1, &[id(0, 1)], &[], 1),
        (id(0, 1), 2, &[id(0, 2)], &[], 2),
        (id(0, 2), 3, &[id(0, 0)], &[id(0, 0), id(0, 1), id(0, 2)], 0),
    ];
    Fixture::new(&rt, rt.alloc()).run(&steps, Some(3))
}

#[test]
fn an_executor_goes_on_from_what_another_one_holds(rt: HostRuntime) -> Result<(), Fail> {
    Fixture::new(&rt, rt.alloc()).go_on()
}
