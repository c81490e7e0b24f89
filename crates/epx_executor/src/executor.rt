//! The executor.
ghost use Rattle.std.specs.Prelude.{◌≡◌, ◌↔◌, [], Contains, length, map};
ghost use Rattle.std.specs.Prelude.{IsTrue, IfOk, IfErr, IfSome, OnErr};
ghost use Rattle.std.specs.FinMap as contents;
ghost use Rattle.epx_types.specs.Done.{remaining};
ghost use Rattle.epx_types.specs.WaitingLists.{IsWaitingList};
ghost use Rattle.epx_committed.specs.MergedLines.{IsMergeFault};
ghost use Rattle.epx_executor.specs.CallLines.{call_lines};
ghost use Rattle.epx_executor.specs.Commits.{IsCommit, AllWait};

use crate::batch::{Batch, next_batch, waiting_pending};
use crate::blockers::Blockers;
use crate::choose::choose;
use crate::done_runs::DoneRuns;
use crate::execute_all::{commands_at, execute_all, store_after};
use crate::pending::Pending;
use crate::refile::refile;
use epx_graph::Waiter;
use epx_txn::Store;
use epx_types::{Entry, Fault, Id, Memory, Plan, Reply};
use std::alloc::Global;
use std::marker::Model;
use std::mem::replace;
use std::random::RandomSource;
use std::thread::Threads;

/// What a replica has executed, its store, and the committed instances that wait.
///
/// `commit` takes time n log n in the instances that come, the pending ones that may be ready now,
/// the dependencies of both, and the runs of done numbers. It does not look at what was executed
/// earlier, nor at what waits behind an instance that has not come.
///
/// Memory holds the store twice. A commit executes on the second one. Then they change places, and
/// the other one executes the same. So an error leaves the store as it was.
#[derive(Debug)]
pub struct Executor {
    done: DoneRuns,
    store: Store,
    /// A second store with the same contents. None at first, and after memory ran out. Then the
    /// next commit copies the store.
    spare: Option<Store>,
    pending: Pending,
    /// Behind which instance each pending one waits. None after memory ran out: then the next
    /// commit looks at all pending ones.
    blockers: Option<Blockers>,
}

impl Drop for Executor {
    fn drop(self) {
        let Executor {
            done: _,
            store: _,
            spare: _,
            pending: _,
            blockers: _,
        } = self;
    }
}

impl Model for Executor {
    ghost use Rattle.std.specs.Prelude.{◌≡◌, ◌≤◌, length, IfSome};
    ghost use Rattle.std.specs.Coded.{codes};
    ghost use Rattle.epx_types.specs.Done.{remaining};
    ghost use Rattle.epx_types.specs.Limits.{max_instances};
    ghost use Rattle.epx_executor.specs.Commits.{contents_code, ExecutorView, AllWait};
    ghost use Rattle.epx_executor.specs.inner.Choices.{AreFiledIn};

    ghost Value = { ExecutorView };

    ghost coded = { Prim.hlevel (codes, contents_code) };

    ghost view = { λ e. record {
      done = e.done;
      store = e.store;
      pending = e.pending;
    } };

    ghost invariant = { λ e. AllWait (record {
      done = e.done;
      store = e.store;
      pending = e.pending;
    }) × IfSome e.spare (λ s. s ≡ e.store)
        × IfSome e.blockers (AreFiledIn (remaining e.done e.pending))
        × (length e.pending ≤ max_instances) };
}

/// Takes the second store, or copies the first if there is none.
fn take_spare(spare: &mut Option<Store>, store: &Store) -> Result<Store, Memory>
    requires { IfSome spare.old (λ s. s ≡ store.now) }
    ensures same { IfOk result (λ s. s ≡ store.now) }
    ensures left { IfSome spare.new (λ s. s ≡ store.now) }
{
    match spare.take() {
        Some(spare) => Ok(spare),
        None => store.copy(),
    }
}

impl Executor {
    /// An executor that has executed nothing. Its store is empty.
    pub fn new(alloc: Global) -> Executor
        ensures { result ≡ record { done = []; store = contents.empty; pending = [] } }
    {
        Executor::with_none_pending(alloc, DoneRuns::new(alloc), Store::new(alloc))
    }

    /// An executor of these done instances and this store, in which none waits. It has no second
    /// store yet.
    fn with_none_pending(alloc: Global, done: DoneRuns, store: Store) -> Executor
        ensures { result ≡ record { done = done; store = store; pending = [] } }
    {
        Executor {
            done,
            store,
            spare: None,
            pending: Pending::new(alloc),
            blockers: None,
        }
    }

    /// Takes committed instances, and executes those that are ready now. Returns the replies, in
    /// the order of execution.
    ///
    /// Done instances are passed over, and equal ones count as one. On an error the executor is
    /// unchanged:
    /// - `Disagree`: two instances that are not done have one Id and differ. In the places log 0
    ///   is the list of the pending instances, and log 1 is `came`. Both count from line 1.
    /// - `TooManyInstances`: more than `MAX_INSTANCES` are pending or come.
    /// - `Memory`
    pub fn commit<R: Threads + RandomSource + Sync>(
        &mut self,
        rt: &R,
        alloc: Global,
        came: Vec<Entry>,
        plan: Plan,
    ) -> Result<Vec<(Id, Reply)>, Fault>
        ensures ok { IfOk result
            (λ replies. IsCommit self.old came.items self.new replies.items) }
        ensures refused { IfErr result
            (IsMergeFault (call_lines self.old.done self.old.pending came.items)) }
        ensures unchanged { OnErr result (self.new ≡ self.old) }
    {
        let choice = choose(alloc, &self.done, &self.pending, &self.blockers, &came)?;
        let batch = next_batch(rt, alloc, &self.done, &self.pending, &choice, came, plan)?;
        let Batch {
            entries,
            order,
            positions,
            waiters,
            done,
        } = batch;
        let spare = take_spare(&mut self.spare, &self.store)?;
        let commands = commands_at(alloc, &entries, &positions)?;
        let (store, replies) = execute_all(rt, alloc, spare, order.ids(), &commands, plan)?;
        self.pending.update(alloc, &done, &entries, order.ids())?;
        // From here on nothing fails.
        self.blockers = refile(alloc, self.blockers.take(), choice, &waiters);
        let before = replace(&mut self.store, store);
        self.spare = store_after(rt, alloc, before, &commands, plan);
        self.done = done;
        Ok(replies)
    }

    /// The committed instances that wait, by rising Id. None of them is ready.
    pub fn pending(&self, alloc: Global) -> Result<Vec<&Entry>, Memory>
        ensures pending { IfOk result
            (λ entries. map (λ e. e.now) entries.items ≡ self.now.pending) }
        ensures settled { AllWait self.now }
    {
        self.pending.entries(alloc)
    }

    /// The waiting list of the pending instances, by rising Id: each with the least missing
    /// instance that it reaches. An instance is missing if it is neither executed nor pending.
    ///
    /// Takes time n log n in the pending instances and their dependencies, and copies the entries.
    /// `Memory` is the only error.
    pub fn waiting<R: Threads + RandomSource + Sync>(
        &self,
        rt: &R,
        alloc: Global,
        plan: Plan,
    ) -> Result<Vec<Waiter>, Memory>
        ensures { IfOk result (λ waiters.
            IsWaitingList (remaining self.now.done self.now.pending) waiters.items) }
    {
        waiting_pending(rt, alloc, &self.done, &self.pending, plan)
    }

    /// An executor that goes on where another one stopped, from what that one holds: its done
    /// instances, its store and its pending instances. Then there are no replies.
    ///
    /// Other instances may be given as pending too. The replies are those of the ones that are
    /// ready, and the faults are those of `commit`: in their places log 1 is the list `pending`.
    /// Takes the time of a commit of these, and copies the store.
    pub fn after<R: Threads + RandomSource + Sync>(
        rt: &R,
        alloc: Global,
        done: DoneRuns,
        store: Store,
        pending: Vec<Entry>,
        plan: Plan,
    ) -> Result<(Executor, Vec<(Id, Reply)>), Fault>
        ensures ok { IfOk result (λ v. IsCommit
            (record { done = done; store = store; pending = [] }) pending.items v.0 v.1.items) }
        ensures refused { IfErr result (IsMergeFault (call_lines done [] pending.items)) }
    {
        let mut executor = Executor::with_none_pending(alloc, done, store);
        let replies = executor.commit(rt, alloc, pending, plan)?;
        Ok((executor, replies))
    }

    /// How many committed instances wait.
    pub fn pending_len(&self) -> usize
        ensures { result ≡ length self.now.pending }
    {
        self.pending.len()
    }

    /// The store after all commands that are executed.
    pub fn store(&self) -> &Store
        ensures { result.now ≡ self.now.store }
    {
        &self.store
    }

    /// Whether an instance is executed.
    pub fn is_done(&self, id: Id) -> bool
        ensures { IsTrue result ↔ Contains self.now.done id }
    {
        self.done.contains(id)
    }

    /// The executed instances.
    pub fn done(&self) -> &DoneRuns
        ensures { result.now ≡ self.now.done }
    {
        &self.done
    }
}
