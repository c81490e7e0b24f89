//! Sets of done instances, as runs of consecutive numbers.
ghost use Rattle.std.specs.Prelude.{◌≡◌, ◌↔◌, ◌⊎◌, [], All, Contains, IsTrue};
ghost use Rattle.std.specs.Prelude.{IfOk, IfSome, IfNone, OnOk, OnErr};
ghost use Rattle.epx_types.specs.declared.id.Id.{Id};
ghost use Rattle.epx_types.specs.Ids.{Below, UpTo};
ghost use Rattle.epx_executor.specs.Runs.{AreFilled, AreRuns, BeginInOrder, start_of};
ghost use Rattle.epx_executor.specs.Runs.{ids_in, IsFilledRun, IsInRun, IsInRuns, end_of};

use epx_types::{Id, Memory};
use std::alloc::Global;
use std::marker::Model;
use std::slice;

/// Consecutive numbers of one replica, from the first to the last.
#[derive(Clone, Copy, Debug, PartialEq, Eq, PartialOrd, Ord)]
pub struct Run {
    pub replica: u8,
    pub first: u64,
    pub last: u64,
}

impl Run {
    /// The run of one instance.
    fn of(id: Id) -> Run
        ensures filled { IsFilledRun result }
        ensures alone { (x : Id) → IsInRun result x ↔ (x ≡ id) }
    {
        Run {
            replica: id.replica,
            first: id.number,
            last: id.number,
        }
    }

    /// The Id with the first number.
    fn first_id(self) -> Id
        ensures { result ≡ start_of self }
    {
        Id {
            replica: self.replica,
            number: self.first,
        }
    }

    /// The Id with the last number.
    fn last_id(self) -> Id
        ensures { result ≡ end_of self }
    {
        Id {
            replica: self.replica,
            number: self.last,
        }
    }

    /// Both runs as one, if no number lies between them. The next one does not begin before this
    /// one.
    fn join(self, next: Run) -> Option<Run>
        requires filled { IsFilledRun self × IsFilledRun next }
        requires order { UpTo (start_of self) (start_of next) }
        ensures first { IfSome result (λ r. start_of r ≡ start_of self) }
        ensures filled { IfSome result (λ r. IsFilledRun r) }
        ensures members { IfSome result
            (λ r. (x : Id) → IsInRun r x ↔ (IsInRun self x ⊎ IsInRun next x)) }
        ensures apart { IfNone result (Below (end_of self) (start_of next)) }
    {
        if self.replica != next.replica || self.last.saturating_add(1) < next.first {
            return None;
        }
        Some(Run {
            last: self.last.max(next.last),
            ..self
        })
    }
}

/// Appends a run that does not begin before an earlier one. If no number lies between it and the
/// last run, that one is lengthened.
fn push_run(runs: &mut Vec<Run>, run: Run) -> Result<(), Memory>
    requires filled { IsFilledRun run }
    requires after { All (λ r. UpTo (start_of r) (start_of run)) runs.old.items }
    requires runs { AreRuns runs.old.items }
    ensures runs { OnOk result (AreRuns runs.new.items) }
    ensures after { OnOk result (All (λ r. UpTo (start_of r) (start_of run)) runs.new.items) }
    ensures members { OnOk result ((x : Id)
        → IsInRuns runs.new.items x ↔ (IsInRuns runs.old.items x ⊎ IsInRun run x)) }
{
    if let Some(last) = runs.pop() {
        if let Some(joined) = last.join(run) {
            runs.push(joined)?;
            return Ok(());
        }
        runs.push(last)?;
    }
    runs.push(run)?;
    Ok(())
}

/// These runs and a run for each Id, sorted by first Id.
fn sorted_runs(alloc: Global, runs: &[Run], ids: &[Id]) -> Result<Vec<Run>, Memory>
    requires { AreFilled runs.now }
    ensures filled { IfOk result (λ all. AreFilled all.items) }
    ensures order { IfOk result (λ all. BeginInOrder all.items) }
    ensures members { IfOk result (λ all. (x : Id)
        → IsInRuns all.items x ↔ (IsInRuns runs.now x ⊎ Contains ids.now x)) }
{
    let mut all = Vec::with_capacity(alloc, runs.len().saturating_add(ids.len()))?;
    for id in ids {
        all.push(Run::of(*id))?;
    }
    all.extend_from_slice(runs)?;
    all.sort_unstable();
    Ok(all)
}

/// Runs of the same Ids with gaps between them.
fn join_runs(alloc: Global, sorted: &[Run]) -> Result<Vec<Run>, Memory>
    requires filled { AreFilled sorted.now }
    requires order { BeginInOrder sorted.now }
    ensures runs { IfOk result (λ runs. AreRuns runs.items) }
    ensures members { IfOk result
        (λ runs. (x : Id) → IsInRuns runs.items x ↔ IsInRuns sorted.now x) }
{
    let mut runs = Vec::new(alloc);
    for run in sorted {
        push_run(&mut runs, *run)?;
    }
    Ok(runs)
}

/// Whether an Id is in one of the runs, by binary search.
fn is_in_runs(runs: &[Run], id: Id) -> bool
    requires { AreRuns runs.now }
    ensures { IsTrue result ↔ IsInRuns runs.now id }
{
    let (mut low, mut high) = (0, runs.len());
    while low < high {
        let middle = low + (high - low) / 2;
        let run = runs[middle];
        if id < run.first_id() {
            high = middle;
        } else if run.last_id() < id {
            low = middle + 1;
        } else {
            return true;
        }
    }
    false
}

/// A set of Ids, as runs of consecutive numbers of one replica. Contracts see the list of its Ids.
///
/// A run takes three words of memory. A replica has one run, and one more for each gap in its
/// numbers.
#[derive(Debug, Drop)]
pub struct DoneRuns {
    runs: Vec<Run>,
}

impl Model for DoneRuns {
    ghost use Rattle.std.specs.Prelude.{List};
    ghost use Rattle.epx_types.specs.declared.id.Id.{Id};
    ghost use Rattle.epx_executor.specs.Runs.{AreRuns, ids_in};

    ghost Value = { List Id };

    ghost view = { λ d. ids_in d.runs.items };

    ghost invariant = { λ d. AreRuns d.runs.items };
}

impl DoneRuns {
    /// The empty set.
    pub fn new(alloc: Global) -> DoneRuns
        ensures { result ≡ [] }
    {
        DoneRuns {
            runs: Vec::new(alloc),
        }
    }

    /// The Ids of these runs, in whatever order they come.
    pub fn from_runs(alloc: Global, runs: &[Run]) -> Result<DoneRuns, Memory>
        requires { AreFilled runs.now }
        ensures { IfOk result (λ set. (x : Id) → Contains set x ↔ IsInRuns runs.now x) }
    {
        let sorted = sorted_runs(alloc, runs, &[])?;
        let runs = join_runs(alloc, &sorted)?;
        Ok(DoneRuns { runs })
    }

    /// Whether an Id is in the set. Takes logarithmic time in the runs.
    pub fn contains(&self, id: Id) -> bool
        ensures { IsTrue result ↔ Contains self.now id }
    {
        is_in_runs(&self.runs, id)
    }

    /// The set with further Ids. Takes time n log n in the runs and these Ids. The runs are joined
    /// anew, so the old set stays where memory runs out.
    pub fn with(&self, alloc: Global, ids: &[Id]) -> Result<DoneRuns, Memory>
        ensures { IfOk result (λ more. (x : Id)
            → Contains more x ↔ (Contains self.now x ⊎ Contains ids.now x)) }
    {
        let sorted = sorted_runs(alloc, &self.runs, ids)?;
        let runs = join_runs(alloc, &sorted)?;
        Ok(DoneRuns { runs })
    }

    /// Adds one Id. To add many, `with` is faster. After `Memory` the set is unchanged.
    pub fn insert(&mut self, alloc: Global, id: Id) -> Result<(), Memory>
        ensures ok { OnOk result ((x : Id)
            → Contains self.new x ↔ (Contains self.old x ⊎ (x ≡ id))) }
        ensures err { OnErr result (self.new ≡ self.old) }
    {
        let more = self.with(alloc, slice::from_ref(&id))?;
        *self = more;
        Ok(())
    }

    /// The runs, by rising Id, with a gap in the numbers between two of one replica.
    pub fn runs(&self) -> &[Run]
        ensures runs { AreRuns result.now }
        ensures members { (x : Id) → Contains self.now x ↔ IsInRuns result.now x }
    {
        self.runs.as_slice()
    }
}
