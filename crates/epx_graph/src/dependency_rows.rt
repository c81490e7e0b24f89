//! Looks up each dependency once.
ghost use Rattle.std.specs.Prelude.{◌≡◌, ◌≤◌, ◌++◌, ◌∷◌, [], length, flat_map, IfOk, OnOk};
ghost use Rattle.epx_types.specs.Done.{remaining_ids};
ghost use Rattle.epx_graph.specs.inner.Remainder.{rest_of};
ghost use Rattle.epx_graph.specs.inner.Nodes.{missing_of, positions_of, IsGathered, IsGatheredOf};
ghost use Rattle.epx_graph.specs.inner.Nodes.{instances_of_piece};

use crate::instance_pieces::InstancePieces;
use crate::remainder::{IdState, Remainder};
use epx_claims::{FreeGate, claimed_map};
use epx_rows::{OpenRow, Rows};
use epx_types::{Id, Memory, Plan};
use std::alloc::Global;
use std::thread::Threads;

/// So many instances are loaded together, before their dependencies are looked up. In a longer run
/// the first ones would leave the nearest cache again.
const RUN_LEN: usize = 32;

/// How many instances are sampled to estimate the number of dependencies.
const SAMPLES: usize = 1_024;

/// For each remaining instance: the positions of its remaining dependencies, and separately the
/// Ids of its missing ones. Done dependencies are skipped, since nothing waits for them.
#[derive(Debug, Drop)]
pub(crate) struct Gathered {
    /// For each remaining instance, the positions of its remaining dependencies.
    pub(crate) rows: Rows,
    /// The missing dependencies of all instances, instance by instance. An instance has as many as
    /// its row is shorter than its list of dependencies that are not done.
    pub(crate) missing: Vec<Id>,
}

/// Appends the position of each Id that is left to a row, and each missing Id to `missing`.
fn gather(
    left: &Remainder,
    deps: &[Id],
    row: &mut OpenRow,
    missing: &mut Vec<Id>,
) -> Result<(), Memory>
    ensures rows { OnOk result (row.new.rows ≡ row.old.rows) }
    ensures row { OnOk result
        (row.new.row ≡ row.old.row ++ positions_of (rest_of left.now)
        (remaining_ids left.now.done deps.now)) }
    ensures missing { OnOk result
        (missing.new.items ≡ missing.old.items ++ missing_of (rest_of left.now)
        (remaining_ids left.now.done deps.now)) }
{
    for id in deps {
        match left.look_up(*id) {
            IdState::Left(index) => row.push(index)?,
            IdState::Done => {}
            IdState::Missing => missing.push(*id)?,
        }
    }
    Ok(())
}

/// Appends a row: the positions of the dependencies that are left. Missing dependencies are
/// appended to `missing`.
fn push_committed(
    rows: Rows,
    left: &Remainder,
    deps: &[Id],
    missing: &mut Vec<Id>,
) -> Result<Rows, Memory>
    ensures rows { IfOk result
        (λ pushed. pushed ≡ rows ++ positions_of (rest_of left.now)
        (remaining_ids left.now.done deps.now) ∷ []) }
    ensures missing { OnOk result
        (missing.new.items ≡ missing.old.items ++ missing_of (rest_of left.now)
        (remaining_ids left.now.done deps.now)) }
{
    let mut row = rows.open_row();
    gather(left, deps, &mut row, missing)?;
    row.close()
}

impl Gathered {
    /// Appends what was gathered of the next instances.
    fn append(self, later: Gathered) -> Result<Gathered, Memory>
        ensures rows { IfOk result (λ gathered. gathered.rows ≡ self.rows ++ later.rows) }
        ensures missing { IfOk result
            (λ gathered. gathered.missing.items ≡ self.missing.items ++ later.missing.items) }
    {
        let Gathered { rows, mut missing } = self;
        missing.extend_from_slice(&later.missing)?;
        Ok(Gathered {
            rows: rows.append(later.rows)?,
            missing,
        })
    }
}

/// How many dependencies the instances from `start` to `end` have.
fn count_deps(left: &Remainder, start: usize, end: usize) -> usize
    requires { end ≤ length (rest_of left.now) }
{
    let mut count: usize = 0;
    for index in start..end {
        count = count.saturating_add(left.entry_at(index).deps().len());
    }
    count
}

/// At the first instance of a run, makes room for all of the run's dependencies that may be
/// missing. To count them loads the instances: this loop does so little that the processor loads
/// many at once, where a look-up would wait for each.
fn begin_run(
    left: &Remainder,
    instance: usize,
    end: usize,
    missing: &mut Vec<Id>,
) -> Result<(), Memory>
    requires { end ≤ length (rest_of left.now) }
    ensures { missing.new.items ≡ missing.old.items }
{
    if instance % RUN_LEN == 0 {
        let run_end = end.min(instance.saturating_add(RUN_LEN));
        missing.reserve(count_deps(left, instance, run_end))?;
    }
    Ok(())
}

/// The dependencies of the instances of a piece.
fn gather_piece(
    alloc: Global,
    left: &Remainder,
    pieces: InstancePieces,
    piece: usize,
) -> Result<Gathered, Memory>
    requires { pieces.instances ≡ length (rest_of left.now) }
    ensures { IfOk result (λ gathered. IsGatheredOf (rest_of left.now)
        (instances_of_piece pieces.size (rest_of left.now) piece)
        gathered.rows gathered.missing.items) }
{
    let (start, end) = pieces.range(piece);
    let mut rows = pieces.rows_for_piece(alloc, piece)?;
    let mut missing = Vec::new(alloc);
    for index in start..end {
        begin_run(left, index, end, &mut missing)?;
        rows = push_committed(rows, left, left.entry_at(index).deps(), &mut missing)?;
    }
    Ok(Gathered { rows, missing })
}

/// What was gathered of all pieces, in order. It is appended to the first, which has room for it.
fn join_pieces(alloc: Global, pieces: Vec<Gathered>) -> Result<Gathered, Memory>
    ensures rows { IfOk result (λ gathered.
        gathered.rows ≡ flat_map (λ piece. piece.rows) pieces.items) }
    ensures missing { IfOk result (λ gathered.
        gathered.missing.items ≡ flat_map (λ piece. piece.missing.items) pieces.items) }
{
    let mut pieces = pieces.into_iter();
    let mut gathered = match pieces.next() {
        Some(first) => first,
        None => Gathered {
            rows: Rows::with_capacity(alloc, 0, 0)?,
            missing: Vec::new(alloc),
        },
    };
    for piece in pieces {
        gathered = gathered.append(piece)?;
    }
    Ok(gathered)
}

/// An estimate of the dependencies an instance has, from a sample: counting all would fetch each
/// instance once more. Only the reserved room depends on it.
fn mean_deps(left: &Remainder) -> usize {
    let step = left.len() / SAMPLES + 1;
    let mut seen: usize = 0;
    let mut count: usize = 0;
    let mut index = 0;
    while index < left.len() {
        seen = seen.saturating_add(1);
        count = count.saturating_add(left.entry_at(index).deps().len());
        index = index.saturating_add(step);
    }
    if seen == 0 {
        return 0;
    }
    count.div_ceil(seen)
}

/// The dependencies of the remaining instances, each looked up once. The plan's workers draw pieces
/// of the instances.
pub(crate) fn committed_rows<R: Threads + Sync>(
    rt: &R,
    alloc: Global,
    left: &Remainder,
    plan: Plan,
) -> Result<Gathered, Memory>
    ensures { IfOk result
        (λ gathered. IsGathered (rest_of left.now) gathered.rows gathered.missing.items) }
{
    let pieces = InstancePieces::new(plan, left.len(), mean_deps(left));
    let gathered = claimed_map(rt, alloc, pieces.count, plan, &FreeGate, |piece| {
        gather_piece(alloc, left, pieces, piece)
    })?;
    join_pieces(alloc, gathered)
}
