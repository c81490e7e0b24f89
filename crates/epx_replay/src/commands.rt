//! The commands of instances, found piece by piece.
ghost use Rattle.std.specs.Prelude.{◌≡◌, ◌<◌, ◌≤◌, ◌^◌, length, map, IfOk};
ghost use Rattle.epx_types.specs.Pieces.{piece_count};
ghost use Rattle.epx_claims.specs.inner.PieceItems.{items_of_piece};
ghost use Rattle.epx_types.specs.CommittedMap.{commands_in};

use epx_claims::{FreeGate, append_parts, claimed_map};
use epx_committed::{Merged, commands_of};
use epx_types::{Command, Id, Memory, Plan};
use std::alloc::Global;
use std::thread::Threads;

/// The commands of one of the pieces into which the plan cuts some instances.
fn commands_of_piece<'a>(
    alloc: Global,
    merged: &'a Merged,
    ids: &[Id],
    plan: Plan,
    piece: usize,
) -> Result<Vec<Command<'a>>, Memory>
    requires { piece < piece_count plan.cut (length ids.now) }
    ensures { IfOk result (λ commands. map (λ c. c.ops.now) commands.items
        ≡ commands_in merged.now (items_of_piece plan.cut ids.now piece)) }
{
    let (start, end) = plan.range(piece, ids.len());
    commands_of(alloc, merged, &ids[start..end])
}

/// The commands of some instances, with their operations borrowed from the map. The plan's workers
/// look the instances up, piece by piece.
pub fn all_commands<'a, R: Threads + Sync>(
    rt: &R,
    alloc: Global,
    merged: &'a Merged,
    ids: &[Id],
    plan: Plan,
) -> Result<Vec<Command<'a>>, Memory>
    requires { length ids.now ≤ 2 ^ 40 }
    ensures { IfOk result (λ commands. map (λ c. c.ops.now) commands.items
        ≡ commands_in merged.now ids.now) }
{
    if plan.workers() == 1 {
        return commands_of(alloc, merged, ids);
    }
    let pieces = plan.pieces(ids.len());
    let parts = claimed_map(rt, alloc, pieces, plan, &FreeGate, |piece| {
        commands_of_piece(alloc, merged, ids, plan, piece)
    })?;
    let mut all = Vec::with_capacity(alloc, ids.len())?;
    append_parts(&mut all, parts)?;
    Ok(all)
}
