//! Finds the calls of instances, with several threads.
ghost use Rattle.std.specs.Prelude.{◌≡◌, ◌≤◌, ◌<◌, ◌^◌, length, IfOk};
ghost use Rattle.epx_types.specs.Pieces.{piece_count};
ghost use Rattle.epx_claims.specs.inner.PieceItems.{items_of_piece};
ghost use Rattle.epx_linear.specs.ClientCalls.{calls_at, calls_in};

use crate::calls::History;
use epx_claims::{FreeGate, append_parts, claimed_map};
use epx_types::{Id, Memory, Plan};
use std::alloc::Global;
use std::thread::Threads;

/// The places of the calls of one of the pieces into which the plan cuts the instances.
fn find_piece(
    alloc: Global,
    history: &History,
    ids: &[Id],
    plan: Plan,
    piece: usize,
) -> Result<Vec<Option<usize>>, Memory>
    requires { piece < piece_count plan.cut (length ids.now) }
    ensures { IfOk result (λ places. calls_at history.now places.items
        ≡ calls_in history.now (items_of_piece plan.cut ids.now piece)) }
{
    let (start, end) = plan.range(piece, ids.len());
    let mut places = Vec::with_capacity(alloc, end - start)?;
    for id in &ids[start..end] {
        places.push(history.find(*id))?;
    }
    Ok(places)
}

impl History {
    /// Returns for each instance the place of its call: its position among the calls. The plan's
    /// workers find them, piece by piece.
    pub fn places<R: Threads + Sync>(
        &self,
        rt: &R,
        alloc: Global,
        ids: &[Id],
        plan: Plan,
    ) -> Result<Vec<Option<usize>>, Memory>
        requires { length ids.now ≤ 2 ^ 40 }
        ensures calls { IfOk result
            (λ places. calls_at self.now places.items ≡ calls_in self.now ids.now) }
        ensures len { IfOk result (λ places. length places.items ≡ length ids.now) }
    {
        let pieces = plan.pieces(ids.len());
        let parts = claimed_map(rt, alloc, pieces, plan, &FreeGate, |piece| {
            find_piece(alloc, self, ids, plan, piece)
        })?;
        let mut places = Vec::with_capacity(alloc, ids.len())?;
        append_parts(&mut places, parts)?;
        Ok(places)
    }
}
