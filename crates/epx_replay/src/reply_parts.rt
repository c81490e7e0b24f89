//! Writes reply lines with several threads.
ghost use Rattle.std.specs.Prelude.{◌≡◌, ◌<◌, ◌≤◌, ◌^◌, length, flat_map, zip, IfOk};
ghost use Rattle.epx_types.specs.Pieces.{piece_count};
ghost use Rattle.epx_claims.specs.inner.PieceItems.{items_of_piece};
ghost use Rattle.epx_report.specs.ReportLines.{reply_line};

use epx_claims::{FreeGate, claimed_map};
use epx_report::append_replies;
use epx_types::{Id, Memory, Plan, Reply};
use std::alloc::Global;
use std::thread::Threads;

/// The reply lines of one of the pieces into which the plan cuts the instances.
fn lines_of_piece(
    alloc: Global,
    ids: &[Id],
    replies: &[Reply],
    plan: Plan,
    piece: usize,
) -> Result<Vec<u8>, Memory>
    requires same { length replies.now ≡ length ids.now }
    requires piece { piece < piece_count plan.cut (length ids.now) }
    ensures { IfOk result (λ text. text.items
        ≡ flat_map reply_line (items_of_piece plan.cut (zip ids.now replies.now) piece)) }
{
    let (start, end) = plan.range(piece, ids.len());
    let mut text = Vec::new(alloc);
    append_replies(alloc, &mut text, &ids[start..end], &replies[start..end])?;
    Ok(text)
}

/// The reply lines of instances, in parts that follow each other. The plan's workers write them.
pub(crate) fn reply_parts<R: Threads + Sync>(
    rt: &R,
    alloc: Global,
    ids: &[Id],
    replies: &[Reply],
    plan: Plan,
) -> Result<Vec<Vec<u8>>, Memory>
    requires few { length ids.now ≤ 2 ^ 40 }
    requires same { length replies.now ≡ length ids.now }
    ensures { IfOk result (λ parts. flat_map (λ part. part.items) parts.items
        ≡ flat_map reply_line (zip ids.now replies.now)) }
{
    let pieces = plan.pieces(ids.len());
    claimed_map(rt, alloc, pieces, plan, &FreeGate, |piece| {
        lines_of_piece(alloc, ids, replies, plan, piece)
    })
}
