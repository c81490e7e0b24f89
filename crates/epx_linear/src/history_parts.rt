//! Reads the lines of a history with several threads.
ghost use Rattle.std.specs.Prelude.{◌≡◌, ◌≤◌, ◌<◌, ◌^◌, length, map, flat_map, Some, IfOk, IfSome};
ghost use Rattle.epx_types.specs.Pieces.{piece_count};
ghost use Rattle.epx_claims.specs.inner.PieceItems.{items_of_piece};
ghost use Rattle.epx_linear.specs.inner.HistoryReadings.{said_calls};

use crate::call_reader::CallReader;
use crate::client_call::ClientCall;
use epx_claims::{FreeGate, append_parts, claimed_map};
use epx_lines::is_blank_line;
use epx_types::{Memory, Plan};
use std::alloc::Global;
use std::thread::Threads;

/// The lines were not read as a history, or there was too little memory.
#[derive(Drop)]
pub(crate) struct Unread;

impl From<Memory> for Unread {
    ghost from_gives = { λ _ _. Unit {0} };

    fn from(_memory: Memory) -> Unread {
        Unread
    }
}

/// The calls of the lines that are not blank. None if one says no call.
fn read_lines(alloc: Global, lines: &[&[u8]]) -> Result<Option<Vec<ClientCall>>, Memory>
    ensures { IfOk result
        (λ read. IfSome read (λ calls. map Some calls.items
        ≡ said_calls (map (λ l. l.now) lines.now))) }
{
    let mut reader = CallReader::new(alloc);
    let mut calls = Vec::with_capacity(alloc, lines.len())?;
    for line in lines {
        if !is_blank_line(line) {
            let Some(call) = reader.read(alloc, line)? else {
                return Ok(None);
            };
            calls.push(call)?;
        }
    }
    Ok(Some(calls))
}

/// The calls of one of the pieces into which the plan cuts the lines.
fn read_piece(
    alloc: Global,
    lines: &[&[u8]],
    plan: Plan,
    piece: usize,
) -> Result<Vec<ClientCall>, Unread>
    requires { piece < piece_count plan.cut (length lines.now) }
    ensures { IfOk result (λ calls. map Some calls.items
        ≡ said_calls (map (λ l. l.now) (items_of_piece plan.cut lines.now piece))) }
{
    let (start, end) = plan.range(piece, lines.len());
    match read_lines(alloc, &lines[start..end])? {
        Some(calls) => Ok(calls),
        None => Err(Unread),
    }
}

/// The calls of all parts, one part after another.
fn join(alloc: Global, parts: Vec<Vec<ClientCall>>) -> Result<Vec<ClientCall>, Memory>
    ensures { IfOk result (λ calls. calls.items
        ≡ flat_map (λ part. part.items) parts.items) }
{
    let mut calls = Vec::new(alloc);
    append_parts(&mut calls, parts)?;
    Ok(calls)
}

/// The calls of the lines that are not blank, in their order. The plan's workers read the lines.
pub(crate) fn read_pieces<R: Threads + Sync>(
    rt: &R,
    alloc: Global,
    lines: &[&[u8]],
    plan: Plan,
) -> Result<Vec<ClientCall>, Unread>
    requires { length lines.now ≤ 2 ^ 40 }
    ensures { IfOk result (λ calls. map Some calls.items
        ≡ said_calls (map (λ l. l.now) lines.now)) }
{
    let pieces = plan.pieces(lines.len());
    let parts = claimed_map(rt, alloc, pieces, plan, &FreeGate, |piece| {
        read_piece(alloc, lines, plan, piece)
    })?;
    Ok(join(alloc, parts)?)
}
